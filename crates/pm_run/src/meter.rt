//! Progress lines: when one is due, and what it shows.
ghost use Rattle.std.specs.Prelude.{◌≡◌, ℕ, ◌+◌, ◌≤◌, ◌-◌, ◌^◌, IfOk, IfSome, OnOk, OnErr, Some};
ghost use Rattle.pm_io.specs.Counts.{Rose};
ghost use Rattle.pm_io.specs.Sink.{gained, GainsPart};
ghost use Rattle.pm_plan.specs.Preorder.{tree_of};
ghost use Rattle.pm_work.specs.Moments.{gauge_in, gauges_at};
ghost use Rattle.pm_bounds.specs.Bounds.{bounds_of, whole_of};
ghost use Rattle.pm_estim.specs.Lists.{pipes_in};
ghost use Rattle.pm_estim.specs.Estimates.{shown_at};
ghost use Rattle.pm_exec.specs.Ran.{IsOf, last_event, run_events, whole_work_of};
ghost use Rattle.pm_run.specs.Text.{is_due, progress_part};
ghost use Rattle.pm_run.specs.Pace.{IsQuiet};
ghost use Rattle.pm_run.specs.IsBounding.{IsBounding, bounds_in};
ghost use Rattle.pm_run.specs.IsMeter.{IsMeter, IsMoment};

use crate::bounding::Bounding;
use pm_estim::{Pipes, estimate};
use pm_exec::{Exec, runs_fit};
use pm_io::{Sink, WriteFault};
use pm_lines::put_progress;
use pm_plan::{Plan, Shown, Whole};
use std::alloc::{AllocError, Global};

/// What tells when a progress line is due, and what it shows: where as many events were taken as a multiple of `every`, and
/// where as many as the last lower bound of the whole work said.
#[derive(Drop)]
pub(crate) struct Meter<'a> {
    pub(crate) pipes: Pipes,
    pub(crate) bounding: Bounding<'a>,
    pub(crate) every: Option<u64>,
    pub(crate) next: u128,
}

impl<'a> Meter<'a> {
    /// A meter before the first event.
    pub(crate) fn of(
        alloc: Global,
        plan: &'a Plan,
        exec: &Exec<'_>,
        every: Option<u64>,
    ) -> Result<Meter<'a>, AllocError>
        requires plan { plan.now ≡ exec.now.plan }
        requires fresh { exec.now.taken ≡ 0 }
        requires every { IfSome every (λ n. 1 ≤ n) }
        ensures meter { IfOk result (IsMeter exec.now.plan exec.now.db 0 1) }
        ensures every { IfOk result (λ meter. meter.every ≡ every) }
    {
        runs_fit(exec);
        let pipes = Pipes::of(alloc, plan)?;
        let bounding = Bounding::of(alloc, plan, exec.gauges(), every)?;
        Ok(Meter {
            pipes,
            bounding,
            every,
            next: 1,
        })
    }

    /// Takes note of the event that was taken last, which was of this node.
    pub(crate) fn note(&mut self, plan: &Plan, node: u32, exec: &Exec<'_>)
        requires plan { plan.now ≡ exec.now.plan }
        requires last { IsOf node (last_event (run_events exec.now) exec.now.taken) }
        requires before { IsMeter exec.now.plan exec.now.db (exec.now.taken - 1) exec.now.taken self.old }
        ensures after { IsMeter exec.now.plan exec.now.db exec.now.taken exec.now.taken self.new }
        ensures every { self.new.every ≡ self.old.every }
    {
        self.bounding.note(plan, node, exec.gauges());
    }

    /// The work done and the bounds of the whole work, at this moment of a run.
    pub(crate) fn whole(&mut self, plan: &Plan, exec: &Exec<'_>) -> Whole
        requires plan { plan.now ≡ exec.now.plan }
        requires bounding { IsBounding exec.now.plan (gauges_at exec.now.db (tree_of exec.now.plan.nodes) exec.now.taken) self.old.bounding }
        ensures value { result ≡ whole_of (tree_of exec.now.plan.nodes) (gauge_in (gauges_at exec.now.db (tree_of exec.now.plan.nodes) exec.now.taken)) }
        ensures each { bounds_in self.new.bounding ≡ bounds_of (tree_of exec.now.plan.nodes) 1 (gauge_in (gauges_at exec.now.db (tree_of exec.now.plan.nodes) exec.now.taken)) }
        ensures same { self.new ≡ record self.old { bounding = self.new.bounding } }
        ensures bounding { IsBounding exec.now.plan (gauges_at exec.now.db (tree_of exec.now.plan.nodes) exec.now.taken) self.new.bounding }
    {
        self.bounding.whole(plan, exec.gauges())
    }

    /// What a progress line shows at this moment of a run that has taken an event.
    fn shown(&mut self, plan: &Plan, exec: &Exec<'_>) -> Shown
        requires begun { 1 ≤ exec.now.taken }
        requires plan { plan.now ≡ exec.now.plan }
        requires pipes { self.old.pipes ≡ pipes_in (tree_of plan.now.nodes) }
        requires bounding { IsBounding exec.now.plan (gauges_at exec.now.db (tree_of exec.now.plan.nodes) exec.now.taken) self.old.bounding }
        ensures value { result ≡ shown_at exec.now.db (tree_of exec.now.plan.nodes) exec.now.taken }
        ensures moment { IsMoment (whole_work_of exec.now) exec.now.taken result }
        ensures same { self.new ≡ record self.old { bounding = self.new.bounding } }
        ensures bounding { IsBounding exec.now.plan (gauges_at exec.now.db (tree_of exec.now.plan.nodes) exec.now.taken) self.new.bounding }
    {
        runs_fit(exec);
        let whole = self.whole(plan, exec);
        estimate(&self.pipes, exec.gauges(), self.bounding.bounds(), &whole)
    }

    /// Writes the progress line of the event that was taken last, where it has one.
    pub(crate) fn write_line<S: Sink>(
        &mut self,
        sink: &mut S,
        plan: &Plan,
        exec: &Exec<'_>,
    ) -> Result<(), WriteFault>
        requires begun { 1 ≤ exec.now.taken }
        requires plan { plan.now ≡ exec.now.plan }
        requires before { IsMeter exec.now.plan exec.now.db exec.now.taken exec.now.taken self.old }
        ensures whole { OnOk result (S.written sink.new ≡ gained (S.written sink.old) (progress_part exec.now.plan exec.now.db self.old.every exec.now.taken)) }
        ensures part { OnErr result (GainsPart (S.written sink.old) (S.written sink.new) (progress_part exec.now.plan exec.now.db self.old.every exec.now.taken)) }
        ensures failed { OnErr result (Rose (S.faults sink.old) (S.faults sink.new)) }
        ensures faults { S.faults sink.old ≤ S.faults sink.new }
        ensures after { IsMeter exec.now.plan exec.now.db exec.now.taken (exec.now.taken + 1) self.new }
        ensures every { self.new.every ≡ self.old.every }
    {
        let Some(every) = self.every else {
            return Ok(());
        };
        runs_fit(exec);
        if exec.taken() < self.next {
            return Ok(());
        }
        let shown = self.shown(plan, exec);
        self.next = next_look(every, &shown);
        if is_due(every, &shown) {
            put_progress(sink, &shown)
        } else {
            Ok(())
        }
    }
}

/// Whether this moment has a progress line: each so many events, and at the last.
fn is_due(every: u64, shown: &Shown) -> bool
    requires { 1 ≤ every }
    ensures { result ≡ is_due (Some every) shown.now.hi shown.now.work }
{
    shown.work.is_multiple_of(u128::from(every)) || shown.work == shown.hi
}

/// The event before which no line is due after this moment's.
fn next_look(every: u64, shown: &Shown) -> u128
    requires every { 1 ≤ every }
    requires limit { shown.now.work ≤ 10 ^ 34 }
    ensures { (whole : ℕ) → shown.now.lo ≤ whole → IsQuiet (Some every) whole (shown.now.work + 1) result }
{
    let every = u128::from(every);
    let multiple = (shown.work / every + 1) * every;
    multiple.min(shown.lo)
}
