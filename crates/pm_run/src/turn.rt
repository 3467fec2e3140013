//! The parts of a run: its head, and a turn, which takes one event and writes what belongs to it.
ghost use Rattle.std.specs.Prelude.{◌≡◌, ◌+◌, ◌≤◌, ◌<◌, false, min, Ok, Err, OnOk, OnErr, IfErr};
ghost use Rattle.pm_io.specs.Counts.{Rose};
ghost use Rattle.pm_io.specs.Sink.{gained, GainsPart};
ghost use Rattle.pm_exec.specs.Ran.{run_events, whole_work_of, last_event, IsOf};
ghost use Rattle.pm_run.specs.Text.{row_part, event_lines, head_text, end_text};
ghost use Rattle.pm_run.specs.IsMeter.{IsMeter};
ghost use Rattle.pm_run.specs.RunState.{text_after};

use crate::meter::Meter;
use crate::row::write_row;
use pm_exec::{Exec, Tick};
use pm_io::Sink;
use pm_lines::{LineBad, put_end, put_head, put_plan};
use pm_plan::Plan;
use std::alloc::Global;

/// What a turn did: it took an event, or it wrote the end line.
#[derive(Clone, Copy, Debug, PartialEq, Eq)]
pub enum Turn {
    Went,
    Ended,
}

/// Writes the plan and header lines.
pub(crate) fn write_head<S: Sink>(alloc: Global, sink: &mut S, plan: &Plan) -> Result<(), LineBad>
    ensures whole { OnOk result (S.written sink.new ≡ gained (S.written sink.old) (head_text plan.now)) }
    ensures part { OnErr result (GainsPart (S.written sink.old) (S.written sink.new) (head_text plan.now)) }
    ensures failed { result ≡ Err LineBad.Write → Rose (S.faults sink.old) (S.faults sink.new) }
    ensures faults { S.faults sink.old ≤ S.faults sink.new }
{
    put_plan(alloc, sink, plan)?;
    put_head(alloc, sink, plan.heads.as_slice())
}

/// Takes the next event and writes its lines, or writes the end line where none is left.
pub(crate) fn take_turn<S: Sink>(
    alloc: Global,
    sink: &mut S,
    plan: &Plan,
    exec: &mut Exec<'_>,
    meter: &mut Meter<'_>,
) -> Result<Turn, LineBad>
    requires plan { plan.now ≡ exec.old.plan }
    requires sound { exec.old.failed ≡ false }
    requires meter { IsMeter exec.old.plan exec.old.db exec.old.taken (exec.old.taken + 1) meter.old }
    ensures went { result ≡ Ok Turn.Went → S.written sink.new ≡ gained (S.written sink.old) (event_lines exec.old.plan exec.old.db meter.old.every (exec.old.taken + 1)) }
    ensures took { result ≡ Ok Turn.Went → exec.new ≡ record exec.old { taken = exec.old.taken + 1 } }
    ensures left { result ≡ Ok Turn.Went → exec.old.taken < whole_work_of exec.old }
    ensures ended { result ≡ Ok Turn.Ended → S.written sink.new ≡ gained (S.written sink.old) (end_text exec.old.plan exec.old.db) }
    ensures over { result ≡ Ok Turn.Ended → exec.new ≡ exec.old }
    ensures none_left { result ≡ Ok Turn.Ended → exec.old.taken ≡ whole_work_of exec.old }
    ensures part { OnErr result (GainsPart (S.written sink.old) (S.written sink.new) (text_after exec.old meter.old.every)) }
    ensures same { exec.new ≡ record exec.old { taken = exec.new.taken; failed = exec.new.failed } }
    ensures at_most_one { IfErr result (λ fault. (exec.old.taken ≤ exec.new.taken) × (exec.new.taken ≤ min (exec.old.taken + 1) (whole_work_of exec.old))) }
    ensures taken { result ≡ Err LineBad.Write → exec.new.taken ≡ min (exec.old.taken + 1) (whole_work_of exec.old) }
    ensures failed { result ≡ Err LineBad.Write → Rose (S.faults sink.old) (S.faults sink.new) }
    ensures faults { S.faults sink.old ≤ S.faults sink.new }
    ensures meter { IsMeter exec.new.plan exec.new.db exec.new.taken (exec.new.taken + 1) meter.new }
    ensures every { meter.new.every ≡ meter.old.every }
{
    match exec.step()? {
        Tick::End => {
            put_end(sink, exec.gauges()[0].handed, exec.taken())?;
            Ok(Turn::Ended)
        }
        Tick::Row(node) => {
            meter.note(plan, node, exec);
            write_event(alloc, sink, plan, node, exec)?;
            meter.write_line(sink, plan, exec)?;
            Ok(Turn::Went)
        }
    }
}

/// Writes what belongs to the event that was taken last, of this node: a row line where it is the root.
fn write_event<S: Sink>(
    alloc: Global,
    sink: &mut S,
    plan: &Plan,
    node: u32,
    exec: &Exec<'_>,
) -> Result<(), LineBad>
    requires plan { plan.now ≡ exec.now.plan }
    requires sound { exec.now.failed ≡ false }
    requires last { IsOf node (last_event (run_events exec.now) exec.now.taken) }
    ensures whole { OnOk result (S.written sink.new ≡ gained (S.written sink.old) (row_part plan.now.kinds (last_event (run_events exec.now) exec.now.taken))) }
    ensures part { OnErr result (GainsPart (S.written sink.old) (S.written sink.new) (row_part plan.now.kinds (last_event (run_events exec.now) exec.now.taken))) }
    ensures failed { result ≡ Err LineBad.Write → Rose (S.faults sink.old) (S.faults sink.new) }
    ensures faults { S.faults sink.old ≤ S.faults sink.new }
{
    if node == 1 {
        write_row(alloc, sink, exec, &plan.kinds)
    } else {
        Ok(())
    }
}
