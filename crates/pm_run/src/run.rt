//! A run of a plan over a database, by turns or as a whole.
ghost use Rattle.std.specs.Prelude.{◌≡◌, ◌+◌, ◌<◌, ◌≤◌, map, true, Ok, Err, IfOk, IfErr, OnOk, OnErr, IfSome, min};
ghost use Rattle.pm_io.specs.Counts.{Rose};
ghost use Rattle.pm_io.specs.Sink.{gained, GainsPart};
ghost use Rattle.pm_plan.specs.Preorder.{tree_of};
ghost use Rattle.pm_work.specs.Fits.{Fits};
ghost use Rattle.pm_work.specs.Moments.{counts_at, gauge_in, gauges_at};
ghost use Rattle.pm_bounds.specs.Bounds.{whole_of};
ghost use Rattle.pm_flows.specs.Indexes.{index_of};
ghost use Rattle.pm_flows.specs.KeyColumns.{join_columns};
ghost use Rattle.pm_run.specs.Text.{event_lines, head_text, end_text, run_text};
ghost use Rattle.pm_run.specs.RunState.{CanTurn, whole_work_in, turn_text};

use crate::meter::Meter;
use crate::turn::{Turn, take_turn, write_head};
use pm_exec::{Exec, runs_fit};
use pm_flows::{Indexes, KeyColumns, key_columns, seek_indexes};
use pm_io::Sink;
use pm_lines::LineBad;
use pm_plan::{Plan, Whole};
use pm_values::Db;
use std::alloc::{AllocError, Global};
use std::marker::Model;

/// How far a run has come: nothing was written, turns are taken, the end line was written, or it has answered a fault.
#[derive(Clone, Copy, Debug, PartialEq, Eq)]
pub enum Stage {
    Fresh,
    Going,
    Ended,
    Spent(LineBad),
}

/// A run of a plan over a database, which writes its lines into a sink.
#[derive(Drop)]
pub struct Run<'a> {
    alloc: Global,
    plan: &'a Plan,
    exec: Exec<'a>,
    meter: Meter<'a>,
    stage: Stage,
}

impl<'a> Model for Run<'a> {
    ghost use Rattle.pm_run.specs.RunState.{RunState};

    ghost Value = { RunState };

    ghost use Rattle.std.specs.Coded.{codes};
    ghost use Rattle.pm_values.specs.contracts.condition.Cond as cond;

    ghost coded = { Prim.hlevel (codes, cond.the_row.coded) };

    ghost use Rattle.pm_run.specs.IsRun.{run_of, IsRun};

    ghost view = { run_of };

    ghost invariant = { IsRun };
}

impl<'a> Run<'a> {
    /// A run that has written nothing, which is lent the columns of the plan's keys and its indexes. A progress line comes after each
    /// `every` events and at the last, and none at all without `every`. Only want of memory fails it.
    pub fn begin(
        alloc: Global,
        plan: &'a Plan,
        db: &'a Db,
        keys: &'a KeyColumns,
        indexes: &'a Indexes<'a>,
        every: Option<u64>,
    ) -> Result<Run<'a>, AllocError>
        requires fits { Fits plan.now db.now }
        requires keys { keys.now ≡ map join_columns plan.now.nodes }
        requires indexes { indexes.now ≡ map (index_of db.now) plan.now.nodes }
        requires every { IfSome every (λ n. 1 ≤ n) }
        ensures { IfOk result (λ run. run ≡ record { plan = plan.entry.now; db = db.entry.now; every = every; taken = 0; stage = Stage.Fresh }) }
    {
        let exec = Exec::begin(alloc, plan, db, keys, indexes)?;
        let meter = Meter::of(alloc, plan, &exec, every)?;
        Ok(Run {
            alloc,
            plan,
            exec,
            meter,
            stage: Stage::Fresh,
        })
    }

    /// Writes the plan and header lines.
    pub fn head<S: Sink>(&mut self, sink: &mut S) -> Result<(), LineBad>
        requires { self.old.stage ≡ Stage.Fresh }
        ensures whole { OnOk result (S.written sink.new ≡ gained (S.written sink.old) (head_text self.old.plan)) }
        ensures ready { OnOk result (self.new ≡ record self.old { stage = Stage.Going }) }

        ensures part { OnErr result (GainsPart (S.written sink.old) (S.written sink.new) (head_text self.old.plan)) }
        ensures spent { IfErr result (λ fault. self.new ≡ record self.old { stage = Stage.Spent fault }) }
        ensures failed { result ≡ Err LineBad.Write → Rose (S.faults sink.old) (S.faults sink.new) }
        ensures faults { S.faults sink.old ≤ S.faults sink.new }
    {
        match write_head(self.alloc, sink, self.plan) {
            Ok(()) => {
                self.stage = Stage::Going;
                Ok(())
            }
            Err(fault) => {
                self.stage = Stage::Spent(fault);
                Err(fault)
            }
        }
    }

    /// Takes exactly one event and writes its row and progress lines, or writes the end line where none is left.
    /// A turn that answers a fault spends the run: from then on each turn answers that fault and does nothing.
    pub fn turn<S: Sink>(&mut self, sink: &mut S) -> Result<Turn, LineBad>
        requires { CanTurn self.old.stage }
        ensures went { result ≡ Ok Turn.Went → S.written sink.new ≡ gained (S.written sink.old) (event_lines self.old.plan self.old.db self.old.every (self.old.taken + 1)) }
        ensures took { result ≡ Ok Turn.Went → self.new ≡ record self.old { taken = self.old.taken + 1 } }
        ensures left { result ≡ Ok Turn.Went → self.old.taken < whole_work_in self.old }

        ensures ended { result ≡ Ok Turn.Ended → S.written sink.new ≡ gained (S.written sink.old) (end_text self.old.plan self.old.db) }
        ensures over { result ≡ Ok Turn.Ended → self.new ≡ record self.old { stage = Stage.Ended } }
        ensures none_left { result ≡ Ok Turn.Ended → self.old.taken ≡ whole_work_in self.old }

        ensures spends { IfErr result (λ fault. self.new ≡ record self.old { taken = self.new.taken; stage = Stage.Spent fault }) }
        ensures still { IfErr result (λ fault. self.old.stage ≡ Stage.Spent fault → (self.new ≡ self.old) × (sink.new ≡ sink.old)) }
        ensures same_fault { (fault : LineBad) → self.old.stage ≡ Stage.Spent fault → result ≡ Err fault }
        ensures part { OnErr result (GainsPart (S.written sink.old) (S.written sink.new) (turn_text self.old)) }
        ensures taken { result ≡ Err LineBad.Write → self.old.stage ≡ Stage.Going → self.new.taken ≡ min (self.old.taken + 1) (whole_work_in self.old) }
        ensures at_most_one { (self.old.taken ≤ self.new.taken) × (self.new.taken ≤ min (self.old.taken + 1) (whole_work_in self.old)) }
        ensures failed { result ≡ Err LineBad.Write → self.old.stage ≡ Stage.Going → Rose (S.faults sink.old) (S.faults sink.new) }
        ensures faults { S.faults sink.old ≤ S.faults sink.new }
    {
        runs_fit(&self.exec);
        if let Stage::Spent(fault) = self.stage {
            return Err(fault);
        }
        match take_turn(self.alloc, sink, self.plan, &mut self.exec, &mut self.meter) {
            Ok(Turn::Went) => Ok(Turn::Went),
            Ok(Turn::Ended) => {
                self.stage = Stage::Ended;
                Ok(Turn::Ended)
            }
            Err(fault) => {
                self.stage = Stage::Spent(fault);
                Err(fault)
            }
        }
    }

    /// The events taken so far.
    pub fn events(&self) -> u128
        ensures { result ≡ self.now.taken }
    {
        self.exec.taken()
    }

    /// The rows that the root has handed out so far.
    pub fn rows(&self) -> u128
        ensures { result ≡ counts_at self.now.db (tree_of self.now.plan.nodes) self.now.taken 1 }
    {
        self.exec.gauges()[0].handed
    }

    /// The work done and the bounds of the whole work, in rows, at this moment. It takes no memory.
    pub fn whole(&mut self) -> Whole
        ensures value { result ≡ whole_of (tree_of self.old.plan.nodes) (gauge_in (gauges_at self.old.db (tree_of self.old.plan.nodes) self.old.taken)) }
        ensures same { self.new ≡ self.old }
    {
        self.meter.whole(self.plan, &self.exec)
    }
}

/// Runs a plan over a database to its end, and writes the whole text.
pub fn run_all<S: Sink>(
    alloc: Global,
    plan: &Plan,
    db: &Db,
    every: Option<u64>,
    sink: &mut S,
) -> Result<(), LineBad>
    requires fits { Fits plan.now db.now }
    requires every { IfSome every (λ n. 1 ≤ n) }
    ensures whole { OnOk result (S.written sink.new ≡ gained (S.written sink.old) (run_text plan.now db.now every)) }
    ensures part { OnErr result (GainsPart (S.written sink.old) (S.written sink.new) (run_text plan.now db.now every)) }
    ensures failed { result ≡ Err LineBad.Write → Rose (S.faults sink.old) (S.faults sink.new) }
    ensures faults { S.faults sink.old ≤ S.faults sink.new }
{
    let keys = key_columns(alloc, plan)?;
    let indexes = seek_indexes(alloc, plan, db, &keys)?;
    run_over(alloc, plan, db, &keys, &indexes, every, sink)
}

/// The same, with the columns of the plan's keys and its indexes.
fn run_over<S: Sink>(
    alloc: Global,
    plan: &Plan,
    db: &Db,
    keys: &KeyColumns,
    indexes: &Indexes<'_>,
    every: Option<u64>,
    sink: &mut S,
) -> Result<(), LineBad>
    requires fits { Fits plan.now db.now }
    requires keys { keys.now ≡ map join_columns plan.now.nodes }
    requires indexes { indexes.now ≡ map (index_of db.now) plan.now.nodes }
    requires every { IfSome every (λ n. 1 ≤ n) }
    ensures whole { OnOk result (S.written sink.new ≡ gained (S.written sink.old) (run_text plan.now db.now every)) }
    ensures part { OnErr result (GainsPart (S.written sink.old) (S.written sink.new) (run_text plan.now db.now every)) }
    ensures failed { result ≡ Err LineBad.Write → Rose (S.faults sink.old) (S.faults sink.new) }
    ensures faults { S.faults sink.old ≤ S.faults sink.new }
{
    let mut run = Run::begin(alloc, plan, db, keys, indexes, every)?;
    run.head(sink)?;
    loop {
        match run.turn(sink)? {
            Turn::Went => {}
            Turn::Ended => return Ok(()),
        }
    }
}
