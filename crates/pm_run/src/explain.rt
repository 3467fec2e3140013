//! What is known of a plan before it runs.
ghost use Rattle.std.specs.Prelude.{◌≡◌, ◌≤◌, length, Err, IfOk, OnOk, OnErr};
ghost use Rattle.std.specs.List.{zip};
ghost use Rattle.pm_io.specs.Counts.{Rose};
ghost use Rattle.pm_io.specs.Sink.{gained, GainsPart};
ghost use Rattle.pm_plan.specs.Preorder.{tree_of};
ghost use Rattle.pm_work.specs.Fits.{Fits};
ghost use Rattle.pm_work.specs.Moments.{gauge_in, gauges_at};
ghost use Rattle.pm_bounds.specs.Bounds.{bounds_of};
ghost use Rattle.pm_bounds.specs.Moment.{AreGauges};
ghost use Rattle.pm_run.specs.ExplainText.{bound_lines, explain_text};

use pm_bounds::{bounds_all, whole};
use pm_estim::{Pipe, Pipes};
use pm_exec::first_gauges;
use pm_flows::{key_columns, seek_indexes};
use pm_io::{Sink, WriteFault};
use pm_lines::{LineBad, put_bound, put_first, put_plan};
use pm_plan::{Bound, Gauge, Plan};
use pm_values::Db;
use pm_work::tables_are_declared;
use std::alloc::{AllocError, Global};

/// Writes what is known of a plan before it runs: its lines, the bounds of each operator in rows with the operator's pipeline,
/// and the bounds of the whole work. It takes no event.
pub fn explain_all<S: Sink>(
    alloc: Global,
    plan: &Plan,
    db: &Db,
    sink: &mut S,
) -> Result<(), LineBad>
    requires { Fits plan.now db.now }
    ensures whole { OnOk result (S.written sink.new ≡ gained (S.written sink.old) (explain_text plan.now db.now)) }
    ensures part { OnErr result (GainsPart (S.written sink.old) (S.written sink.new) (explain_text plan.now db.now)) }
    ensures failed { result ≡ Err LineBad.Write → Rose (S.faults sink.old) (S.faults sink.new) }
    ensures faults { S.faults sink.old ≤ S.faults sink.new }
{
    tables_are_declared(db);
    let gauges = gauges_before(alloc, plan, db)?;
    let bounds = bounds_of(alloc, plan, gauges.as_slice())?;
    let pipes = Pipes::of(alloc, plan)?;
    let work = whole(plan, gauges.as_slice(), bounds.as_slice());
    put_plan(alloc, sink, plan)?;
    put_bounds(sink, bounds.as_slice(), pipes.as_slice())?;
    put_first(sink, &work)?;
    Ok(())
}

/// The gauges of a plan's nodes before the first event, in the plan's order.
fn gauges_before(alloc: Global, plan: &Plan, db: &Db) -> Result<Vec<Gauge>, AllocError>
    requires { Fits plan.now db.now }
    ensures { IfOk result (λ gauges. gauges.items ≡ gauges_at db.now (tree_of plan.now.nodes) 0) }
{
    let keys = key_columns(alloc, plan)?;
    let indexes = seek_indexes(alloc, plan, db, &keys)?;
    first_gauges(alloc, plan, db, &indexes)
}

/// The bounds of a plan's operators at the moment of these gauges, in the plan's order.
fn bounds_of(alloc: Global, plan: &Plan, gauges: &[Gauge]) -> Result<Vec<Bound>, AllocError>
    requires { AreGauges plan.now gauges.now }
    ensures { IfOk result (λ bounds. bounds.items ≡ bounds_of (tree_of plan.now.nodes) 1 (gauge_in gauges.now)) }
{
    let mut bounds = Vec::from_elem(alloc, Bound { lo: 0, hi: 0 }, plan.nodes.len())?;
    bounds_all(plan, gauges, bounds.as_mut_slice());
    Ok(bounds)
}

/// Writes the line of each operator, in the plan's order.
fn put_bounds<S: Sink>(sink: &mut S, bounds: &[Bound], pipes: &[Pipe]) -> Result<(), WriteFault>
    requires { length pipes.now ≡ length bounds.now }
    ensures whole { OnOk result (S.written sink.new ≡ gained (S.written sink.old) (bound_lines 1 (zip bounds.now pipes.now))) }
    ensures part { OnErr result (GainsPart (S.written sink.old) (S.written sink.new) (bound_lines 1 (zip bounds.now pipes.now))) }
    ensures failed { OnErr result (Rose (S.faults sink.old) (S.faults sink.new)) }
    ensures faults { S.faults sink.old ≤ S.faults sink.new }
{
    for (place, bound) in bounds.iter().enumerate() {
        let pipe = &pipes[place];
        put_bound(sink, place + 1, bound, pipe.number, pipe.driver)?;
    }
    Ok(())
}
