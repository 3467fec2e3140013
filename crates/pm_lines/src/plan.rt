ghost use Rattle.std.specs.Prelude.{◌≡◌, ◌≤◌, Err, OnOk, OnErr};
ghost use Rattle.pm_io.specs.Counts.{Rose};
ghost use Rattle.pm_io.specs.Sink.{gained, GainsPart};
ghost use Rattle.pm_plan.specs.PlanLines.{plan_lines};

use crate::fault::LineBad;
use pm_io::{Sink, write_whole};
use pm_plan::{Plan, node_text};
use std::alloc::Global;

/// Writes the line of each operator, in the plan's order.
pub fn put_plan<S: Sink>(alloc: Global, sink: &mut S, plan: &Plan) -> Result<(), LineBad>
    ensures whole { OnOk result (S.written sink.new ≡ gained (S.written sink.old) (plan_lines 1 plan.now.nodes)) }
    ensures part { OnErr result (GainsPart (S.written sink.old) (S.written sink.new) (plan_lines 1 plan.now.nodes)) }
    ensures failed { result ≡ Err LineBad.Write → Rose (S.faults sink.old) (S.faults sink.new) }
    ensures faults { S.faults sink.old ≤ S.faults sink.new }
{
    for (place, node) in plan.nodes.as_slice().iter().enumerate() {
        let line = node_text(alloc, place + 1, node)?;
        write_whole(sink, line.bytes())?;
    }
    Ok(())
}
