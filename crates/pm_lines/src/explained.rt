//! The lines of what is known of a plan before it runs.
ghost use Rattle.std.specs.Prelude.{◌≡◌, ◌≤◌, OnOk, OnErr};
ghost use Rattle.pm_io.specs.Counts.{Rose};
ghost use Rattle.pm_io.specs.Sink.{gained, GainsPart};
ghost use Rattle.pm_lines.specs.Explained.{bound_line, first_line};

use crate::buffer::Line;
use pm_io::{Sink, WriteFault, write_whole};
use pm_plan::{Bound, Whole};

/// Writes the line of an operator, counted from 1: its bounds in rows, its pipeline, and whether it feeds it. It takes no
/// memory.
pub fn put_bound<S: Sink>(
    sink: &mut S,
    node: usize,
    bound: &Bound,
    pipe: u32,
    driver: bool,
) -> Result<(), WriteFault>
    ensures whole { OnOk result (S.written sink.new ≡ gained (S.written sink.old) (bound_line node bound.now pipe driver)) }
    ensures part { OnErr result (GainsPart (S.written sink.old) (S.written sink.new) (bound_line node bound.now pipe driver)) }
    ensures failed { OnErr result (Rose (S.faults sink.old) (S.faults sink.new)) }
    ensures faults { S.faults sink.old ≤ S.faults sink.new }
{
    write_whole(sink, text_of_bound(node, bound, pipe, driver).bytes())
}

fn text_of_bound(node: usize, bound: &Bound, pipe: u32, driver: bool) -> Line
    ensures { result ≡ bound_line node bound.now pipe driver }
{
    let mut line = Line::new();
    line.push("B ");
    line.number(node as u128);
    line.push(" lo=");
    line.number(bound.lo);
    line.push(" hi=");
    line.number(bound.hi);
    line.push(" pipe=");
    line.number(u128::from(pipe));
    line.push(" driver=");
    line.push(if driver { "yes" } else { "no" });
    line.push("\n");
    line
}

/// Writes the line of the bounds of the whole work before the first event, in rows. It takes no memory.
pub fn put_first<S: Sink>(sink: &mut S, whole: &Whole) -> Result<(), WriteFault>
    ensures whole { OnOk result (S.written sink.new ≡ gained (S.written sink.old) (first_line whole.now)) }
    ensures part { OnErr result (GainsPart (S.written sink.old) (S.written sink.new) (first_line whole.now)) }
    ensures failed { OnErr result (Rose (S.faults sink.old) (S.faults sink.new)) }
    ensures faults { S.faults sink.old ≤ S.faults sink.new }
{
    write_whole(sink, text_of_first(whole).bytes())
}

fn text_of_first(whole: &Whole) -> Line
    ensures { result ≡ first_line whole.now }
{
    let mut line = Line::new();
    line.push("F lo=");
    line.number(whole.lo);
    line.push(" hi=");
    line.number(whole.hi);
    line.push("\n");
    line
}
