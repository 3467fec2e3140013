ghost use Rattle.std.specs.Prelude.{◌≡◌, ◌≤◌, ◌+◌, ◌^◌, ◌++◌, length, OnOk, OnErr};
ghost use Rattle.pm_io.specs.Counts.{Rose};
ghost use Rattle.pm_io.specs.Sink.{gained, GainsPart};
ghost use Rattle.pm_lines.specs.Progress.{safe_text, progress_line, end_line};

use crate::buffer::Line;
use pm_fraction::{hundredths_down, hundredths_up};
use pm_io::{Sink, WriteFault, write_whole};
use pm_plan::Shown;

/// Writes the progress line of a moment. It takes no memory.
pub fn put_progress<S: Sink>(sink: &mut S, shown: &Shown) -> Result<(), WriteFault>
    requires begun { 1 ≤ shown.now.work }
    requires above { shown.now.work ≤ shown.now.lo }
    requires order { shown.now.lo ≤ shown.now.hi }
    requires limit { shown.now.hi ≤ 10 ^ 34 }
    ensures whole { OnOk result (S.written sink.new ≡ gained (S.written sink.old) (progress_line shown.now)) }
    ensures part { OnErr result (GainsPart (S.written sink.old) (S.written sink.new) (progress_line shown.now)) }
    ensures failed { OnErr result (Rose (S.faults sink.old) (S.faults sink.new)) }
    ensures faults { S.faults sink.old ≤ S.faults sink.new }
{
    write_whole(sink, text_of_progress(shown).bytes())
}

fn text_of_progress(shown: &Shown) -> Line
    requires begun { 1 ≤ shown.now.work }
    requires above { shown.now.work ≤ shown.now.lo }
    requires order { shown.now.lo ≤ shown.now.hi }
    requires limit { shown.now.hi ≤ 10 ^ 34 }
    ensures { result ≡ progress_line shown.now }
{
    let mut line = Line::new();
    line.push("P work=");
    line.number(shown.work);
    line.push(" lo=");
    line.number(shown.lo);
    line.push(" hi=");
    line.number(shown.hi);
    line.push(" dne=");
    line.number(shown.dne_num);
    line.push("/");
    line.number(shown.dne_den);
    line.push(" safe=");
    push_safe(&mut line, shown);
    line.push(" pmax=");
    line.number(shown.work);
    line.push("/");
    line.number(shown.lo);
    line.push(" pct=");
    line.percent(hundredths_down(shown.work, shown.hi));
    line.push("..");
    line.percent(hundredths_up(shown.work, shown.lo));
    line.push("\n");
    line
}

fn push_safe(line: &mut Line, shown: &Shown)
    requires { length line.old + 81 ≤ 1024 }
    ensures text { line.new ≡ line.old ++ safe_text shown.now.work shown.now.safe_den }
    ensures len { length line.new ≤ length line.old + 81 }
{
    match shown.safe_den {
        Some(root) => {
            line.number(shown.work);
            line.push("/");
            line.number(root);
        }
        None => line.push("-"),
    }
}

/// Writes the end line: the rows of the result and the whole work, in rows. It takes no memory.
pub fn put_end<S: Sink>(sink: &mut S, rows: u128, work: u128) -> Result<(), WriteFault>
    ensures whole { OnOk result (S.written sink.new ≡ gained (S.written sink.old) (end_line rows work)) }
    ensures part { OnErr result (GainsPart (S.written sink.old) (S.written sink.new) (end_line rows work)) }
    ensures failed { OnErr result (Rose (S.faults sink.old) (S.faults sink.new)) }
    ensures faults { S.faults sink.old ≤ S.faults sink.new }
{
    write_whole(sink, text_of_end(rows, work).bytes())
}

fn text_of_end(rows: u128, work: u128) -> Line
    ensures { result ≡ end_line rows work }
{
    let mut line = Line::new();
    line.push("E rows=");
    line.number(rows);
    line.push(" work=");
    line.number(work);
    line.push("\n");
    line
}
