//! The text of what was prepared.
ghost use Rattle.std.specs.Prelude.{◌≡◌, ◌≤◌, Err, OnOk, OnErr};
ghost use Rattle.pm_io.specs.Counts.{Rose};
ghost use Rattle.pm_io.specs.Sink.{gained, GainsPart};
ghost use Rattle.pm_commands.specs.Certified.{IsReady};
ghost use Rattle.pm_commands.specs.Text.{text_of};

use crate::command::Output;
use crate::preparing::Prepared;
use pm_io::Sink;
use pm_lines::LineBad;
use pm_run::{explain_all, run_all};
use std::alloc::Global;

/// Writes the text of what was prepared: that of the plan's run, or what is known of it before it runs.
pub fn write<S: Sink>(alloc: Global, prepared: &Prepared, out: &mut S) -> Result<(), LineBad>
    requires { IsReady prepared.now }
    ensures whole { OnOk result (S.written out.new ≡ gained (S.written out.old) (text_of prepared.now)) }
    ensures part { OnErr result (GainsPart (S.written out.old) (S.written out.new) (text_of prepared.now)) }
    ensures failed { result ≡ Err LineBad.Write → Rose (S.faults out.old) (S.faults out.new) }
    ensures faults { S.faults out.old ≤ S.faults out.new }
{
    match prepared.output {
        Output::Run(every) => run_all(alloc, &prepared.plan, &prepared.request.db, every, out),
        Output::Explain => explain_all(alloc, &prepared.plan, &prepared.request.db, out),
    }
}
