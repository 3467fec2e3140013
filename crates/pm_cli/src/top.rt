//! The top call: from the command's words to the status with which the program ends.
ghost use Rattle.std.specs.Prelude.{◌≡◌, ◌≤◌, ◌⊎◌, ℕ, List, None, true, Result, IfSome};
ghost use Rattle.pm_io.specs.declared.stand.Stand.TheVariants as stand;
ghost use Rattle.pm_io.specs.Counts.{Rose};
ghost use Rattle.pm_io.specs.Sink.{gained, GainsPart};
ghost use Rattle.pm_commands.specs.declared.preparing.Prepared.{Prepared as Planned};
ghost use Rattle.pm_commands.specs.declared.stop.Stop.{Stop as Stopped};
ghost use Rattle.pm_commands.specs.Commands.{command_in, told, OnOwn, OnDemo};
ghost use Rattle.pm_commands.specs.Calls.{Calls, ReachesBy};
ghost use Rattle.pm_commands.specs.Certified.{IsReady};
ghost use Rattle.pm_commands.specs.Text.{text_of};
ghost use Rattle.pm_cli.specs.Status.{called_status, status_of};
ghost use Rattle.pm_cli.specs.Lines.{line_of};
ghost use Rattle.pm_cli.specs.Endings.{Answers, HasFault, IfRole, IsDone, IsReason, IsRefused, IsUnfinished, OnAbsent, OnBroken, called_text};

use crate::lines::put_line;
use crate::status::Status;
use pm_commands::{Prepared, Stop, prepare, write};
use pm_io::{Files, Sink};
use pm_lines::LineBad;
use pm_requests::Refusal;
use pm_values::{Gate, Txt};
use std::alloc::Global;
use std::marker::Sync;
use std::thread::Threads;

/// Runs the command of these words, over these files, into this sink.
///
/// With `Done` its whole text was written: of `run` and `demo` the plan and header lines, for each event its row line and its
/// progress line, and the end line; of `explain` what is known of the plan before it runs. A refusal writes its one line, and
/// nothing else. A demo's files are its own, and the call's are not touched.
pub fn monitor_main<R: Threads + Sync, F: Files, S: Sink, G: Gate>(
    rt: &R,
    alloc: Global,
    words: &[Txt],
    files: &mut F,
    out: &mut S,
    gate: &G,
) -> Status
    // With Done the text of a plan was written, whose numbers are certified and whose rows are those that the query asks for. Where the
    // files' bytes are told, it is the one that is called for.
    ensures done { result ≡ Status.Done → (p : Planned) × IsDone words.now (told (command_in words.now) (F.held files.old)) p
        × (S.written out.new ≡ gained (S.written out.old) (text_of p)) }
    ensures finished { result ≡ Status.Done → IfSome (S.finished out.new) (λ finished. finished ≡ true) }

    // Where a write failed or memory was wanted, a first part of the text that is called for was written, or nothing.
    ensures part { IsUnfinished result → IfSome (told (command_in words.now) (F.held files.old)) (λ held. (called : Result Planned Stopped)
        → Calls words.now held called → GainsPart (S.written out.old) (S.written out.new) (called_text called)) }

    // A refusal's line is all that it writes, and the output is finished, unless writing failed.
    ensures refused { IsRefused result → (why : Stopped)
        × IsReason words.now (told (command_in words.now) (F.held files.old)) (F.last files.new) result why
        × (¬ (Rose (S.faults out.old) (S.faults out.new)) → S.written out.new ≡ gained (S.written out.old) (line_of why))
        × GainsPart (S.written out.old) (S.written out.new) (line_of why) }
    ensures refusal_finished { IsRefused result → ¬ (Rose (S.faults out.old) (S.faults out.new))
        → IfSome (S.finished out.new) (λ finished. finished ≡ true) }

    // Where the files' bytes are told, the answer is what words and files call for, unless a write failed, a file could not be read or
    // memory was wanted.
    ensures answers { IfSome (told (command_in words.now) (F.held files.old)) (λ held. (called : Result Planned Stopped)
        → Calls words.now held called → Answers called result) }
    ensures complete { IfSome (told (command_in words.now) (F.held files.old)) (λ held. (called : Result Planned Stopped)
        → Calls words.now held called → ¬ (Rose (F.faults files.old) (F.faults files.new)) → ¬ (Rose (S.faults out.old) (S.faults out.new))
        → (result ≡ called_status called) ⊎ (result ≡ Status.NoMemory)) }
    ensures usage { command_in words.now ≡ None → (result ≡ Status.Usage) ⊎ (result ≡ Status.NoMemory) }
    ensures only_usage { result ≡ Status.Usage → command_in words.now ≡ None }
    ensures at_fault { HasFault result }

    // A file that is absent or could not be read is the one whose turn it was, and a count rose.
    ensures reached { IfRole (λ role. (name : List ℕ) × ReachesBy (command_in words.now) (told (command_in words.now) (F.held files.old)) role name) result }
    ensures absent { OnOwn (command_in words.now) (OnAbsent (Rose (F.absences files.old) (F.absences files.new)) result) }
    ensures absent_stands { OnOwn (command_in words.now) (OnAbsent (F.stand files.new ≡ stand.Absent) result) }
    ensures broken { OnOwn (command_in words.now) (OnBroken (Rose (F.faults files.old) (F.faults files.new)) result) }
    ensures broken_stands { OnOwn (command_in words.now) (OnBroken (F.stand files.new ≡ stand.Broken) result) }
    ensures read { OnDemo (command_in words.now) (OnBroken ⊥ result) }
    ensures untouched { OnDemo (command_in words.now) (files.new ≡ files.old) }
    ensures unwritten { result ≡ Status.WriteFault → Rose (S.faults out.old) (S.faults out.new) }

    ensures held { F.held files.new ≡ F.held files.old }
    ensures faults { F.faults files.old ≤ F.faults files.new }
    ensures absences { F.absences files.old ≤ F.absences files.new }
    ensures sink_faults { S.faults out.old ≤ S.faults out.new }
{
    match prepare(rt, alloc, words, files, gate) {
        Ok(prepared) => run(alloc, &prepared, out),
        Err(stop) => refuse(out, &stop),
    }
}

/// Writes the text of what is prepared, and finishes the output.
fn run<S: Sink>(alloc: Global, prepared: &Prepared, out: &mut S) -> Status
    requires { IsReady prepared.now }
    ensures kind { (result ≡ Status.Done) ⊎ ((result ≡ Status.WriteFault) ⊎ (result ≡ Status.NoMemory)) }
    ensures text { result ≡ Status.Done → S.written out.new ≡ gained (S.written out.old) (text_of prepared.now) }
    ensures finished { result ≡ Status.Done → IfSome (S.finished out.new) (λ finished. finished ≡ true) }
    ensures part { GainsPart (S.written out.old) (S.written out.new) (text_of prepared.now) }
    ensures unwritten { result ≡ Status.WriteFault → Rose (S.faults out.old) (S.faults out.new) }
    ensures sink_faults { S.faults out.old ≤ S.faults out.new }
{
    match write(alloc, prepared, out) {
        Ok(()) => match out.finish() {
            Ok(()) => Status::Done,
            Err(_) => Status::WriteFault,
        },
        Err(LineBad::Write) => Status::WriteFault,
        Err(LineBad::Memory) => {
            // What was written so far is handed on.
            out.finish().ok();
            Status::NoMemory
        }
    }
}

/// Writes the line of a refusal, and finishes the output. The status stands even where the line or the end of the output fails.
fn refuse<S: Sink>(out: &mut S, stop: &Stop) -> Status
    ensures status { result ≡ status_of stop.now }
    ensures line { ¬ (Rose (S.faults out.old) (S.faults out.new)) → S.written out.new ≡ gained (S.written out.old) (line_of stop.now) }
    ensures part { GainsPart (S.written out.old) (S.written out.new) (line_of stop.now) }
    ensures finished { IsRefused result → ¬ (Rose (S.faults out.old) (S.faults out.new)) → IfSome (S.finished out.new) (λ finished. finished ≡ true) }
    ensures faults { S.faults out.old ≤ S.faults out.new }
{
    let status = Status::of(stop);
    if let Stop::Request(Refusal::NoMemory) = stop {
        return status;
    }
    let _ = put_line(out, stop);
    let _ = out.finish();
    status
}
