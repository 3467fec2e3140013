//! The lines of refused commands.
ghost use Rattle.std.specs.Prelude.{◌≡◌, ◌≤◌, None, OnOk, OnErr};
ghost use Rattle.pm_io.specs.Counts.{Rose};
ghost use Rattle.pm_io.specs.Sink.{gained, GainsPart};
ghost use Rattle.pm_lines.specs.declared.refusal.Values.TheVariants.{One};
ghost use Rattle.pm_lines.specs.Refusals.{refusal_line};
ghost use Rattle.pm_cli.specs.Lines.{data_line, line_of, refused_line};

use pm_commands::Stop;
use pm_io::{Sink, WriteFault};
use pm_lines::{Values, put_refusal};
use pm_refusals::Word;
use pm_requests::{Fault, Refusal};
use pm_tables::DataBad;
use pm_values::Txt;

/// Writes the line of a refused command. Want of memory has none.
pub fn put_line<S: Sink>(out: &mut S, stop: &Stop) -> Result<(), WriteFault>
    ensures line { OnOk result (S.written out.new ≡ gained (S.written out.old) (line_of stop.now)) }
    ensures part { OnErr result (GainsPart (S.written out.old) (S.written out.new) (line_of stop.now)) }
    ensures failed { OnErr result (Rose (S.faults out.old) (S.faults out.new)) }
    ensures faults { S.faults out.old ≤ S.faults out.new }
{
    match stop {
        Stop::Usage => put_refusal(out, 1, Word::Usage, None, Values::Zero),
        Stop::Request(refusal) => put_refused(out, refusal),
        Stop::TooWide(bound) => put_refusal(out, 9, Word::TooWide, None, Values::One(*bound)),
    }
}

fn put_refused<S: Sink>(out: &mut S, refusal: &Refusal) -> Result<(), WriteFault>
    ensures line { OnOk result (S.written out.new ≡ gained (S.written out.old) (refused_line refusal.now)) }
    ensures part { OnErr result (GainsPart (S.written out.old) (S.written out.new) (refused_line refusal.now)) }
    ensures failed { OnErr result (Rose (S.faults out.old) (S.faults out.new)) }
    ensures faults { S.faults out.old ≤ S.faults out.new }
{
    match refusal {
        Refusal::NoFile { name, .. } => put_refusal(out, 6, Word::NoFile, Some(name), Values::Zero),
        Refusal::ReadFault { name, .. } => {
            put_refusal(out, 7, Word::Read, Some(name), Values::Zero)
        }
        Refusal::Schema(fault) => put_text(out, 2, fault),
        Refusal::Query(fault) => put_text(out, 3, fault),
        Refusal::Binding(fault) => put_text(out, 4, fault),
        Refusal::Table { name, fault, .. } => put_data(out, name, *fault),
        Refusal::NoMemory => Ok(()),
    }
}

/// Writes the line of a refused text: why, and at which byte.
fn put_text<S: Sink>(out: &mut S, code: u8, fault: &Fault) -> Result<(), WriteFault>
    ensures line { OnOk result (S.written out.new ≡ gained (S.written out.old) (refusal_line code fault.now.word None (One fault.now.at))) }
    ensures part { OnErr result (GainsPart (S.written out.old) (S.written out.new) (refusal_line code fault.now.word None (One fault.now.at))) }
    ensures failed { OnErr result (Rose (S.faults out.old) (S.faults out.new)) }
    ensures faults { S.faults out.old ≤ S.faults out.new }
{
    put_refusal(
        out,
        code,
        fault.word,
        None,
        Values::One(u128::from(fault.at)),
    )
}

/// Writes the line of a table's refused file.
fn put_data<S: Sink>(out: &mut S, name: &Txt, fault: DataBad) -> Result<(), WriteFault>
    ensures line { OnOk result (S.written out.new ≡ gained (S.written out.old) (data_line name.now fault)) }
    ensures part { OnErr result (GainsPart (S.written out.old) (S.written out.new) (data_line name.now fault)) }
    ensures failed { OnErr result (Rose (S.faults out.old) (S.faults out.new)) }
    ensures faults { S.faults out.old ≤ S.faults out.new }
{
    let (word, values) = match fault {
        DataBad::TooLong => (Word::TooLong, Values::Zero),
        DataBad::NotText(len) => (Word::NotText, Values::One(u128::from(len))),
        DataBad::NoHeader => (Word::NoHeader, Values::Zero),
        DataBad::Header(column) => (Word::Header, Values::One(u128::from(column))),
        DataBad::TooManyRows => (Word::TooManyRows, Values::Zero),
        DataBad::Width(at) => (Word::Width, Values::One(u128::from(at))),
        DataBad::Field(at, column) => {
            (Word::Field, Values::Two(u128::from(at), u128::from(column)))
        }
        DataBad::DoubleKey(first, second) => (
            Word::DoubleKey,
            Values::Two(u128::from(first), u128::from(second)),
        ),
        DataBad::OutOfOrder(at) => (Word::OutOfOrder, Values::One(u128::from(at))),
        DataBad::NoTarget(at, number) => {
            (
                Word::NoTarget,
                Values::Two(u128::from(at), u128::from(number)),
            )
        }
        DataBad::Memory => return Ok(()),
    };
    put_refusal(out, 5, word, Some(name), values)
}
