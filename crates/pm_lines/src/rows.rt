ghost use Rattle.std.specs.Prelude.{◌≡◌, ◌≤◌, ◌∷◌, ◌++◌, Err, IsTrue, IfOk, OnOk, OnErr};
ghost use Rattle.csv.specs.Writing.{default_writer, needs_quotes, row_text};
ghost use Rattle.pm_io.specs.Counts.{Rose};
ghost use Rattle.pm_io.specs.Sink.{gained, GainsPart};
ghost use Rattle.pm_lines.specs.Rows.{head_line, row_line};
ghost use Rattle.pm_lines.specs.Plain.{IsPlain};

use crate::fault::LineBad;
use csv::WriterBuilder;
use pm_io::{Sink, write_whole};
use pm_values::Txt;
use std::alloc::{AllocError, Global};

/// The bytes for which a line of a record has room from its start on. A longer one moves as it grows.
const USUAL: usize = 256;

/// Writes the header line of these column names.
pub fn put_head<S: Sink>(alloc: Global, sink: &mut S, names: &[Txt]) -> Result<(), LineBad>
    ensures whole { OnOk result (S.written sink.new ≡ gained (S.written sink.old) (head_line names.now)) }
    ensures part { OnErr result (GainsPart (S.written sink.old) (S.written sink.new) (head_line names.now)) }
    ensures failed { result ≡ Err LineBad.Write → Rose (S.faults sink.old) (S.faults sink.new) }
    ensures faults { S.faults sink.old ≤ S.faults sink.new }
{
    let line = with_record(alloc, b"H ", names)?;
    write_whole(sink, line.as_slice())?;
    Ok(())
}

/// Writes the row line of these fields.
pub fn put_row<S: Sink>(alloc: Global, sink: &mut S, fields: &[Txt]) -> Result<(), LineBad>
    ensures whole { OnOk result (S.written sink.new ≡ gained (S.written sink.old) (row_line fields.now)) }
    ensures part { OnErr result (GainsPart (S.written sink.old) (S.written sink.new) (row_line fields.now)) }
    ensures failed { result ≡ Err LineBad.Write → Rose (S.faults sink.old) (S.faults sink.new) }
    ensures faults { S.faults sink.old ≤ S.faults sink.new }
{
    let line = with_record(alloc, b"R ", fields)?;
    write_whole(sink, line.as_slice())?;
    Ok(())
}

/// These bytes, and the fields as a CSV record after them.
fn with_record(alloc: Global, before: &[u8], fields: &[Txt]) -> Result<Vec<u8>, AllocError>
    ensures { IfOk result (λ line. line.items ≡ before.now ++ row_text default_writer fields.now) }
{
    let mut line = Vec::with_capacity(alloc, USUAL)?;
    line.extend_from_slice(before)?;
    match fields.split_first() {
        Some((first, rest)) if is_plain(first, rest) => with_plain(line, first, rest),
        _ => with_quoted(line, alloc, fields),
    }
}

/// Whether a record shows something and no field of it needs quotes. Most records are so, and making a writer of csv takes
/// longer than writing one of them.
fn is_plain(first: &Txt, rest: &[Txt]) -> bool
    ensures { IsTrue result → IsPlain first.now rest.now }
{
    !first.bytes().is_empty()
        && !needs_quotes(first)
        && !rest.iter().any(|field| needs_quotes(field))
}

fn needs_quotes(field: &Txt) -> bool
    ensures { result ≡ needs_quotes default_writer field.now }
{
    field
        .bytes()
        .iter()
        .any(|byte| matches!(*byte, b',' | b'"' | b'\n' | b'\r'))
}

/// These bytes, and the fields with commas between them.
fn with_plain(before: Vec<u8>, first: &Txt, rest: &[Txt]) -> Result<Vec<u8>, AllocError>
    requires { IsPlain first.now rest.now }
    ensures { IfOk result (λ line. line.items ≡ before.items ++ row_text default_writer (first.now ∷ rest.now)) }
{
    let mut line = before;
    line.extend_from_slice(first.bytes())?;
    for field in rest {
        line.push(b',')?;
        line.extend_from_slice(field.bytes())?;
    }
    line.push(b'\n')?;
    Ok(line)
}

/// These bytes, and the fields as the writer of csv writes them.
fn with_quoted(before: Vec<u8>, alloc: Global, fields: &[Txt]) -> Result<Vec<u8>, AllocError>
    ensures { IfOk result (λ line. line.items ≡ before.items ++ row_text default_writer fields.now) }
{
    let mut cells = Vec::with_capacity(alloc, fields.len())?;
    for field in fields {
        cells.push(field.bytes())?;
    }
    let mut writer = WriterBuilder::new().from_writer(before);
    writer
        .write_fields(cells.as_slice())
        .map_err(|_| AllocError)?;
    match writer.into_inner() {
        Ok(line) => Ok(line),
        Err(_) => Err(AllocError),
    }
}
