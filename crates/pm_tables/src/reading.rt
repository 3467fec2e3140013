//! The records of a CSV file under its header.
ghost use Rattle.std.specs.Prelude.{◌≡◌, ◌≤◌, ◌<◌, ◌⊎◌, IsUtf8, ◌++◌, ◌∷◌, ℕ, List, [], IfErr, IfOk, IsTrue, Some, ◌↔◌, slice_get, MatchOption, OnOk, length, true};
ghost use Rattle.csv.specs.Reading.{default_config, error_kind, records, strip_bom};
ghost use Rattle.csv.specs.Records.{fields_of};
ghost use Rattle.pm_tables.specs.HasRead.{Continues, EndsTooLate, HasMore, HasRead, IsReadFailure, ReadsText};
ghost use Rattle.pm_tables.specs.Reading.{DiffersAt, FaultsFile, IsList, names_of};
ghost use Rattle.pm_tables.specs.declared.fault.DataBad.TheVariants.{Memory, TooManyRows};

use crate::fault::DataBad;
use crate::record_list::Records;
use csv::{ErrorKind, Reader, ReaderBuilder, StringRecord};
use pm_values::{ColumnDecl, TableDecl};
use std::alloc::{AllocError, Global};

/// The records of a CSV file after its header, which is the list of the column names.
///
/// The bytes are read as the `csv` crate reads them with its default delimiter and quoting, and with records of any
/// lengths; one UTF-8 byte order mark at their front is no part of them. Refused are, in this order, bytes that are
/// not UTF-8 ([`DataBad::NotText`]), no record at all ([`DataBad::NoHeader`]), a first record that is not the list of
/// the column names ([`DataBad::Header`]), and more than `most` records behind it ([`DataBad::TooManyRows`]).
pub fn records(alloc: Global, decl: &TableDecl, bytes: &[u8], most: u32) -> Result<Records, DataBad>
    ensures listed { IfOk result (IsList decl.now.columns bytes.now most) }
    ensures refused { IfErr result (FaultsFile decl.now.columns bytes.now most) }
{
    let mut reader = open(alloc, bytes);
    let mut record = StringRecord::new(alloc);
    read_header(&mut reader, &mut record, decl.columns().as_slice(), bytes)?;
    collect_records(alloc, &mut reader, &mut record, most)
}

/// Reads the header of these bytes into `current`: it is the list of the column names, or the first fault is refused.
pub(crate) fn read_header(
    reader: &mut Reader<&[u8]>,
    current: &mut StringRecord,
    columns: &[ColumnDecl],
    bytes: &[u8],
) -> Result<(), DataBad>
    requires narrow { length columns.now ≤ 64 }
    requires start { HasRead (strip_bom bytes.now) [] reader.old }
    ensures text { OnOk result (IsUtf8 bytes.now) }
    ensures goes_on { OnOk result (ReadsText reader.new) }
    ensures read { OnOk result (HasRead (strip_bom bytes.now) (names_of columns.now ∷ []) reader.new) }
    ensures refused { (most : ℕ) → IfErr result (FaultsFile columns.now bytes.now most) }
{
    if let Err(error) = str::from_utf8(bytes) {
        return Err(DataBad::NotText(error.valid_up_to() as u64));
    }
    if !next(reader, current)? {
        return Err(DataBad::NoHeader);
    }
    match first_difference(current, columns) {
        Some(position) => Err(DataBad::Header(position + 1)),
        None => Ok(()),
    }
}

/// The position, from 0, of the first column whose name is not the field there, or at which only one of both has ended.
fn first_difference(header: &StringRecord, columns: &[ColumnDecl]) -> Option<u32>
    requires { length columns.now ≤ 64 }
    ensures { MatchOption result (fields_of header.now ≡ names_of columns.now)
        (λ position. (position ≤ 64) × DiffersAt (fields_of header.now) (names_of columns.now) position) }
{
    for (position, column) in columns.iter().enumerate() {
        if !has_field(header, position, column.name.as_str()) {
            return Some(position as u32);
        }
    }
    if header.len() == columns.len() {
        None
    } else {
        Some(columns.len() as u32)
    }
}

fn has_field(header: &StringRecord, position: usize, text: &str) -> bool
    ensures { IsTrue result ↔ (slice_get (fields_of header.now) position ≡ Some text.now) }
{
    match header.get(position) {
        Some(field) => field == text,
        None => false,
    }
}

/// All further records, which are put into `current` one by one, or the refusal where these are more than `most`.
fn collect_records(
    alloc: Global,
    reader: &mut Reader<&[u8]>,
    current: &mut StringRecord,
    most: u32,
) -> Result<Records, DataBad>
    requires { ReadsText reader.old }
    ensures listed { (text : List ℕ) (header : List (List ℕ)) → HasRead text (header ∷ []) reader.old
        → IfOk result (λ list. (records default_config text ≡ header ∷ list) × (length list ≤ most)) }
    ensures refused { (text : List ℕ) (header : List (List ℕ)) → HasRead text (header ∷ []) reader.old → IfErr result (EndsTooLate text header most) }
{
    let mut fields = StringRecord::new(alloc);
    let mut ends = Vec::new(alloc);
    for _ in 0..most {
        if !next(reader, current)? {
            return Ok(Records::new(fields, ends));
        }
        push_fields(&mut fields, current)?;
        ends.push(fields.len())?;
    }
    if next(reader, current)? {
        return Err(DataBad::TooManyRows);
    }
    Ok(Records::new(fields, ends))
}

fn push_fields(fields: &mut StringRecord, added: &StringRecord) -> Result<(), AllocError>
    ensures { OnOk result (fields_of fields.new ≡ fields_of fields.old ++ fields_of added.now) }
{
    for position in 0..added.len() {
        if let Some(field) = added.get(position) {
            fields.push_field(field)?;
        }
    }
    Ok(())
}

/// Reads all further records into `current`, one by one, and refuses more than `most` of them.
pub(crate) fn check_record_limit(
    reader: &mut Reader<&[u8]>,
    current: &mut StringRecord,
    most: u32,
) -> Result<(), DataBad>
    requires { ReadsText reader.old }
    ensures ended { (text : List ℕ) (rows : List (List (List ℕ))) → HasRead text rows reader.old → OnOk result (HasMore text rows (λ count. count ≤ most)) }
    ensures refused { (text : List ℕ) (rows : List (List (List ℕ))) → HasRead text rows reader.old
        → IfErr result (λ e. (e ≡ Memory) ⊎ ((e ≡ TooManyRows) × HasMore text rows (λ count. most < count))) }
{
    for _ in 0..most {
        if !next(reader, current)? {
            return Ok(());
        }
    }
    if next(reader, current)? {
        return Err(DataBad::TooManyRows);
    }
    Ok(())
}

/// A reader of all records of these bytes, without one byte order mark at their front.
pub(crate) fn open(alloc: Global, bytes: &[u8]) -> Reader<&[u8]>
    ensures { HasRead (strip_bom bytes.now) [] result }
{
    ReaderBuilder::new()
        .has_headers(false)
        .flexible(true)
        .from_reader(alloc, bytes)
}

/// Whether there is a next record, which is put into `current`.
pub(crate) fn next(reader: &mut Reader<&[u8]>, current: &mut StringRecord) -> Result<bool, DataBad>
    requires { ReadsText reader.old }
    ensures found { (text : List ℕ) (rows : List (List (List ℕ))) → HasRead text rows reader.old → IfOk result (λ found. Continues text rows reader.new found (fields_of current.new)) }
    ensures text { IfOk result (λ found. found ≡ true → ReadsText reader.new) }
    ensures refused { IfErr result (λ e. e ≡ Memory) }
{
    match reader.read_record(current) {
        Ok(found) => Ok(found),
        Err(error) => Err(failed(error)),
    }
}

/// The answer to a failed read of records of text, which may have any lengths. Bytes in memory can always be had.
fn failed(error: csv::Error) -> DataBad
    requires { IsReadFailure (error_kind error) }
    ensures { result ≡ Memory }
{
    match error.into_kind() {
        ErrorKind::Io(_) | ErrorKind::OutOfMemory => DataBad::Memory,
        _ => unreachable!(),
    }
}
