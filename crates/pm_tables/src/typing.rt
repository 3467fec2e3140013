//! The rows that records write.
ghost use Rattle.std.specs.Prelude.{◌≡◌, ◌+◌, ◌^◌, ◌<◌, ◌≤◌, [], All, IfErr, IfOk, MatchResult, get_or, length, slice_range};
ghost use Rattle.csv.specs.Records.{fields_of};
ghost use Rattle.pm_values.specs.Table.{FitsColumns, HasValidKind};
ghost use Rattle.pm_tables.specs.Typing.{FaultsFirst, FaultsRecord, WritesRow, WritesRows};

use crate::fault::DataBad;
use crate::field::field_value;
use crate::record_list::Records;
use csv::StringRecord;
use pm_values::{ColumnDecl, Row, Rows, TableDecl};
use std::alloc::Global;

/// The rows of the records from one position, from 0, up to below another.
///
/// The first of these records that writes no row is refused: by [`DataBad::Width`] where it has not one field per
/// column, and else by [`DataBad::Field`] with its first field that has no value in its column.
pub fn type_rows(
    alloc: Global,
    decl: &TableDecl,
    list: &Records,
    from: u32,
    to: u32,
) -> Result<Rows, DataBad>
    requires order { from ≤ to }
    requires within { to ≤ length list.now }
    ensures typed { IfOk result (WritesRows decl.now.columns (slice_range list.now from to)) }
    ensures fit { IfOk result (All (FitsColumns decl.now.columns)) }
    ensures count { IfOk result (λ rows. length rows + from ≡ to) }
    ensures refused { IfErr result (FaultsFirst decl.now.columns list.now from to) }
{
    let columns = decl.columns().as_slice();
    let mut rows = Rows::new(alloc);
    for at in from..to {
        let (fields, start, end) = list.bounds_of(at);
        rows.push(type_row(alloc, columns, fields, start, end, at + 1)?)?;
    }
    Ok(rows)
}

/// The row that these fields, from one position of a list up to below another, write as the record of this number.
pub(crate) fn type_row(
    alloc: Global,
    columns: &[ColumnDecl],
    fields: &StringRecord,
    start: usize,
    end: usize,
    number: u32,
) -> Result<Row, DataBad>
    requires narrow { length columns.now ≤ 64 }
    requires scales { All HasValidKind columns.now }
    requires order { start ≤ end }
    requires within { end ≤ length (fields_of fields.now) }
    ensures { MatchResult result (WritesRow columns.now (slice_range (fields_of fields.now) start end))
        (FaultsRecord columns.now (slice_range (fields_of fields.now) start end) number) }
{
    if end - start != columns.len() {
        return Err(DataBad::Width(number));
    }
    let mut values = Vec::with_capacity(alloc, columns.len())?;
    for (position, column) in columns.iter().enumerate() {
        match field_value(alloc, column, field_at(fields, start + position))? {
            Some(value) => values.push(value)?,
            None => return Err(DataBad::Field(number, position as u32 + 1)),
        }
    }
    Ok(Row::from_vec(values))
}

fn field_at(fields: &StringRecord, at: usize) -> &str
    requires { at < length (fields_of fields.now) }
    ensures { result.now ≡ get_or (fields_of fields.now) at [] }
{
    match fields.get(at) {
        Some(field) => field,
        None => unreachable!(),
    }
}
