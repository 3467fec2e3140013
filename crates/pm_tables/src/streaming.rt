//! Records that are typed one by one as they are read.
ghost use Rattle.std.specs.Prelude.{◌≡◌, ◌≤◌, ◌∷◌, ℕ, List, [], All, IfErr, IfOk, MatchResult, length};
ghost use Rattle.csv.specs.Records.{fields_of};
ghost use Rattle.pm_values.specs.Table.{HasValidKind};
ghost use Rattle.pm_tables.specs.HasRead.{HasRead, ReadsText};
ghost use Rattle.pm_tables.specs.Loading.{FaultsBehind, WritesBehind};
ghost use Rattle.pm_tables.specs.Typing.{FaultsRecord, WritesRow};

use crate::fault::DataBad;
use crate::reading::{check_record_limit, next};
use crate::typing::type_row;
use csv::{Reader, StringRecord};
use pm_values::{ColumnDecl, Row, Rows};
use std::alloc::Global;

/// The rows that all further records write, each of which is read into `current` and typed at once.
pub(crate) fn type_all(
    alloc: Global,
    columns: &[ColumnDecl],
    reader: &mut Reader<&[u8]>,
    current: &mut StringRecord,
    most: u32,
) -> Result<Rows, DataBad>
    requires narrow { length columns.now ≤ 64 }
    requires scales { All HasValidKind columns.now }
    requires text { ReadsText reader.old }
    ensures typed { (text : List ℕ) (header : List (List ℕ)) → HasRead text (header ∷ []) reader.old → IfOk result (WritesBehind columns.now text header most) }
    ensures refused { (text : List ℕ) (header : List (List ℕ)) → HasRead text (header ∷ []) reader.old → IfErr result (FaultsBehind columns.now text header most) }
{
    let mut rows = Rows::new(alloc);
    for at in 0..most {
        if !next(reader, current)? {
            return Ok(rows);
        }
        match type_record(alloc, columns, current, at + 1) {
            Ok(row) => rows.push(row)?,
            Err(fault) => {
                check_record_limit(reader, current, most - at - 1)?;
                return Err(fault);
            }
        }
    }
    if next(reader, current)? {
        return Err(DataBad::TooManyRows);
    }
    Ok(rows)
}

fn type_record(
    alloc: Global,
    columns: &[ColumnDecl],
    taken: &StringRecord,
    number: u32,
) -> Result<Row, DataBad>
    requires narrow { length columns.now ≤ 64 }
    requires scales { All HasValidKind columns.now }
    ensures { MatchResult result (WritesRow columns.now (fields_of taken.now)) (FaultsRecord columns.now (fields_of taken.now) number) }
{
    type_row(alloc, columns, taken, 0, taken.len(), number)
}
