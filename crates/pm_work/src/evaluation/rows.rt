//! Rows of tables, and the rows that filters and projections make.
ghost use Rattle.std.specs.Prelude.{◌≡◌, ◌^◌, ◌<◌, All, IfOk, filter, length, map};
ghost use Rattle.pm_values.specs.declared.value.Value.TheVariants.{Null};
ghost use Rattle.pm_values.specs.Row.{cell, pick};
ghost use Rattle.pm_values.specs.Condition.{keeps};
ghost use Rattle.pm_values.specs.WellFormed.{IsWellFormed};
ghost use Rattle.pm_work.specs.Evaluation.{CanKeep};
ghost use Rattle.pm_plan.specs.Rows.{decls_of, table_rows};
ghost use Rattle.pm_plan.specs.Kinds.{table_width};

use pm_values::{Cond, Db, Row, Truth, Value, copy_row};
use std::alloc::{AllocError, Global};

/// The rows of the table at this position, and none past the last table.
pub fn table_rows(db: &Db, table: u32) -> &[Row]
    ensures { result.now ≡ table_rows db.now table }
{
    match db.as_slice().get(table as usize) {
        Some(table) => table.rows().as_slice(),
        None => &[],
    }
}

/// How many columns it has, and none past the last table.
pub fn table_width(db: &Db, table: u32) -> usize
    ensures { result ≡ table_width (decls_of db.now) table }
{
    match db.as_slice().get(table as usize) {
        Some(table) => table.decl().columns().len(),
        None => 0,
    }
}

/// The value of a column, and `null` past the end.
pub fn cell<'a>(row: &'a Row, column: u32, null: &'a Value) -> &'a Value
    requires { null.now ≡ Null }
    ensures { result.now ≡ cell row.now column }
{
    match row.as_slice().get(column as usize) {
        Some(value) => value,
        None => null,
    }
}

/// The values of these columns.
pub fn picked(alloc: Global, columns: &[u32], row: &Row) -> Result<Row, AllocError>
    ensures { IfOk result (λ values. values ≡ pick columns.now row.now) }
{
    let null = Value::Null;
    let mut values = Row::new(alloc);
    for column in columns {
        values.push(cell(row, *column, &null).copy(alloc)?)?;
    }
    Ok(values)
}

/// Equal rows.
pub fn copied(alloc: Global, rows: &[Row]) -> Result<Vec<Row>, AllocError>
    ensures { IfOk result (λ copy. copy.items ≡ rows.now) }
{
    let mut copy = Vec::new(alloc);
    for row in rows {
        copy.push(copy_row(alloc, row)?)?;
    }
    Ok(copy)
}

/// Whether the condition is true on the row.
fn is_kept(cond: &Cond, row: &Row) -> bool
    requires few { length row.now < 2 ^ 32 }
    requires well_formed { IsWellFormed (length row.now) cond.now }
    ensures { result ≡ keeps cond.now row.now }
{
    matches!(cond.eval(row), Truth::Yes)
}

/// The rows on which the condition is true.
pub fn kept(alloc: Global, cond: &Cond, rows: &[Row]) -> Result<Vec<Row>, AllocError>
    requires { All (CanKeep cond.now) rows.now }
    ensures { IfOk result (λ kept. kept.items ≡ filter (keeps cond.now) rows.now) }
{
    let mut kept = Vec::new(alloc);
    for row in rows {
        if is_kept(cond, row) {
            kept.push(copy_row(alloc, row)?)?;
        }
    }
    Ok(kept)
}

/// These columns of each row.
pub fn projected(alloc: Global, columns: &[u32], rows: &[Row]) -> Result<Vec<Row>, AllocError>
    ensures { IfOk result (λ chosen. chosen.items ≡ map (pick columns.now) rows.now) }
{
    let mut chosen = Vec::new(alloc);
    for row in rows {
        chosen.push(picked(alloc, columns, row)?)?;
    }
    Ok(chosen)
}
