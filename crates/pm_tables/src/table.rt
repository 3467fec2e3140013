//! A table of typed rows, where their KEY and ORDER hold.
ghost use Rattle.std.specs.Prelude.{◌≡◌, ◌≤◌, ◌^◌, ◌⊎◌, All, IfErr, IfOk, IfSome, IsTrue, MatchOption, Some, length};
ghost use Rattle.pm_values.specs.Order.{Ascends, IsKey};
ghost use Rattle.pm_values.specs.Table.{FitsColumns};
ghost use Rattle.pm_tables.specs.Keys.{IsKeyOrder};
ghost use Rattle.pm_tables.specs.Table.{FallsFirst, FaultsTable, RepeatsFirst};

use crate::fault::DataBad;
use crate::keys::{agree, compare_rows, key_order};
use pm_values::{Row, Rows, Table, TableDecl};
use std::alloc::{AllocError, Global};
use std::cmp::Ordering;

/// The table of these rows, whose KEY and ORDER hold.
///
/// Refused are a KEY that repeats ([`DataBad::DoubleKey`]), and else a row below the one before it by the ORDER
/// columns ([`DataBad::OutOfOrder`]). The rows are dropped then.
pub fn finish(alloc: Global, decl: TableDecl, rows: Rows) -> Result<Table, DataBad>
    requires few { length rows ≤ 2 ^ 24 }
    requires fit { All (FitsColumns decl.columns) rows }
    ensures table { IfOk result (λ table. table ≡ record { decl = decl; rows = rows }) }
    ensures refused { IfErr result (FaultsTable decl rows) }
{
    if let Some(columns) = decl.key() {
        if let Some((first, second)) = first_repeat(alloc, rows.as_slice(), columns.as_slice())? {
            return Err(DataBad::DoubleKey(first + 1, second + 1));
        }
    }
    if let Some(columns) = decl.order() {
        if let Some(above) = first_fall(rows.as_slice(), columns.as_slice()) {
            return Err(DataBad::OutOfOrder(above + 2));
        }
    }
    Ok(Table::new(decl, rows))
}

/// The position, from 0, of the first row that is above the next one by these columns.
fn first_fall(rows: &[Row], columns: &[u32]) -> Option<u32>
    requires { length rows.now ≤ 2 ^ 24 }
    ensures { MatchOption result (Ascends columns.now rows.now) (FallsFirst columns.now rows.now) }
{
    for next in 1..rows.len() as u32 {
        if let Ordering::Greater = compare_rows(rows, columns, next - 1, next) {
            return Some(next - 1);
        }
    }
    None
}

/// The first row that agrees with an earlier one in these columns, behind the first such earlier one.
///
/// Rows that ascend strictly by the columns need no search.
fn first_repeat(
    alloc: Global,
    rows: &[Row],
    columns: &[u32],
) -> Result<Option<(u32, u32)>, AllocError>
    requires { length rows.now ≤ 2 ^ 24 }
    ensures { IfOk result (λ found. MatchOption found (IsKey columns.now rows.now) (λ pair. RepeatsFirst columns.now rows.now pair.0 pair.1)) }
{
    if ascends_strictly(rows, columns) {
        return Ok(None);
    }
    let order = key_order(alloc, rows, columns)?;
    Ok(least_repeat(rows, columns, order.as_slice()))
}

/// Whether each row is above the one before it by these columns, so that no two agree in them.
fn ascends_strictly(rows: &[Row], columns: &[u32]) -> bool
    requires { length rows.now ≤ 2 ^ 24 }
    ensures { IsTrue result → IsKey columns.now rows.now }
{
    for next in 1..rows.len() as u32 {
        if compare_rows(rows, columns, next - 1, next) != Ordering::Less {
            return false;
        }
    }
    true
}

/// Of the rows that agree with their neighbours in the order of the keys, the two with the least second row.
fn least_repeat(rows: &[Row], columns: &[u32], order: &[u32]) -> Option<(u32, u32)>
    requires { IsKeyOrder columns.now rows.now order.now }
    ensures { MatchOption result (IsKey columns.now rows.now) (λ pair. RepeatsFirst columns.now rows.now pair.0 pair.1) }
{
    let mut least = None;
    for next in 1..order.len() {
        let (first, second) = (order[next - 1], order[next]);
        if agree(rows, columns, first, second) {
            least = Some(earlier(least, (first, second)));
        }
    }
    least
}

/// Of a pair that is known, if there is one, and another the one whose second row has the lesser number.
fn earlier(known: Option<(u32, u32)>, other: (u32, u32)) -> (u32, u32)
    ensures one { (result ≡ other) ⊎ (known ≡ Some result) }
    ensures no_later { result.1 ≤ other.1 }
    ensures least { IfSome known (λ pair. result.1 ≤ pair.1) }
{
    match known {
        Some(pair) if pair.1 <= other.1 => pair,
        _ => other,
    }
}
