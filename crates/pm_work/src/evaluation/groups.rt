//! Groups of rows.
ghost use Rattle.std.specs.Prelude.{◌≡◌, ◌++◌, All, IfOk, OnOk, not, filter, map};
ghost use Rattle.pm_values.specs.Row.{pick};
ghost use Rattle.pm_values.specs.Equality.{same_values};
ghost use Rattle.pm_plan.specs.Grouping.{aggregate_of, group_keys, group_row, grouped};
ghost use Rattle.pm_work.specs.Evaluation.{IsSummable};

use crate::evaluation::aggregates::aggregate_of;
use crate::evaluation::rows::picked;
use pm_plan::Aggregate;
use pm_values::{Row, compare, copy_row};
use std::alloc::{AllocError, Global};
use std::cmp::Ordering;

/// Whether two rows have equal values, NULLs as one value.
pub fn same_values(a: &Row, b: &Row) -> bool
    ensures { result ≡ same_values a.now b.now }
{
    if a.len() != b.len() {
        return false;
    }
    for (x, y) in a.as_slice().iter().zip(b.as_slice()) {
        if compare(x, y) != Ordering::Equal {
            return false;
        }
    }
    true
}

/// Drops the rows that are the same as the key.
fn drop_same(key: &Row, rows: &mut Vec<Row>)
    ensures { rows.new.items ≡ filter (λ row. not (same_values key.now row)) rows.old.items }
{
    rows.retain(|row| !same_values(key, row));
}

/// The different lists of key values, each where it first appears.
fn different_keys(alloc: Global, keys: &[u32], rows: &[Row]) -> Result<Vec<Row>, AllocError>
    ensures { IfOk result (λ found. found.items ≡ group_keys keys.now rows.now) }
{
    let mut found = Vec::new(alloc);
    let mut left = rows.len();
    while left > 0 {
        left -= 1;
        let key = picked(alloc, keys, &rows[left])?;
        drop_same(&key, &mut found);
        found.insert(0, key)?;
    }
    Ok(found)
}

/// The rows whose key this is.
fn members(alloc: Global, keys: &[u32], rows: &[Row], key: &Row) -> Result<Vec<Row>, AllocError>
    ensures { IfOk result (λ own. own.items ≡ filter (λ row. same_values key.now (pick keys.now row)) rows.now) }
{
    let mut own = Vec::new(alloc);
    for row in rows {
        let values = picked(alloc, keys, row)?;
        if same_values(key, &values) {
            own.push(copy_row(alloc, row)?)?;
        }
    }
    Ok(own)
}

/// Puts the aggregates of the rows at the end.
fn put_aggregates(
    alloc: Global,
    to: &mut Row,
    items: &[Aggregate],
    rows: &[Row],
) -> Result<(), AllocError>
    requires { All (IsSummable rows.now) items.now }
    ensures { OnOk result (to.new ≡ to.old ++ map (aggregate_of rows.now) items.now) }
{
    for item in items {
        to.push(aggregate_of(alloc, *item, rows)?)?;
    }
    Ok(())
}

/// The key's values, and the aggregates of its rows.
fn group_row(
    alloc: Global,
    keys: &[u32],
    items: &[Aggregate],
    rows: &[Row],
    key: &Row,
) -> Result<Row, AllocError>
    requires { All (IsSummable rows.now) items.now }
    ensures { IfOk result (λ row. row ≡ group_row keys.now items.now rows.now key.now) }
{
    let own = members(alloc, keys, rows, key)?;
    let mut row = copy_row(alloc, key)?;
    put_aggregates(alloc, &mut row, items, own.as_slice())?;
    Ok(row)
}

/// The row of each of these keys.
fn group_rows(
    alloc: Global,
    keys: &[u32],
    items: &[Aggregate],
    rows: &[Row],
    found: &[Row],
) -> Result<Vec<Row>, AllocError>
    requires { All (IsSummable rows.now) items.now }
    ensures { IfOk result (λ groups. groups.items ≡ map (group_row keys.now items.now rows.now) found.now) }
{
    let mut groups = Vec::new(alloc);
    for key in found {
        groups.push(group_row(alloc, keys, items, rows, key)?)?;
    }
    Ok(groups)
}

/// One row for each different key, and exactly one where there are no keys.
pub fn grouped(
    alloc: Global,
    keys: &[u32],
    items: &[Aggregate],
    rows: &[Row],
) -> Result<Vec<Row>, AllocError>
    requires { All (IsSummable rows.now) items.now }
    ensures { IfOk result (λ groups. groups.items ≡ grouped keys.now items.now rows.now) }
{
    if keys.is_empty() {
        let mut row = Row::new(alloc);
        put_aggregates(alloc, &mut row, items, rows)?;
        let mut groups = Vec::new(alloc);
        groups.push(row)?;
        return Ok(groups);
    }
    let found = different_keys(alloc, keys, rows)?;
    group_rows(alloc, keys, items, rows, found.as_slice())
}
