//! The aggregates of groups, as one more row comes.
ghost use Rattle.std.specs.Prelude.{◌≡◌, ◌⊎◌, ℕ, ◌+◌, ◌^◌, ◌<◌, ◌≤◌, ◌++◌, ◌∷◌, [], if◌then◌else◌, length, map, get_or, unwrap_or, None, All, IfOk, OnOk, OnErr};
ghost use Rattle.pm_values.specs.declared.value.Value.TheVariants as value;
ghost use Rattle.pm_values.specs.Row.{cell};
ghost use Rattle.pm_values.specs.Order.{is_less};
ghost use Rattle.pm_values.specs.Equality.{is_null};
ghost use Rattle.pm_plan.specs.Grouping.{aggregate_of, plus};
ghost use Rattle.pm_blocks.specs.Limits.{IsWithin};
ghost use Rattle.pm_blocks.specs.Accumulators.{IsCount, SumFits, HasRoom, AreChanges, IsAdded, item_at, one_more, with_row};

use pm_plan::{Aggregate, Aggregates};
use pm_values::{Cells, Value, compare};
use std::alloc::{AllocError, Global};
use std::cmp::Ordering;

/// The aggregate of no rows.
pub(crate) fn empty_aggregate(item: Aggregate) -> Value
    ensures { result ≡ aggregate_of [] item }
{
    match item {
        Aggregate::CountAll | Aggregate::Count(_) => Value::Int(0),
        Aggregate::Sum(_) | Aggregate::Min(_) | Aggregate::Max(_) => Value::Null,
    }
}

/// What an aggregate becomes with one more row, None where it stays.
pub(crate) fn change<C: Cells>(
    alloc: Global,
    item: Aggregate,
    so_far: &Value,
    row: &C,
) -> Result<Option<Value>, AllocError>
    requires few { length (C.cells row.now) < 2 ^ 32 }
    requires within { IsWithin (length (C.cells row.now)) item }
    requires room { HasRoom (C.cells row.now) item so_far.now }
    ensures { IfOk result (λ change. unwrap_or change so_far.now ≡ with_row (C.cells row.now) item so_far.now) }
{
    match item {
        Aggregate::CountAll => Ok(Some(counted(so_far))),
        Aggregate::Count(column) => match row.cell(column) {
            Value::Null => Ok(None),
            _ => Ok(Some(counted(so_far))),
        },
        Aggregate::Sum(column) => Ok(summed(so_far, row.cell(column))),
        Aggregate::Min(column) => {
            let next = row.cell(column);
            replaced(alloc, so_far, next, compare(next, so_far))
        }
        Aggregate::Max(column) => {
            let next = row.cell(column);
            replaced(alloc, so_far, next, compare(so_far, next))
        }
    }
}

fn counted(so_far: &Value) -> Value
    requires { IsCount so_far.now }
    ensures { result ≡ one_more so_far.now }
{
    match so_far {
        Value::Int(n) => Value::Int(*n + 1),
        _ => unreachable!(),
    }
}

fn summed(so_far: &Value, next: &Value) -> Option<Value>
    requires { SumFits so_far.now next.now }
    ensures { unwrap_or result so_far.now ≡ plus so_far.now (plus next.now value.Null) }
{
    match (so_far, next) {
        (Value::Int(m), Value::Int(n)) => Some(Value::Int(*m + *n)),
        (Value::Null, Value::Int(n)) => Some(Value::Int(*n)),
        _ => None,
    }
}

/// A copy of the next value, where the so_far is NULL or the order is Less; None where the next value is NULL.
fn replaced(
    alloc: Global,
    so_far: &Value,
    next: &Value,
    order: Ordering,
) -> Result<Option<Value>, AllocError>
    ensures { IfOk result (λ change. unwrap_or change so_far.now ≡ (if is_null so_far.now then next.now else (if is_null next.now then so_far.now else (if is_less order then next.now else so_far.now)))) }
{
    match (so_far, next) {
        (_, Value::Null) => Ok(None),
        (Value::Null, _) => Ok(Some(next.copy(alloc)?)),
        _ => match order {
            Ordering::Less => Ok(Some(next.copy(alloc)?)),
            _ => Ok(None),
        },
    }
}

/// Adds a row to the aggregates of its group, which stand from a position on. A refusal leaves them; `changes` is used on
/// the way.
pub(crate) fn add_row<C: Cells>(
    changes: &mut Vec<Option<Value>>,
    accumulators: &mut Vec<Value>,
    start: usize,
    items: &Aggregates,
    row: &C,
) -> Result<(), AllocError>
    requires few { length (C.cells row.now) < 2 ^ 32 }
    requires within { All (IsWithin (length (C.cells row.now))) items.now }
    requires there { start + length items.now ≤ length accumulators.old.items }
    requires room { (k : ℕ) → k < length items.now → HasRoom (C.cells row.now) (item_at items.now k) (cell accumulators.old.items (start + k)) }
    ensures ok { OnOk result (IsAdded (C.cells row.now) items.now start accumulators.old.items accumulators.new.items) }
    ensures err { OnErr result (accumulators.new.items ≡ accumulators.old.items) }
{
    find_changes(
        changes,
        items.as_slice(),
        accumulators.as_slice(),
        start,
        row,
    )?;
    apply(accumulators, start, changes);
    Ok(())
}

/// Finds what the aggregates become, and changes none of them, so that a refusal leaves them.
fn find_changes<C: Cells>(
    changes: &mut Vec<Option<Value>>,
    items: &[Aggregate],
    accumulators: &[Value],
    start: usize,
    row: &C,
) -> Result<(), AllocError>
    requires few { length (C.cells row.now) < 2 ^ 32 }
    requires within { All (IsWithin (length (C.cells row.now))) items.now }
    requires there { start + length items.now ≤ length accumulators.now }
    requires room { (k : ℕ) → k < length items.now → HasRoom (C.cells row.now) (item_at items.now k) (cell accumulators.now (start + k)) }
    ensures { OnOk result (AreChanges (C.cells row.now) items.now start accumulators.now changes.new.items) }
{
    let alloc = *changes.allocator();
    changes.clear();
    for (at, item) in items.iter().enumerate() {
        let change = change(alloc, *item, &accumulators[start + at], row)?;
        changes.push(change)?;
    }
    Ok(())
}

/// Puts the changes in, from a position on.
fn apply(cells: &mut Vec<Value>, start: usize, changes: &mut Vec<Option<Value>>)
    requires { start + length changes.old.items ≤ length cells.old.items }
    ensures length { length cells.new.items ≡ length cells.old.items }
    ensures changed { (k : ℕ) → k < length changes.old.items → cell cells.new.items (start + k) ≡ unwrap_or (get_or changes.old.items k None) (cell cells.old.items (start + k)) }
    ensures others { (i : ℕ) → (i < start) ⊎ (start + length changes.old.items ≤ i) → cell cells.new.items i ≡ cell cells.old.items i }
{
    for at in 0..changes.len() {
        if let Some(changed) = changes[at].take() {
            cells[start + at] = changed;
        }
    }
}

/// Puts the aggregates of a group of this row alone at the end. A refusal leaves the list.
pub(crate) fn push_aggregates<C: Cells>(
    cells: &mut Vec<Value>,
    items: &[Aggregate],
    row: &C,
) -> Result<(), AllocError>
    requires few { length (C.cells row.now) < 2 ^ 32 }
    requires within { All (IsWithin (length (C.cells row.now))) items.now }
    ensures ok { OnOk result (cells.new.items ≡ cells.old.items ++ map (λ item. with_row (C.cells row.now) item (aggregate_of [] item)) items.now) }
    ensures err { OnErr result (cells.new.items ≡ cells.old.items) }
{
    let before = cells.len();
    for item in items {
        if push_aggregate(cells, *item, row).is_err() {
            cells.truncate(before);
            return Err(AllocError);
        }
    }
    Ok(())
}

fn push_aggregate<C: Cells>(
    cells: &mut Vec<Value>,
    item: Aggregate,
    row: &C,
) -> Result<(), AllocError>
    requires few { length (C.cells row.now) < 2 ^ 32 }
    requires within { IsWithin (length (C.cells row.now)) item }
    ensures ok { OnOk result (cells.new.items ≡ cells.old.items ++ with_row (C.cells row.now) item (aggregate_of [] item) ∷ []) }
    ensures err { OnErr result (cells.new.items ≡ cells.old.items) }
{
    let none = empty_aggregate(item);
    let so_far = change(*cells.allocator(), item, &none, row)?.unwrap_or(none);
    cells.push(so_far)?;
    Ok(())
}
