//! Aggregates of the rows of a group.
ghost use Rattle.std.specs.Prelude.{◌≡◌, ◌≤◌, ◌<◌, ◌^◌, All, IfOk, length, filter, not};
ghost use Rattle.pm_values.specs.declared.value.Value.TheVariants.{Null};
ghost use Rattle.pm_values.specs.Row.{cell};
ghost use Rattle.pm_values.specs.Equality.{is_null};
ghost use Rattle.pm_plan.specs.Grouping.{aggregate_of, column_values, folded, greater, lesser, plus};
ghost use Rattle.pm_work.specs.Evaluation.{IsSmall, IsSummable, PlusFits};

use crate::evaluation::rows::cell;
use pm_plan::Aggregate;
use pm_values::{Row, Value, compare};
use std::alloc::{AllocError, Global};
use std::cmp::Ordering;

fn is_null(value: &Value) -> bool
    ensures { result ≡ is_null value.now }
{
    matches!(value, Value::Null)
}

/// How many rows have a value in the column.
fn count_values(column: u32, rows: &[Row]) -> usize
    ensures { result ≡ length (filter (λ v. not (is_null v)) (column_values column rows.now)) }
{
    let null = Value::Null;
    let mut count = 0;
    for row in rows {
        if !is_null(cell(row, column, &null)) {
            count += 1;
        }
    }
    count
}

/// The lesser of two values, NULL put aside.
fn lesser<'a>(a: &'a Value, b: &'a Value) -> &'a Value
    ensures { result.now ≡ lesser a.now b.now }
{
    if is_null(a) {
        return b;
    }
    if !is_null(b) && compare(b, a) == Ordering::Less {
        b
    } else {
        a
    }
}

/// The greater of two values, NULL put aside.
fn greater<'a>(a: &'a Value, b: &'a Value) -> &'a Value
    ensures { result.now ≡ greater a.now b.now }
{
    if is_null(a) {
        return b;
    }
    if !is_null(b) && compare(a, b) == Ordering::Less {
        b
    } else {
        a
    }
}

/// The least value of the column, and NULL where there is none.
fn least<'a>(column: u32, rows: &'a [Row], null: &'a Value) -> &'a Value
    requires { null.now ≡ Null }
    ensures { result.now ≡ folded lesser (column_values column rows.now) }
{
    let mut found = null;
    let mut left = rows.len();
    while left > 0 {
        left -= 1;
        found = lesser(cell(&rows[left], column, null), found);
    }
    found
}

/// The greatest value of the column, and NULL where there is none.
fn greatest<'a>(column: u32, rows: &'a [Row], null: &'a Value) -> &'a Value
    requires { null.now ≡ Null }
    ensures { result.now ≡ folded greater (column_values column rows.now) }
{
    let mut found = null;
    let mut left = rows.len();
    while left > 0 {
        left -= 1;
        found = greater(cell(&rows[left], column, null), found);
    }
    found
}

/// The sum of two values, to which NULL adds nothing.
fn plus(a: &Value, b: Value) -> Value
    requires { PlusFits a.now b }
    ensures { result ≡ plus a.now b }
{
    if let Value::Int(m) = a {
        if let Value::Int(n) = &b {
            return Value::Int(*m + *n);
        }
        return Value::Int(*m);
    }
    b
}

/// The sum of the column's numbers, and NULL where there is none.
fn sum(column: u32, rows: &[Row]) -> Value
    requires { All (λ row. IsSmall (cell row column)) rows.now }
    ensures { result ≡ folded plus (column_values column rows.now) }
{
    let null = Value::Null;
    let mut found = Value::Null;
    let mut left = rows.len();
    while left > 0 {
        left -= 1;
        found = plus(cell(&rows[left], column, &null), found);
    }
    found
}

/// What the aggregate computes of the rows.
pub fn aggregate_of(alloc: Global, item: Aggregate, rows: &[Row]) -> Result<Value, AllocError>
    requires { IsSummable rows.now item }
    ensures { IfOk result (λ value. value ≡ aggregate_of rows.now item) }
{
    let null = Value::Null;
    match item {
        Aggregate::CountAll => Ok(Value::Int(rows.len() as i128)),
        Aggregate::Count(column) => Ok(Value::Int(count_values(column, rows) as i128)),
        Aggregate::Sum(column) => Ok(sum(column, rows)),
        Aggregate::Min(column) => least(column, rows, &null).copy(alloc),
        Aggregate::Max(column) => greatest(column, rows, &null).copy(alloc),
    }
}
