//! When two lists of values are one key.
ghost use Rattle.std.specs.Prelude.{◌≡◌, ◌^◌, ◌<◌, length};
ghost use Rattle.pm_values.specs.Equality.{is_null, same_key, same_key_value};

use crate::cells::Cells;
use crate::order::compare;
use crate::value::Value;
use std::cmp::Ordering;

/// Whether two lists are one key: they are equal, and none of their values is NULL.
pub fn same_key<A: Cells, B: Cells>(a: &A, b: &B) -> bool
    requires few { length (A.cells a.now) < 2 ^ 32 }
    requires as_wide { length (A.cells a.now) ≡ length (B.cells b.now) }
    ensures { result ≡ same_key (A.cells a.now) (B.cells b.now) }
{
    for at in 0..a.width() {
        if !same_key_value(a.cell(at), b.cell(at)) {
            return false;
        }
    }
    true
}

fn same_key_value(a: &Value, b: &Value) -> bool
    ensures { result ≡ same_key_value a.now b.now }
{
    match a {
        Value::Null => false,
        _ => compare(a, b) == Ordering::Equal,
    }
}
