//! The order on values.
ghost use Rattle.std.specs.Prelude.{◌≡◌};
ghost use Rattle.pm_values.specs.Order.{value_cmp};

use crate::value::Value;
use std::cmp::Ordering;

/// The total order on values: NULL, then numbers by size, then texts by their bytes.
pub fn compare(a: &Value, b: &Value) -> Ordering
    ensures { result ≡ value_cmp a.now b.now }
{
    match (a, b) {
        (Value::Null, Value::Null) => Ordering::Equal,
        (Value::Null, _) => Ordering::Less,
        (_, Value::Null) => Ordering::Greater,
        (Value::Int(m), Value::Int(n)) => m.cmp(n),
        (Value::Int(_), Value::Text(_)) => Ordering::Less,
        (Value::Text(_), Value::Int(_)) => Ordering::Greater,
        (Value::Text(s), Value::Text(t)) => s.as_str().cmp(t.as_str()),
    }
}
