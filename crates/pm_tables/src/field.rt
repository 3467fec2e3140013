//! The value of a field of a record in its column.
ghost use Rattle.std.specs.Prelude.{◌≡◌, ◌≤◌, ◌<◌, ◌*◌, ◌+◌, ◌^◌, ◌++◌, ◌↔◌, ℕ, ℤ, IsTrue, Some, None, take, drop, length, IfOk, MatchOption};
ghost use Rattle.std.specs.Str.Parse.{AllDigits, IsNumeral, digits_value, digits_value_after, starts_with_minus, without_leading_sign};
ghost use Rattle.pm_values.specs.Table.{HasValidKind};
ghost use Rattle.pm_tables.specs.Field.{AreZeros, HasValue, HasNoValue, IsDecimal, IsScaled, WritesInt, WritesScaled, point_of, with_sign_of};

use pm_values::{ColumnDecl, Kind, Txt, Value};
use std::alloc::{AllocError, Global};

/// The magnitude of the least number of 64 bits.
const LARGEST: u128 = 1 << 63;

/// The value of a field in its column, or None where it has none.
pub fn field_value(
    alloc: Global,
    column: &ColumnDecl,
    field: &str,
) -> Result<Option<Value>, AllocError>
    requires { HasValidKind column.now }
    ensures { IfOk result (λ found. MatchOption found (HasNoValue column.now field.now) (λ v. HasValue column.now field.now v)) }
{
    if column.nullable && field.is_empty() {
        return Ok(Some(Value::Null));
    }
    match column.kind {
        Kind::Text => Ok(Some(Value::Text(Txt::new(alloc, field)?))),
        Kind::Int => Ok(int_of(field)),
        Kind::Num(scale) => Ok(scaled_of(scale, field.as_bytes())),
    }
}

fn int_of(field: &str) -> Option<Value>
    ensures { MatchOption result ((n : ℤ) → WritesInt field.now n → ⊥) (λ v. (n : ℤ) × WritesInt field.now n × (v ≡ Value.Int n)) }
{
    match field.parse::<i64>() {
        Ok(n) => Some(Value::Int(i128::from(n))),
        Err(_) => None,
    }
}

fn scaled_of(scale: u8, field: &[u8]) -> Option<Value>
    requires { scale ≤ 6 }
    ensures { MatchOption result ((n : ℤ) → WritesScaled scale field.now n → ⊥) (λ v. (n : ℤ) × WritesScaled scale field.now n × (v ≡ Value.Int n)) }
{
    let magnitude = scaled(scale, without_sign(field))?;
    if is_negative(field) {
        Some(Value::Int(-(magnitude as i128)))
    } else if magnitude < LARGEST {
        Some(Value::Int(magnitude as i128))
    } else {
        None
    }
}

fn is_negative(field: &[u8]) -> bool
    ensures { result ≡ starts_with_minus field.now }
{
    matches!(field.first(), Some(b'-'))
}

fn without_sign(field: &[u8]) -> &[u8]
    ensures { result.now ≡ without_leading_sign field.now }
{
    match field.first() {
        Some(b'+' | b'-') => &field[1..],
        _ => field,
    }
}

/// The number times 10^scale that these digits write, with a point or without one, where it is whole and not too large.
fn scaled(scale: u8, digits: &[u8]) -> Option<u128>
    requires { scale ≤ 6 }
    ensures { MatchOption result ((m : ℕ) → IsScaled scale digits.now (point_of digits.now) m → LARGEST < m) (λ m. IsScaled scale digits.now (point_of digits.now) m × (m ≤ LARGEST)) }
{
    match point_at(digits) {
        None => whole(scale, digits),
        Some(point) => decimal(scale, &digits[..point], &digits[point + 1..]),
    }
}

fn point_at(digits: &[u8]) -> Option<usize>
    ensures { result ≡ point_of digits.now }
{
    digits.iter().position(|b| *b == b'.')
}

fn whole(scale: u8, digits: &[u8]) -> Option<u128>
    requires { scale ≤ 6 }
    ensures { MatchOption result ((m : ℕ) → IsScaled scale digits.now None m → LARGEST < m) (λ m. IsScaled scale digits.now None m × (m ≤ LARGEST)) }
{
    if digits.is_empty() {
        return None;
    }
    within(number(0, digits)? * 10u128.pow(u32::from(scale)))
}

fn decimal(scale: u8, whole: &[u8], decimals: &[u8]) -> Option<u128>
    requires { scale ≤ 6 }
    ensures { MatchOption result ((m : ℕ) → IsDecimal scale whole.now decimals.now m → LARGEST < m) (λ m. IsDecimal scale whole.now decimals.now m × (m ≤ LARGEST)) }
{
    if whole.is_empty() || decimals.is_empty() {
        return None;
    }
    let kept = decimals.len().min(usize::from(scale));
    if !are_zeros(&decimals[kept..]) {
        return None;
    }
    let digits = number(number(0, whole)?, &decimals[..kept])?;
    within(digits * 10u128.pow(u32::from(scale) - kept as u32))
}

fn are_zeros(digits: &[u8]) -> bool
    ensures { IsTrue result ↔ AreZeros digits.now }
{
    digits.iter().all(|b| *b == b'0')
}

/// The number that these digits write behind those of `start`, where it is not too large.
#[tactic(auto, using(crate::proofs::Digits::reads_end, crate::proofs::Digits::reads_over, crate::proofs::Digits::reads_other, crate::proofs::Digits::reads_step))]
fn number(start: u128, digits: &[u8]) -> Option<u128>
    requires { start ≤ LARGEST }
    ensures { MatchOption result (AllDigits 10 digits.now → LARGEST < digits_value_after 10 start digits.now)
        (λ n. AllDigits 10 digits.now × (n ≡ digits_value_after 10 start digits.now) × (n ≤ LARGEST)) }
{
    let mut n = start;
    for digit in digits {
        if !digit.is_ascii_digit() {
            return None;
        }
        n = n * 10 + u128::from(digit - b'0');
        if n > LARGEST {
            return None;
        }
    }
    Some(n)
}

fn within(n: u128) -> Option<u128>
    ensures { MatchOption result (LARGEST < n) (λ m. (m ≡ n) × (n ≤ LARGEST)) }
{
    if n <= LARGEST { Some(n) } else { None }
}
