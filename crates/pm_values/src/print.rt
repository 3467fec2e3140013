//! How values are written.
ghost use Rattle.std.specs.Prelude.{◌≡◌, ◌≤◌, ◌++◌, IfOk, OnOk, string_bytes};
ghost use Rattle.pm_values.specs.ValueText.{value_text, last_digits, signed_fixed_point, HasText};

use crate::limits::MOST_DECIMALS;
use crate::text::Txt;
use crate::value::{Kind, Value};
use itoa::Buffer;
use std::alloc::{AllocError, Global};

/// How a value of a column's kind is written: a whole number in decimal, a fixed-point number with all of its
/// decimals, a text as it is, and NULL as the empty text.
pub fn value_text(alloc: Global, value: &Value, kind: Kind) -> Result<Txt, AllocError>
    requires { HasText kind value.now }
    ensures { IfOk result (λ text. text ≡ value_text kind value.now) }
{
    match (value, kind) {
        (Value::Null, _) => Txt::new(alloc, ""),
        (Value::Text(text), _) => text.copy(alloc),
        (Value::Int(n), Kind::Num(scale)) => fixed_point(alloc, scale, *n),
        (Value::Int(n), _) => {
            let mut buffer = Buffer::new();
            Txt::new(alloc, buffer.format(*n))
        }
    }
}

fn fixed_point(alloc: Global, scale: u8, n: i128) -> Result<Txt, AllocError>
    requires { scale ≤ MOST_DECIMALS }
    ensures { IfOk result (λ text. text ≡ signed_fixed_point scale n) }
{
    let magnitude = n.unsigned_abs();
    let mut buffer = Buffer::new();
    let mut text = String::new(alloc);
    if n < 0 {
        text.push_str("-")?;
    }
    text.push_str(buffer.format(magnitude / 10u128.pow(u32::from(scale))))?;
    text.push_str(".")?;
    push_digits(&mut text, scale, magnitude)?;
    Txt::new(alloc, text.as_str())
}

/// Puts the last `count` decimal digits of `n` at the end.
fn push_digits(text: &mut String, count: u8, n: u128) -> Result<(), AllocError>
    ensures { OnOk result (string_bytes text.new ≡ string_bytes text.old ++ last_digits count n) }
{
    if count > 0 {
        push_digits(text, count - 1, n / 10)?;
        text.push(char::from(b'0' + (n % 10) as u8))?;
    }
    Ok(())
}
