//! The numbers of literals.
ghost use Rattle.std.specs.Prelude.{◌≡◌, ◌≤◌, length, ◌<◌, ◌^◌, pos, neg_ℤ, true, if◌then◌else◌};
ghost use Rattle.pm_lexer.specs.Symbol.{is};
ghost use Rattle.pm_lexer.specs.Pieces.{decimals_len};
ghost use Rattle.pm_lexer.specs.declared.symbol.Symbol.TheVariants as symbol;
ghost use Rattle.pm_syntax.specs.Terminals.{magnitude, magnitude_of};
ghost use Rattle.pm_syntax.specs.declared.tree.Literal.TheVariants as literal;

use crate::tree::Literal;
use pm_lexer::{Token, decimals_len};

// The digits as one number.
fn magnitude(bytes: &[u8]) -> u128
    requires { length bytes.now ≤ 31 }
    ensures value { result ≡ magnitude_of bytes.now }
    ensures fits { result < 10 ^ 31 }
{
    let mut value: u128 = 0;
    for b in bytes {
        if b.is_ascii_digit() {
            value = 10 * value + (*b - b'0') as u128;
        }
    }
    value
}

// The literal of a number after no sign, or after a minus.
pub(crate) fn number(token: &Token, negative: bool) -> Literal
    requires { is symbol.Number token.now ≡ true }
    ensures { result ≡ literal.Number (if negative then neg_ℤ (pos (magnitude token.now)) else pos (magnitude token.now)) (decimals_len token.now.slice) }
{
    let bytes = token.slice.bytes();
    let value = magnitude(bytes) as i128;
    let value = if negative { -value } else { value };
    let decimals = decimals_len(bytes) as u8;
    Literal::Number { value, decimals }
}
