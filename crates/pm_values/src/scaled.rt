//! How fixed-point numbers of different scales compare.
ghost use Rattle.std.specs.Prelude.{◌≡◌, ◌*ℤ◌, ◌^◌, ◌<◌, ◌≤◌, ℕ, pos};
ghost use Rattle.std.specs.Ordering.{int_cmp};

use crate::limits::MOST_DECIMALS;
use std::cmp::Ordering;

/// How `m` times 10^-`s` stands against `n` times 10^-`t`.
pub(crate) fn compare_scaled(m: i128, s: u8, n: i128, t: u8) -> Ordering
    requires left { s ≤ MOST_DECIMALS }
    requires right { t ≤ MOST_DECIMALS }
    ensures { result ≡ int_cmp (m *ℤ pos (10 ^ t)) (n *ℤ pos (10 ^ s)) }
{
    if s <= t {
        compare_product(m, 10u32.pow(u32::from(t - s)), n)
    } else {
        compare_product(n, 10u32.pow(u32::from(s - t)), m).reverse()
    }
}

// How a product stands against a number. A product that has no place in 128 bits lies past each number that has one.
fn compare_product(m: i128, factor: u32, n: i128) -> Ordering
    requires { 0 < factor }
    ensures { result ≡ int_cmp (m *ℤ pos factor) n }
{
    match m.checked_mul(i128::from(factor)) {
        Some(product) => product.cmp(&n),
        None if m < 0 => Ordering::Less,
        None => Ordering::Greater,
    }
}
