ghost use Rattle.std.specs.Prelude.{◌≡◌, ◌+◌, ◌*◌};
ghost use Rattle.pm_fraction.specs.Capped.{capped};

/// The product of two numbers, or `u128::MAX` where the product is greater than that.
pub fn mul_capped(a: u128, b: u128) -> u128
    ensures { result ≡ capped (a * b) }
{
    a.saturating_mul(b)
}

/// The sum of two numbers, or `u128::MAX` where the sum is greater than that.
pub fn add_capped(a: u128, b: u128) -> u128
    ensures { result ≡ capped (a + b) }
{
    a.saturating_add(b)
}
