ghost use Rattle.std.specs.Prelude.{◌≡◌, ℕ, ◌*◌, ◌^◌, ◌≤◌, ◌↔◌};
ghost use Rattle.pm_fraction.specs.Hundredths.{hundredths_down, hundredths_up};

/// The parts that a whole is cut into: hundredths of a percent.
const HUNDREDTHS: u128 = 10_000;

/// The share `n / d` in hundredths of a percent, rounded down: the greatest number `x` with
/// `x * d <= 10000 * n`.
pub fn hundredths_down(n: u128, d: u128) -> u128
    requires share { n ≤ d }
    requires positive { 1 ≤ d }
    requires limit { d ≤ 10 ^ 34 }
    ensures value { result ≡ hundredths_down n d }
    ensures greatest { (x : ℕ) → (x ≤ result) ↔ (x * d ≤ 10000 * n) }
    ensures share { result ≤ 10000 }
{
    HUNDREDTHS * n / d
}

/// The share `n / d` in hundredths of a percent, rounded up: the least number `x` with
/// `10000 * n <= x * d`.
pub fn hundredths_up(n: u128, d: u128) -> u128
    requires share { n ≤ d }
    requires positive { 1 ≤ d }
    requires limit { d ≤ 10 ^ 34 }
    ensures value { result ≡ hundredths_up n d }
    ensures least { (x : ℕ) → (result ≤ x) ↔ (10000 * n ≤ x * d) }
    ensures share { result ≤ 10000 }
{
    (HUNDREDTHS * n).div_ceil(d)
}
