ghost use Rattle.std.specs.Prelude.{◌≡◌, ◌+◌, ◌*◌, ◌^◌, ◌<◌, ◌≤◌, nat_lt, if◌then◌else◌, Some, None};
ghost use Rattle.pm_fraction.specs.Root.{IsRoot, root};

/// The greatest root of a number of 128 bits.
const GREATEST: u128 = (1 << 64) - 1;

/// The square root of a product, rounded down: the greatest number whose square is at most `a * b`. There is none where the
/// product is greater than `u128::MAX`.
pub fn root_of_product(a: u128, b: u128) -> Option<u128>
    ensures { result ≡ (if nat_lt (a * b) (2 ^ 128) then Some (root (a * b)) else None) }
{
    match a.checked_mul(b) {
        // The root lies between the two numbers.
        Some(product) => Some(root_between(product, a.min(b), a.max(b))),
        None => None,
    }
}

/// The square root, rounded down, of a number that lies between two squares.
fn root_between(p: u128, low: u128, high: u128) -> u128
    requires low { low * low ≤ p }
    requires high { p ≤ high * high }
    ensures greatest { IsRoot result p }
    ensures value { result ≡ root p }
{
    let mut low = low;
    let mut high = high.min(GREATEST);
    while low < high {
        let middle = low + (high - low).div_ceil(2);
        if middle * middle <= p {
            low = middle;
        } else {
            high = middle - 1;
        }
    }
    low
}
