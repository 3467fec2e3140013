//! Sums, products, roots and shares at the ends of their range.
use pm_fraction::{add_capped, hundredths_down, hundredths_up, mul_capped, root_of_product};

#[test]
fn results_at_the_ends(rt: HostRuntime) {
    const HALF: u128 = 1 << 64;
    const LIMIT: u128 = 10_000_000_000_000_000_000_000_000_000_000_000;
    let cases = [
        ("root", root_of_product(u128::MAX, 1).unwrap_or(0), HALF - 1),
        ("product", mul_capped(HALF, HALF), u128::MAX),
        ("sum", add_capped(u128::MAX, 1), u128::MAX),
        ("share up", hundredths_up(1, LIMIT), 1),
        ("share down", hundredths_down(1, LIMIT), 0),
    ];
    for (name, got, want) in cases {
        assert_eq!(rt; got, want, "{name}");
    }
}
