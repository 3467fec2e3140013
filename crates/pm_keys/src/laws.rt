//! Laws of entering keys, each the contract of a function that does nothing.
ghost use Rattle.std.specs.Prelude.{◌≡◌, ◌<◌, ℕ, List, [], length, get_or, Some};
ghost use Rattle.pm_values.specs.Row.{Row};
ghost use Rattle.pm_values.specs.Keys.{different_keys};
ghost use Rattle.pm_keys.specs.Numbers.{all_entered, number_of};

/// Keys entered one after the other are numbered in order of first appearance.
pub fn entered_keys_are_different_keys()
    ensures keys { (keys : List Row) → all_entered keys ≡ different_keys keys }
    ensures numbers { (keys : List Row) (n : ℕ) → n < length (different_keys keys) → number_of (get_or (different_keys keys) n []) (different_keys keys) ≡ Some n }
{}
