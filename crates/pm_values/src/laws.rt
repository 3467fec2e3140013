//! Laws of the order on values and of keys, each the contract of a function that does nothing.
ghost use Rattle.std.specs.Prelude.{◌≡◌, ◌≢◌, ◌↔◌, List, IsTrue, All};
ghost use Rattle.std.specs.declared.cmp.Ordering.TheVariants as ordering;
ghost use Rattle.std.specs.Ordering.{ordering_reverse};
ghost use Rattle.pm_values.specs.declared.value.Value.{Value};
ghost use Rattle.pm_values.specs.declared.value.Value.TheVariants as value;
ghost use Rattle.pm_values.specs.Order.{values_cmp};
ghost use Rattle.pm_values.specs.Equality.{same_values, same_key};

/// Two lists are one key exactly where they are equal and hold no NULL.
pub fn keys_are_equal_and_hold_no_null()
    ensures { (a b : List Value) → IsTrue (same_key a b) ↔ ((a ≡ b) × All (λ v. v ≢ value.Null) a) }
{}

/// For grouping, two lists are the same exactly where they are equal.
pub fn same_values_are_equal()
    ensures { (a b : List Value) → IsTrue (same_values a b) ↔ (a ≡ b) }
{}

/// The order on lists of values is total: Equal exactly where they are equal, the other way round the reverse, and
/// transitive.
pub fn values_are_ordered()
    ensures equal { (a b : List Value) → (values_cmp a b ≡ ordering.Equal) ↔ (a ≡ b) }
    ensures reversed { (a b : List Value) → values_cmp b a ≡ ordering_reverse (values_cmp a b) }
    ensures transitive { (a b c : List Value) → values_cmp a b ≢ ordering.Greater → values_cmp b c ≢ ordering.Greater → values_cmp a c ≢ ordering.Greater }
{}
