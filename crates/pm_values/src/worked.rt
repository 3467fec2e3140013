//! Worked examples, each the contract of a function that does nothing.
ghost use Rattle.std.specs.Prelude.{◌≡◌, ℕ, List, [], ◌∷◌, pos, negsuc, true, false, codes};
ghost use Rattle.std.specs.declared.cmp.Ordering.TheVariants as ordering;
ghost use Rattle.pm_values.specs.declared.value.Value.TheVariants as value;
ghost use Rattle.pm_values.specs.declared.value.Kind.TheVariants as kind;
ghost use Rattle.pm_values.specs.declared.condition.Truth.TheVariants.{Yes, No, Unknown};
ghost use Rattle.pm_values.specs.declared.condition.Comparison.TheVariants as comparison;
ghost use Rattle.pm_values.specs.declared.condition.Cond.TheVariants as cond;
ghost use Rattle.pm_values.specs.Order.{value_cmp, values_cmp};
ghost use Rattle.pm_values.specs.Equality.{same_values, same_key};
ghost use Rattle.pm_values.specs.Condition.{keeps, truth};
ghost use Rattle.pm_values.specs.ValueText.{value_text};
ghost use Rattle.pm_values.specs.References.{has_target};
ghost use Rattle.pm_values.specs.Keys.{different_keys, greatest_multiplicity, is_greater_key, matching, multiplicity, worst};
ghost use Rattle.pm_values.specs.Worked.{above_five_and_a_half, always, column_against, is_one, mixed_keys, never, null_row, number_row, second_to_first, text_row};

/// NULL is less than every number, and a number is less than every text. Texts go by their bytes, and lists by the first
/// position at which they differ.
pub fn order_worked()
    ensures null_first { value_cmp value.Null (value.Int (negsuc 8)) ≡ ordering.Less }
    ensures numbers { value_cmp (value.Int (negsuc 8)) (value.Int (pos 1)) ≡ ordering.Less }
    ensures numbers_before_texts { value_cmp (value.Int (pos 9)) (value.Text (codes "1")) ≡ ordering.Less }
    ensures texts { value_cmp (value.Text (codes "B")) (value.Text (codes "a")) ≡ ordering.Less }
    ensures first_difference { values_cmp (value.Int (pos 1) ∷ value.Text (codes "b") ∷ []) (value.Int (pos 2) ∷ value.Null ∷ []) ≡ ordering.Less }
    ensures longer { values_cmp (number_row (pos 1)) (value.Int (pos 1) ∷ value.Null ∷ []) ≡ ordering.Less }
{}

/// A comparison with NULL is unknown, and what is unknown decides neither AND nor OR where another member does.
pub fn unknown_worked()
    ensures compared { truth null_row is_one ≡ Unknown }
    ensures negated { truth null_row (cond.Not is_one) ≡ Unknown }
    ensures and_no { truth null_row (cond.All (is_one ∷ never ∷ [])) ≡ No }
    ensures and_yes { truth null_row (cond.All (is_one ∷ always ∷ [])) ≡ Unknown }
    ensures or_yes { truth null_row (cond.Any (is_one ∷ always ∷ [])) ≡ Yes }
    ensures or_no { truth null_row (cond.Any (is_one ∷ never ∷ [])) ≡ Unknown }
{}

/// Numbers of different scales: 5.5 lies between 5 and 6, -0.05 below 0, and -0.5 below -0.45.
pub fn scales_worked()
    ensures six { keeps above_five_and_a_half (number_row (pos 6)) ≡ true }
    ensures five { keeps above_five_and_a_half (number_row (pos 5)) ≡ false }
    ensures below_zero { keeps (column_against comparison.Less 2 (pos 0) 0) (number_row (negsuc 4)) ≡ true }
    ensures below { keeps (column_against comparison.Less 1 (negsuc 44) 2) (number_row (negsuc 4)) ≡ true }
    ensures equal { keeps (column_against comparison.Equal 2 (negsuc 4) 1) (number_row (negsuc 49)) ≡ true }
{}

/// NULL is never the same key as NULL, and for grouping it is the same value.
pub fn null_worked()
    ensures key { same_key null_row null_row ≡ false }
    ensures group { same_values null_row null_row ≡ true }
    ensures one { same_key (number_row (pos 1)) (number_row (pos 1)) ≡ true }
{}

/// A fixed-point number is written with all of its decimals, and NULL as nothing.
pub fn text_worked()
    ensures decimals { value_text (kind.Num 2) (value.Int (pos 750)) ≡ codes "7.50" }
    ensures sign { value_text (kind.Num 2) (value.Int (negsuc 4)) ≡ codes "-0.05" }
    ensures whole { value_text kind.Int (value.Int (negsuc 8)) ≡ codes "-9" }
    ensures null { value_text kind.Int value.Null ≡ [] }
{}

/// Of the keys 1, NULL, '1', 1 and NULL, the key 1 is there twice, and NULL is no key that is there.
pub fn keys_worked()
    ensures twice { multiplicity (number_row (pos 1)) mixed_keys ≡ 2 }
    ensures never { multiplicity null_row mixed_keys ≡ 0 }
    ensures greatest { greatest_multiplicity (null_row ∷ text_row (codes "1") ∷ []) mixed_keys ≡ 1 }
    ensures worst { worst mixed_keys ≡ 2 }
    ensures matching { matching (number_row (pos 1)) mixed_keys ≡ 0 ∷ 3 ∷ [] }
    ensures unmatched { matching null_row mixed_keys ≡ [] }
    ensures different { different_keys mixed_keys ≡ number_row (pos 1) ∷ null_row ∷ text_row (codes "1") ∷ [] }
    ensures greater { is_greater_key null_row (number_row (pos 1)) ≡ true }
    ensures equal { is_greater_key null_row null_row ≡ false }
{}

/// The second column refers to the first column of the targets 1 and 2.
pub fn target_worked()
    ensures found { has_target second_to_first (number_row (pos 1) ∷ number_row (pos 2) ∷ []) (value.Int (pos 5) ∷ value.Int (pos 2) ∷ []) ≡ true }
    ensures absent { has_target second_to_first (number_row (pos 1) ∷ number_row (pos 2) ∷ []) (value.Int (pos 2) ∷ value.Int (pos 5) ∷ []) ≡ false }
{}
