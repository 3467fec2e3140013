//! Worked examples, each the contract of a function that does nothing.
ghost use Rattle.std.specs.Prelude.{◌≡◌, pos, None, Some, [], ◌∷◌, codes};
ghost use Rattle.pm_values.specs.Worked.{mixed_keys, null_row, number_row, text_row};
ghost use Rattle.pm_keys.specs.Numbers.{all_entered, entered, number_of};

/// The keys 1, NULL, '1', 1 and NULL, entered one after the other, are three: 1 has number 0, NULL 1 and '1' 2.
pub fn keys_worked()
    ensures entered { all_entered mixed_keys ≡ number_row (pos 1) ∷ null_row ∷ text_row (codes "1") ∷ [] }
    ensures first { number_of (number_row (pos 1)) (all_entered mixed_keys) ≡ Some 0 }
    ensures null { number_of null_row (all_entered mixed_keys) ≡ Some 1 }
    ensures text { number_of (text_row (codes "1")) (all_entered mixed_keys) ≡ Some 2 }
    ensures absent { number_of (number_row (pos 2)) (all_entered mixed_keys) ≡ None }
    ensures again { entered null_row (null_row ∷ []) ≡ null_row ∷ [] }
    ensures new { entered (number_row (pos 1)) (null_row ∷ []) ≡ null_row ∷ number_row (pos 1) ∷ [] }
{}
