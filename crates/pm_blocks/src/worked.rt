//! Worked examples, as clauses that are computed.
ghost use Rattle.std.specs.Prelude.{◌≡◌, [], ◌∷◌, true, false, codes};
ghost use Rattle.pm_values.specs.declared.value.Value.TheVariants.{Null, Text};
ghost use Rattle.pm_plan.specs.declared.plan.Aggregate.TheVariants as aggregate;
ghost use Rattle.pm_plan.specs.Grouping.{grouped};
ghost use Rattle.pm_blocks.specs.SortedNumbers.{sorted_numbers};
ghost use Rattle.pm_blocks.specs.Worked.{number, mark, amounts, by, all_aggregates, greatest};

/// The amounts 7, NULL, 3, 7 and NULL: rows that tie stay in their order, and NULL comes first, or last where the order
/// is descending; a second key decides where the first one ties.
pub fn sorted_amounts()
    ensures ascending { sorted_numbers (by 0 false ∷ []) amounts ≡ 1 ∷ 4 ∷ 2 ∷ 0 ∷ 3 ∷ [] }
    ensures descending { sorted_numbers (by 0 true ∷ []) amounts ≡ 0 ∷ 3 ∷ 2 ∷ 1 ∷ 4 ∷ [] }
    ensures second { sorted_numbers (by 0 true ∷ by 1 false ∷ []) amounts ≡ 3 ∷ 0 ∷ 2 ∷ 4 ∷ 1 ∷ [] }
    ensures no_keys { sorted_numbers [] amounts ≡ 0 ∷ 1 ∷ 2 ∷ 3 ∷ 4 ∷ [] }
{}

/// The amounts by their marks, and all together: the number of rows and of values, the sum, the least and the greatest
/// value. NULL marks are one group, and NULL amounts are put aside.
pub fn grouped_amounts()
    ensures marks { grouped (1 ∷ []) all_aggregates amounts
        ≡ (Text (codes "b") ∷ number 1 ∷ number 1 ∷ number 7 ∷ number 7 ∷ number 7 ∷ [])
        ∷ (mark ∷ number 3 ∷ number 2 ∷ number 10 ∷ number 3 ∷ number 7 ∷ [])
        ∷ (Null ∷ number 1 ∷ number 0 ∷ Null ∷ Null ∷ Null ∷ []) ∷ [] }
    ensures together { grouped [] all_aggregates amounts ≡ (number 5 ∷ number 3 ∷ number 17 ∷ number 3 ∷ number 7 ∷ []) ∷ [] }
    ensures different { grouped (1 ∷ []) [] amounts ≡ (Text (codes "b") ∷ []) ∷ (mark ∷ []) ∷ (Null ∷ []) ∷ [] }
{}

/// No rows are one group without keys, and no group with some.
pub fn groups_of_no_rows()
    ensures together { grouped [] all_aggregates [] ≡ (number 0 ∷ number 0 ∷ Null ∷ Null ∷ Null ∷ []) ∷ [] }
    ensures marks { grouped (1 ∷ []) all_aggregates [] ≡ [] }
{}

/// A sum passes 64 bits.
pub fn long_sum()
    ensures { grouped [] (aggregate.Sum 0 ∷ []) ((greatest ∷ []) ∷ (greatest ∷ []) ∷ []) ≡ (number 18446744073709551614 ∷ []) ∷ [] }
{}
