//! Worked examples of what is built, each the contract of a function that does nothing: they are proved by computing.
ghost use Rattle.std.specs.Prelude.{◌≡◌, [], ◌∷◌, None, Some};
ghost use Rattle.pm_work.specs.First.{too_wide};
ghost use Rattle.pm_query.specs.declared.query.Choice.TheVariants as choice;
ghost use Rattle.pm_query.specs.Bound.{IsBound};
ghost use Rattle.pm_query.specs.Build.{tree_for};
ghost use Rattle.pm_query.specs.Worked.{many_orders};
ghost use Rattle.pm_build.specs.Worked.{two_keyless, two_keyless_two_keyed, sum_of_three, counted_above, orders_below_id, filtered_above, different_amounts, different_sorted, joined_both_ways, joined_once};

/// The widest plans that are built, and the next ones: by the first bound of the whole work, and by that of the rows below
/// a SUM.
pub fn widths_worked()
    ensures most_work { too_wide (50000000000000000 ∷ 49999999999999999 ∷ 100000000000000000 ∷ 1 ∷ []) (tree_for two_keyless_two_keyed (50000000000000000 ∷ 49999999999999999 ∷ 100000000000000000 ∷ 1 ∷ []) choice.Hash) ≡ None }
    ensures more_work { too_wide (50000000000000000 ∷ 49999999999999999 ∷ 100000000000000000 ∷ 2 ∷ []) (tree_for two_keyless_two_keyed (50000000000000000 ∷ 49999999999999999 ∷ 100000000000000000 ∷ 2 ∷ []) choice.Hash) ≡ Some 10000000000000000000000000000000001 }
    ensures most_summed { too_wide (1000000 ∷ 1000000 ∷ 1000000 ∷ []) (tree_for sum_of_three (1000000 ∷ 1000000 ∷ 1000000 ∷ []) choice.Hash) ≡ None }
    ensures more_summed { too_wide (1000000 ∷ 1000000 ∷ 1000001 ∷ []) (tree_for sum_of_three (1000000 ∷ 1000000 ∷ 1000001 ∷ []) choice.Hash) ≡ Some 1000001000000000000 }
{}

/// HAVING without GROUP BY stands above a group without keys; a condition of a later ON stands with the source that it
/// reads alone, and above the joins where it reads two; with DISTINCT the different rows are sorted; a pair that is written in
/// both directions is one pair.
pub fn places_worked()
    ensures having { tree_for many_orders (4 ∷ []) choice.Auto ≡ counted_above }
    ensures reads_both { tree_for orders_below_id (4 ∷ 3 ∷ []) choice.Hash ≡ filtered_above }
    ensures distinct { tree_for different_amounts (4 ∷ []) choice.Auto ≡ different_sorted }
    ensures both_ways { tree_for joined_both_ways (4 ∷ 3 ∷ []) choice.Auto ≡ joined_once }
{}

/// The query of the test is bound.
pub fn query_is_bound()
    ensures { IsBound two_keyless }
{}
