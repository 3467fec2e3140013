//! Worked examples of the bounds, each the contract of a function that does nothing: they are proved by computing.
ghost use Rattle.std.specs.Prelude.{◌≡◌, ◌+◌, ◌^◌, true, false, [], ◌∷◌};
ghost use Rattle.pm_plan.specs.Tree.{Hash, Merge};
ghost use Rattle.pm_plan.specs.Worked.{shop, ordered_shop, referring_shop, customers_first, no_orders, customers_alone, keyless, groups};
ghost use Rattle.pm_work.specs.Moments.{gauge_in, gauges_at};
ghost use Rattle.pm_work.specs.First.{first_bound};
ghost use Rattle.pm_work.specs.Fits.{sizes_of};
ghost use Rattle.pm_work.specs.Worked.{grouped_rows, hashed, sought_rows, merged_rows, counted, customers_from_two, keyless_join, total_join, padded_join};
ghost use Rattle.pm_bounds.specs.Bounds.{bounds_of, whole_at};
ghost use Rattle.pm_bounds.specs.Worked.{enclosed, bound, wholes, three_rows, three, customers_with, customers_looked_up, ordered_customers_first, ordered_keyless, keyless_merge, and_table, five_tables, first_column, two_keyed, unreferenced_join, customers_without_orders};

/// Where nothing is filtered or joined, the bounds are exact from the first event on.
pub fn exact_bounds_worked()
    ensures scan { wholes three_rows three (1 ∷ 2 ∷ 3 ∷ 4 ∷ 5 ∷ 6 ∷ []) ≡ enclosed 1 6 6 ∷ enclosed 2 6 6 ∷ enclosed 3 6 6 ∷ enclosed 4 6 6 ∷ enclosed 5 6 6 ∷ enclosed 6 6 6 ∷ [] }
    ensures count { wholes no_orders counted (1 ∷ 2 ∷ []) ≡ enclosed 1 2 2 ∷ enclosed 2 2 2 ∷ [] }
{}

/// A filter's bounds draw together as its child's rows are tested; a row that is kept counts before it is handed out.
pub fn filter_bounds_worked()
    ensures { wholes customers_alone customers_from_two (1 ∷ 2 ∷ 3 ∷ 4 ∷ 5 ∷ 6 ∷ 7 ∷ []) ≡ enclosed 1 3 7 ∷ enclosed 2 5 7 ∷ enclosed 3 5 7 ∷ enclosed 4 5 7 ∷ enclosed 5 7 7 ∷ enclosed 6 7 7 ∷ enclosed 7 7 7 ∷ [] }
{}

/// A grouping with keys hands out at least one row where its child does, before any row is read.
pub fn group_bounds_worked()
    ensures { wholes groups grouped_rows (0 ∷ 1 ∷ 2 ∷ 3 ∷ 4 ∷ 5 ∷ []) ≡ enclosed 0 7 15 ∷ enclosed 1 7 15 ∷ enclosed 2 9 15 ∷ enclosed 3 11 15 ∷ enclosed 4 11 13 ∷ enclosed 5 11 11 ∷ [] }
{}

/// A hash join whose right side has a KEY: a left row has at most one match.
pub fn keyed_join_bounds_worked()
    ensures first_half { wholes shop hashed (1 ∷ 2 ∷ 3 ∷ 4 ∷ 5 ∷ 6 ∷ []) ≡ enclosed 1 7 19 ∷ enclosed 2 7 19 ∷ enclosed 3 7 19 ∷ enclosed 4 7 16 ∷ enclosed 5 8 16 ∷ enclosed 6 10 16 ∷ [] }
    ensures second_half { wholes shop hashed (7 ∷ 8 ∷ 9 ∷ 10 ∷ 11 ∷ 12 ∷ 13 ∷ []) ≡ enclosed 7 10 16 ∷ enclosed 8 10 16 ∷ enclosed 9 11 16 ∷ enclosed 10 13 16 ∷ enclosed 11 13 16 ∷ enclosed 12 13 16 ∷ enclosed 13 13 13 ∷ [] }
    ensures before_any { bounds_of hashed 1 (gauge_in (gauges_at shop hashed 0)) ≡ bound 0 4 ∷ bound 0 4 ∷ bound 0 4 ∷ bound 4 4 ∷ bound 3 3 ∷ [] }
    ensures first { first_bound (sizes_of shop) hashed ≡ 19 }
{}

/// A hash join without a KEY: as the right side is read, the most frequent key bounds the matches of each left row.
pub fn keyless_join_bounds_worked()
    ensures { wholes keyless keyless_join (1 ∷ 2 ∷ 3 ∷ 4 ∷ 9 ∷ 10 ∷ []) ≡ enclosed 1 6 24 ∷ enclosed 2 6 18 ∷ enclosed 3 6 18 ∷ enclosed 4 10 18 ∷ enclosed 9 10 14 ∷ enclosed 10 14 14 ∷ [] }
{}

/// First bounds of large joins: a KEY on the right side keeps a join within its left side.
pub fn first_bounds_worked()
    ensures six { first_bound (1000000 ∷ 1000000 ∷ 1000000 ∷ 1000000 ∷ 1000000 ∷ 1000000 ∷ []) (first_column (and_table 5 false 4 five_tables)) ≡ 2000001000001000001000001000006000000 }
    ensures five { first_bound (1000000 ∷ 1000000 ∷ 1000000 ∷ 1000000 ∷ 1000000 ∷ []) (first_column five_tables) ≡ 2000001000001000001000005000000 }
    ensures at_the_limit { first_bound (50000000000000000 ∷ 49999999999999999 ∷ 100000000000000000 ∷ 1 ∷ []) two_keyed ≡ 10 ^ 34 }
    ensures past_the_limit { first_bound (50000000000000000 ∷ 49999999999999999 ∷ 100000000000000000 ∷ 2 ∷ []) two_keyed ≡ 10 ^ 34 + 1 }
{}

/// An index join: the rows that its Seek may still find bound it, and where the left side is unique they are at most the
/// table's.
pub fn index_join_bounds_worked()
    ensures right_unique { wholes shop sought_rows (0 ∷ 1 ∷ 3 ∷ 9 ∷ []) ≡ enclosed 0 4 20 ∷ enclosed 1 4 16 ∷ enclosed 3 6 16 ∷ enclosed 9 12 16 ∷ [] }
    ensures left_unique { wholes customers_first customers_looked_up (0 ∷ 1 ∷ 9 ∷ []) ≡ enclosed 0 3 15 ∷ enclosed 1 5 15 ∷ enclosed 9 10 12 ∷ [] }
{}

/// A merge join: the rows to come of each side may pair with the rows read and to come of the other one; a side that is
/// unique keeps the pairs within the rows of the other side.
pub fn merge_join_bounds_worked()
    ensures right_unique { wholes ordered_shop merged_rows (0 ∷ 1 ∷ 4 ∷ 10 ∷ []) ≡ enclosed 0 7 19 ∷ enclosed 1 7 16 ∷ enclosed 4 10 16 ∷ enclosed 10 13 16 ∷ [] }
    ensures left_unique { wholes ordered_customers_first (customers_with Merge) (0 ∷ 2 ∷ 10 ∷ []) ≡ enclosed 0 7 15 ∷ enclosed 2 9 15 ∷ enclosed 10 13 15 ∷ [] }
    ensures neither { wholes ordered_keyless keyless_merge (0 ∷ 4 ∷ 9 ∷ []) ≡ enclosed 0 6 24 ∷ enclosed 4 10 22 ∷ enclosed 9 14 20 ∷ [] }
{}

/// A hash join whose left side has a KEY.
pub fn left_unique_bounds_worked()
    ensures { wholes customers_first (customers_with (Hash false)) (0 ∷ 5 ∷ 11 ∷ []) ≡ enclosed 0 7 15 ∷ enclosed 5 11 15 ∷ enclosed 11 13 13 ∷ [] }
{}

/// A join along a reference has at least as many rows as its left side, where another join may have none. A left join has
/// as many too, and each of its left rows counts once more where it has more matches.
pub fn matched_bounds_worked()
    ensures total { wholes referring_shop total_join (0 ∷ 1 ∷ []) ≡ enclosed 0 12 12 ∷ enclosed 1 12 12 ∷ [] }
    ensures unreferenced { wholes referring_shop unreferenced_join (0 ∷ 1 ∷ []) ≡ enclosed 0 6 12 ∷ enclosed 1 6 12 ∷ [] }
    ensures padded { wholes customers_first padded_join (0 ∷ 4 ∷ 5 ∷ []) ≡ enclosed 0 13 21 ∷ enclosed 4 13 19 ∷ enclosed 5 15 19 ∷ [] }
    ensures unmatched { wholes customers_without_orders padded_join (0 ∷ 9 ∷ []) ≡ enclosed 0 9 9 ∷ enclosed 9 9 9 ∷ [] }
{}
