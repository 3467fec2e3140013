//! The laws of the definitions, each the contract of a function that does nothing.
ghost use Rattle.std.specs.Prelude.{◌≡◌, ℕ, List, [], ◌∷◌, ◌++◌, length, map, slice_set, None, Some};
ghost use Rattle.std.specs.List.{range_with_len};
ghost use Rattle.std.specs.List.Sorted.{IsPermutation};
ghost use Rattle.pm_values.specs.Row.{Row, pick};
ghost use Rattle.pm_keys.specs.Numbers.{number_of};
ghost use Rattle.pm_plan.specs.declared.plan.Aggregate.{Aggregate};
ghost use Rattle.pm_plan.specs.declared.plan.SortKey.{SortKey};
ghost use Rattle.pm_plan.specs.Joins.{keys_of};
ghost use Rattle.pm_plan.specs.Sorting.{sorted};
ghost use Rattle.pm_plan.specs.Grouping.{group_row, grouped};
ghost use Rattle.pm_blocks.specs.GroupState.{found_keys};
ghost use Rattle.pm_blocks.specs.SortedNumbers.{row_at, sort_columns, keys_alone, sorted_numbers};

/// The sorted numbers are the numbers of all rows, their rows are the stable sort of the rows, and they depend on nothing but the
/// values in the keys' columns.
pub fn numbers_are_sorted()
    ensures permutation { (keys : List SortKey) (rows : List Row) → IsPermutation (range_with_len 0 (length rows)) (sorted_numbers keys rows) }
    ensures rows { (keys : List SortKey) (rows : List Row) → map (row_at rows) (sorted_numbers keys rows) ≡ sorted keys rows }
    ensures alone { (keys : List SortKey) (rows : List Row) → sorted_numbers (keys_alone keys) (keys_of (sort_columns keys) rows) ≡ sorted_numbers keys rows }
{}

/// There is a group for each different key, and one without columns.
pub fn groups_are_different_keys()
    ensures { (keys : List ℕ) (items : List Aggregate) (rows : List Row) → length (grouped keys items rows) ≡ length (found_keys keys rows) }
{}

/// One more row changes the group of its key alone, or makes a group at the end where its key is new.
pub fn groups_of_one_more_row()
    ensures old { (keys : List ℕ) (items : List Aggregate) (rows : List Row) (row : Row) (n : ℕ) → number_of (pick keys row) (found_keys keys rows) ≡ Some n
        → grouped keys items (rows ++ row ∷ []) ≡ slice_set (grouped keys items rows) n (group_row keys items (rows ++ row ∷ []) (pick keys row)) }
    ensures new { (keys : List ℕ) (items : List Aggregate) (rows : List Row) (row : Row) → number_of (pick keys row) (found_keys keys rows) ≡ None
        → grouped keys items (rows ++ row ∷ []) ≡ grouped keys items rows ++ group_row keys items (rows ++ row ∷ []) (pick keys row) ∷ [] }
{}
