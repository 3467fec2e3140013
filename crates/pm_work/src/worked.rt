//! Worked examples of the definitions, each the contract of a function that does nothing: they are proved by computing.
ghost use Rattle.std.specs.Prelude.{◌≡◌, [], ◌∷◌, true, false, map, codes, None, Some};
ghost use Rattle.pm_values.specs.declared.value.Value.TheVariants.{Null, Text};
ghost use Rattle.pm_values.specs.References.{has_target};
ghost use Rattle.pm_plan.specs.Outputs.{output};
ghost use Rattle.pm_work.specs.Events.{trace};
ghost use Rattle.pm_work.specs.Work.{whole_work, scanned_rows};
ghost use Rattle.pm_plan.specs.Worked.{flags, number, shop, ordered_shop, no_orders, customers_alone, orders_alone, customers_first, referring_shop, few_and_many, keyless, groups, customer_rows, order_rows, known_order_rows};
ghost use Rattle.pm_work.specs.First.{first_sum, too_wide};
ghost use Rattle.pm_work.specs.Worked.{hashed, sought_rows, sought_all, merged_rows, merged_few, counted, order_ids, customers_from_two, summed, looked_up, looked_up_with, keyless_join, grouped_rows, grouped_few, distinct_rows, paired_rows, total_join, padded_join, customer_reference};

/// A hash join reads its right side first, and then hands out its matches right after each row of its left side.
pub fn hash_join_worked()
    ensures trace { trace shop hashed ≡ 5 ∷ 5 ∷ 5 ∷ 4 ∷ 4 ∷ 3 ∷ 2 ∷ 1 ∷ 4 ∷ 3 ∷ 2 ∷ 1 ∷ 4 ∷ [] }
    ensures work { whole_work shop hashed ≡ 13 }
    ensures scanned { scanned_rows shop hashed ≡ 7 }
    ensures rows { output shop hashed ≡ (Text (codes "Ann") ∷ number 7 ∷ []) ∷ (Text (codes "Cy") ∷ number 9 ∷ []) ∷ [] }
    ensures keyless { trace keyless keyless_join ≡ 4 ∷ 4 ∷ 4 ∷ 3 ∷ 2 ∷ 1 ∷ 2 ∷ 1 ∷ 3 ∷ 3 ∷ 2 ∷ 1 ∷ 2 ∷ 1 ∷ [] }
    ensures keyless_work { whole_work keyless keyless_join ≡ 14 }
{}

/// An index join looks up the matches of each left row; its Seek hands out a table's row once for each left row.
pub fn index_join_worked()
    ensures trace { trace shop sought_rows ≡ 4 ∷ 4 ∷ 3 ∷ 5 ∷ 2 ∷ 1 ∷ 4 ∷ 3 ∷ 5 ∷ 2 ∷ 1 ∷ 4 ∷ [] }
    ensures work { whole_work shop sought_rows ≡ 12 }
    ensures same_rows { output shop sought_rows ≡ output shop hashed }
    ensures twice { trace shop sought_all ≡ 3 ∷ 4 ∷ 2 ∷ 1 ∷ 3 ∷ 4 ∷ 2 ∷ 1 ∷ 3 ∷ 4 ∷ 2 ∷ 1 ∷ 3 ∷ [] }
    ensures twice_work { whole_work shop sought_all ≡ 13 }
    ensures twice_rows { output shop sought_all ≡ (Text (codes "Ann") ∷ number 5 ∷ []) ∷ (Text (codes "Ann") ∷ number 7 ∷ []) ∷ (Text (codes "Cy") ∷ number 9 ∷ []) ∷ [] }
    ensures once { trace (few_and_many ((number 1 ∷ []) ∷ (number 2 ∷ []) ∷ (number 3 ∷ []) ∷ (number 4 ∷ []) ∷ [])) looked_up ≡ 3 ∷ 4 ∷ 2 ∷ 1 ∷ 3 ∷ [] }
{}

/// A merge join reads its right side up to the first greater key, and what is left of it at the end.
pub fn merge_join_worked()
    ensures trace { trace ordered_shop merged_rows ≡ 4 ∷ 4 ∷ 3 ∷ 5 ∷ 5 ∷ 2 ∷ 1 ∷ 4 ∷ 3 ∷ 5 ∷ 2 ∷ 1 ∷ 4 ∷ [] }
    ensures work { whole_work ordered_shop merged_rows ≡ 13 }
    ensures same_rows { output ordered_shop merged_rows ≡ output shop hashed }
    ensures read_on { trace ordered_shop merged_few ≡ 4 ∷ 4 ∷ 3 ∷ 5 ∷ 5 ∷ 2 ∷ 1 ∷ 4 ∷ 4 ∷ 5 ∷ [] }
    ensures read_on_work { whole_work ordered_shop merged_few ≡ 10 }
{}

/// A filter hands out a row in the event after its child's, or not at all.
pub fn filter_worked()
    ensures trace { trace customers_alone customers_from_two ≡ 3 ∷ 3 ∷ 2 ∷ 1 ∷ 3 ∷ 2 ∷ 1 ∷ [] }
    ensures work { whole_work customers_alone customers_from_two ≡ 7 }
    ensures rows { output customers_alone customers_from_two ≡ (Text (codes "Bob") ∷ []) ∷ (Text (codes "Cy") ∷ []) ∷ [] }
{}

/// A grouping without keys hands out one row, over no rows too. With no rows and no grouping there is no event.
pub fn no_rows_worked()
    ensures counted { trace no_orders counted ≡ 2 ∷ 1 ∷ [] }
    ensures counted_work { whole_work no_orders counted ≡ 2 }
    ensures none { output no_orders counted ≡ (number 0 ∷ []) ∷ [] }
    ensures scanned { scanned_rows no_orders counted ≡ 0 }
    ensures empty { trace no_orders order_ids ≡ [] }
    ensures empty_work { whole_work no_orders order_ids ≡ 0 }
{}

/// NULLs are one group, a sum skips them, and in a join they match nothing.
pub fn groups_worked()
    ensures rows { output groups grouped_rows ≡ (Text (codes "b") ∷ number 2 ∷ number 2 ∷ number 6 ∷ []) ∷ (Null ∷ number 2 ∷ number 0 ∷ Null ∷ []) ∷ (Text (codes "a") ∷ number 1 ∷ number 1 ∷ number 2 ∷ []) ∷ [] }
    ensures trace { trace groups grouped_rows ≡ 3 ∷ 3 ∷ 3 ∷ 3 ∷ 3 ∷ 2 ∷ 1 ∷ 2 ∷ 1 ∷ 2 ∷ 1 ∷ [] }
    ensures work { whole_work groups grouped_rows ≡ 11 }
    ensures having { output groups grouped_few ≡ (Text (codes "b") ∷ number 2 ∷ number 2 ∷ number 6 ∷ []) ∷ (Text (codes "a") ∷ number 1 ∷ number 1 ∷ number 2 ∷ []) ∷ [] }
    ensures distinct { output groups distinct_rows ≡ (Text (codes "b") ∷ []) ∷ (Text (codes "a") ∷ []) ∷ (Null ∷ []) ∷ [] }
    ensures distinct_trace { trace groups distinct_rows ≡ 4 ∷ 3 ∷ 4 ∷ 3 ∷ 4 ∷ 3 ∷ 4 ∷ 3 ∷ 4 ∷ 3 ∷ 2 ∷ 2 ∷ 2 ∷ 1 ∷ 1 ∷ 1 ∷ [] }
    ensures distinct_work { whole_work groups distinct_rows ≡ 16 }
    ensures paired { output groups paired_rows ≡ (number 1 ∷ []) ∷ (number 1 ∷ []) ∷ (number 3 ∷ []) ∷ (number 5 ∷ []) ∷ (number 5 ∷ []) ∷ [] }
{}

/// A sort hands out its rows once all have come: by the first key, and by the second where that is equal.
pub fn sort_worked()
    ensures rows { output orders_alone summed ≡ (number 1 ∷ number 12 ∷ []) ∷ (number 3 ∷ number 9 ∷ []) ∷ (number 9 ∷ number 1 ∷ []) ∷ [] }
    ensures trace { trace orders_alone summed ≡ 4 ∷ 4 ∷ 4 ∷ 4 ∷ 3 ∷ 3 ∷ 3 ∷ 2 ∷ 1 ∷ 2 ∷ 1 ∷ 2 ∷ 1 ∷ [] }
    ensures work { whole_work orders_alone summed ≡ 13 }
{}

/// A sum is taken over 10^18 rows at most. Where a plan has two bounds that are too great, that of the whole work is told.
pub fn too_wide_worked()
    ensures many_summed { too_wide (1000001000000000000 ∷ []) summed ≡ Some 1000001000000000000 }
    ensures few_summed { too_wide (1000000000000000000 ∷ []) summed ≡ None }
    ensures none_summed { too_wide (1000001000000000000 ∷ []) counted ≡ None }
    ensures most_work { too_wide (5000000000000000000000000000000000 ∷ []) order_ids ≡ None }
    ensures more_work { too_wide (5000000000000000000000000000000001 ∷ []) order_ids ≡ Some 10000000000000000000000000000000002 }
    ensures work_first { too_wide (10000000000000000000000000000000000 ∷ []) summed ≡ Some 40000000000000000000000000000000000 }
{}

/// The most rows of one key are one where the KEY says so, and else all of the table's.
pub fn first_seek_worked()
    ensures keyed { first_sum (2 ∷ 4 ∷ []) looked_up ≡ 8 }
    ensures keyless { first_sum (2 ∷ 4 ∷ []) (looked_up_with (flags false false)) ≡ 26 }
{}

/// A left join hands out a left row without a match once, with NULLs.
pub fn left_join_worked()
    ensures trace { trace customers_first padded_join ≡ 4 ∷ 4 ∷ 4 ∷ 4 ∷ 3 ∷ 2 ∷ 1 ∷ 2 ∷ 1 ∷ 3 ∷ 2 ∷ 1 ∷ 3 ∷ 2 ∷ 1 ∷ [] }
    ensures work { whole_work customers_first padded_join ≡ 15 }
    ensures rows { output customers_first padded_join ≡ (Text (codes "Ann") ∷ number 5 ∷ []) ∷ (Text (codes "Ann") ∷ number 7 ∷ []) ∷ (Text (codes "Bob") ∷ Null ∷ []) ∷ (Text (codes "Cy") ∷ number 9 ∷ []) ∷ [] }
    ensures first { first_sum (3 ∷ 4 ∷ []) padded_join ≡ 21 }
    ensures narrow { too_wide (3 ∷ 4 ∷ []) padded_join ≡ None }
    ensures total { first_sum (3 ∷ 3 ∷ []) total_join ≡ 12 }
{}

/// An order whose customer is not there breaks its reference.
pub fn references_worked()
    ensures kept { map (has_target customer_reference customer_rows) known_order_rows ≡ true ∷ true ∷ true ∷ [] }
    ensures broken { map (has_target customer_reference customer_rows) order_rows ≡ true ∷ true ∷ true ∷ false ∷ [] }
{}
