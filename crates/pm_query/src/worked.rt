//! Worked examples of queries and their plans, each the contract of a function that does nothing: they are proved by
//! computing.
ghost use Rattle.std.specs.Prelude.{◌≡◌, [], ◌∷◌, None, Some, codes};
ghost use Rattle.pm_values.specs.declared.condition.Comparison.TheVariants as comparison;
ghost use Rattle.pm_values.specs.declared.value.Value.TheVariants.{Null, Text};
ghost use Rattle.pm_plan.specs.Worked.{number, pair, on, against, order_decl, customer_decl, ordered_order_decl, ordered_customer_decl, referring_order_decl, shop, customers_first, no_orders, orders_alone, groups};
ghost use Rattle.pm_work.specs.Worked.{hashed, sought_rows, sought_all, merged_rows, merged_few, counted, summed, looked_up, grouped_few, distinct_rows, total_join, padded_join};
ghost use Rattle.pm_query.specs.declared.query.Choice.TheVariants as choice;
ghost use Rattle.pm_query.specs.Answer.{answer};
ghost use Rattle.pm_query.specs.Build.{tree_for};
ghost use Rattle.pm_query.specs.Bound.{IsBound};
ghost use Rattle.pm_query.specs.Worked.{orders_sorted, descending, ranges_by_key, many_orders, different_counts, no_amount, conjunct, orders_with_names, large_orders, sums_by_key, different_keys, sums_by_customer, order_count, few_in_many, priced_items, equal, three_sources, two_orders, customers_left_joined, orders_twice, keyless_and_keyed};
ghost use Rattle.pm_query.specs.WorkedTrees.{few_scanned_by_hash, items_with_prices, three_by_hash, three_by_index, both_orders_merged, first_orders_merged, second_order_by_hash, sought_without_key, two_pairs_by_hash, keyed_sought, keyed_by_hash, orders_twice_joined, padded_filtered_above, padded_right_filtered, filtered_not_total};

/// A join with a condition on its left side: by a hash table, by an index, and by merging where both tables have an ORDER.
pub fn joins_worked()
    ensures rows { answer (large_orders order_decl customer_decl) shop ≡ (Text (codes "Ann") ∷ number 7 ∷ []) ∷ (Text (codes "Cy") ∷ number 9 ∷ []) ∷ [] }
    ensures hash { tree_for (large_orders order_decl customer_decl) (4 ∷ 3 ∷ []) choice.Auto ≡ hashed }
    ensures index { tree_for (large_orders order_decl customer_decl) (4 ∷ 3 ∷ []) choice.Index ≡ sought_rows }
    ensures index_of_all { tree_for (orders_with_names order_decl customer_decl []) (4 ∷ 3 ∷ []) choice.Index ≡ sought_all }
    ensures merge { tree_for (large_orders ordered_order_decl ordered_customer_decl) (4 ∷ 3 ∷ []) choice.Auto ≡ merged_rows }
    ensures merge_few { tree_for (orders_with_names ordered_order_decl ordered_customer_decl (conjunct None (against comparison.Equal 2 7) ∷ [])) (4 ∷ 3 ∷ []) choice.Merge ≡ merged_few }
    ensures by_hash_all_the_same { tree_for (large_orders ordered_order_decl ordered_customer_decl) (4 ∷ 3 ∷ []) choice.Hash ≡ hashed }
{}

/// A table with a KEY is looked up where its left side is at most an eighth of it.
pub fn index_worked()
    ensures small { tree_for few_in_many (2 ∷ 16 ∷ []) choice.Auto ≡ looked_up }
    ensures large { tree_for few_in_many (2 ∷ 15 ∷ []) choice.Auto ≡ few_scanned_by_hash }
{}

/// A side is unique only where its whole KEY is among the columns of the pairs.
pub fn flags_worked()
    ensures { tree_for priced_items (2 ∷ 9 ∷ []) choice.Hash ≡ items_with_prices }
{}

/// Grouping, HAVING, DISTINCT and ORDER BY.
pub fn groups_worked()
    ensures having_rows { answer sums_by_key groups ≡ (Text (codes "b") ∷ number 2 ∷ number 2 ∷ number 6 ∷ []) ∷ (Text (codes "a") ∷ number 1 ∷ number 1 ∷ number 2 ∷ []) ∷ [] }
    ensures having { tree_for sums_by_key (5 ∷ []) choice.Auto ≡ grouped_few }
    ensures distinct_answer { answer different_keys groups ≡ (Text (codes "b") ∷ []) ∷ (Text (codes "a") ∷ []) ∷ (Null ∷ []) ∷ [] }
    ensures distinct { tree_for different_keys (5 ∷ []) choice.Auto ≡ distinct_rows }
    ensures sorted_answer { answer sums_by_customer orders_alone ≡ (number 1 ∷ number 12 ∷ []) ∷ (number 3 ∷ number 9 ∷ []) ∷ (number 9 ∷ number 1 ∷ []) ∷ [] }
    ensures sorted { tree_for sums_by_customer (4 ∷ []) choice.Auto ≡ summed }
    ensures count_answer { answer order_count no_orders ≡ (number 0 ∷ []) ∷ [] }
    ensures count { tree_for order_count (0 ∷ []) choice.Auto ≡ counted }
{}

/// Three sources: an equality stands for one pair however often and in whichever order it is written; a condition on one
/// source goes to that source, on its own columns below a hash join and on the joined row at an index join; what no
/// source takes stands on top, in the order of the text.
pub fn three_sources_worked()
    ensures hash { tree_for three_sources (4 ∷ 3 ∷ 2 ∷ []) choice.Hash ≡ three_by_hash }
    ensures index { tree_for three_sources (4 ∷ 3 ∷ 2 ∷ []) choice.Index ≡ three_by_index }
{}

/// A merge join takes its pairs in the order of the two ORDERs, whose first columns they are; where they are not, a hash
/// join takes them in the order of the text.
pub fn orders_worked()
    ensures both { tree_for (two_orders (conjunct (Some 1) (equal 0 3) ∷ conjunct (Some 1) (equal 1 4) ∷ [])) (2 ∷ 2 ∷ []) choice.Auto ≡ both_orders_merged }
    ensures first { tree_for (two_orders (conjunct (Some 1) (equal 4 1) ∷ [])) (2 ∷ 2 ∷ []) choice.Merge ≡ first_orders_merged }
    ensures second_alone { tree_for (two_orders (conjunct (Some 1) (equal 0 3) ∷ [])) (2 ∷ 2 ∷ []) choice.Merge ≡ second_order_by_hash }
{}

/// A merge join comes before an index join, where both can be; an index join needs no KEY where it is asked for; the
/// left side's first bound decides, not the first table's size.
pub fn ways_worked()
    ensures merge_first { tree_for (large_orders ordered_order_decl ordered_customer_decl) (4 ∷ 64 ∷ []) choice.Auto ≡ merged_rows }
    ensures index_without_key { tree_for (two_orders (conjunct (Some 1) (equal 0 3) ∷ [])) (2 ∷ 2 ∷ []) choice.Index ≡ sought_without_key }
    ensures two_pairs_one_order { tree_for (orders_with_names ordered_order_decl ordered_customer_decl (conjunct (Some 1) (equal 0 3) ∷ [])) (4 ∷ 3 ∷ []) choice.Merge ≡ two_pairs_by_hash }
    ensures small { tree_for keyless_and_keyed (2 ∷ 3 ∷ 48 ∷ []) choice.Auto ≡ keyed_sought }
    ensures large { tree_for keyless_and_keyed (2 ∷ 3 ∷ 47 ∷ []) choice.Auto ≡ keyed_by_hash }
    ensures outer_unique { tree_for orders_twice (4 ∷ 3 ∷ []) choice.Hash ≡ orders_twice_joined }
{}

/// Rows are sorted by the first key, and by the next one where that is equal, also by columns that are not selected; the
/// least and the greatest value put NULL aside.
pub fn order_worked()
    ensures by_one { answer (orders_sorted (descending 1 ∷ [])) orders_alone ≡ (number 13 ∷ []) ∷ (number 12 ∷ []) ∷ (number 10 ∷ []) ∷ (number 11 ∷ []) ∷ [] }
    ensures by_two { answer (orders_sorted (descending 1 ∷ descending 2 ∷ [])) orders_alone ≡ (number 13 ∷ []) ∷ (number 12 ∷ []) ∷ (number 11 ∷ []) ∷ (number 10 ∷ []) ∷ [] }
    ensures ranges { answer ranges_by_key groups ≡ (number 1 ∷ number 5 ∷ []) ∷ (Null ∷ Null ∷ []) ∷ (number 2 ∷ number 2 ∷ []) ∷ [] }
    ensures none { answer many_orders orders_alone ≡ [] }
    ensures counts { answer different_counts groups ≡ (number 2 ∷ []) ∷ (number 1 ∷ []) ∷ [] }
{}

/// A source after LEFT JOIN is joined by a hash join that pads, whatever the choice; its ON is tested before NULLs are
/// given, and WHERE after.
pub fn left_join_worked()
    ensures rows { answer (customers_left_joined []) customers_first ≡ (Text (codes "Ann") ∷ number 5 ∷ []) ∷ (Text (codes "Ann") ∷ number 7 ∷ []) ∷ (Text (codes "Bob") ∷ Null ∷ []) ∷ (Text (codes "Cy") ∷ number 9 ∷ []) ∷ [] }
    ensures tree { tree_for (customers_left_joined []) (3 ∷ 4 ∷ []) choice.Index ≡ padded_join }
    ensures unmatched { answer (customers_left_joined (no_amount ∷ [])) customers_first ≡ (Text (codes "Bob") ∷ Null ∷ []) ∷ [] }
    ensures above { tree_for (customers_left_joined (no_amount ∷ [])) (3 ∷ 4 ∷ []) choice.Auto ≡ padded_filtered_above }
    ensures own { tree_for (customers_left_joined (conjunct (Some 1) (against comparison.Greater 4 5) ∷ [])) (3 ∷ 4 ∷ []) choice.Auto ≡ padded_right_filtered }
{}

/// A join along a reference is total, and is not where the right side is filtered.
pub fn total_join_worked()
    ensures total { tree_for (orders_with_names referring_order_decl customer_decl []) (3 ∷ 3 ∷ []) choice.Auto ≡ total_join }
    ensures filtered { tree_for (orders_with_names referring_order_decl customer_decl (conjunct None (against comparison.Greater 3 1) ∷ [])) (3 ∷ 3 ∷ []) choice.Auto ≡ filtered_not_total }
{}

/// The queries of the examples are bound.
pub fn queries_are_bound()
    ensures joined { IsBound (large_orders order_decl customer_decl) }
    ensures grouped { IsBound sums_by_key }
    ensures distinct { IsBound different_keys }
    ensures three { IsBound three_sources }
    ensures padded { IsBound (customers_left_joined (no_amount ∷ [])) }
{}
