//! Worked examples, as clauses that are computed.
ghost use Rattle.std.specs.Prelude.{◌≡◌, ◌++◌, [], ◌∷◌, true, false, map, codes};
ghost use Rattle.pm_values.specs.declared.value.Value.TheVariants.{Null, Text};
ghost use Rattle.pm_values.specs.Row.{cell};
ghost use Rattle.pm_values.specs.declared.value.Kind.TheVariants as kind;
ghost use Rattle.pm_values.specs.declared.condition.Cond.TheVariants as cond;
ghost use Rattle.pm_plan.specs.declared.plan.Aggregate.TheVariants as aggregate;
ghost use Rattle.pm_plan.specs.declared.plan.Node.TheVariants as node;
ghost use Rattle.pm_plan.specs.Tree.{Hash, Join, Over, Filter, Project, Scan, Sort};
ghost use Rattle.pm_plan.specs.Preorder.{seek_node, nodes_of};
ghost use Rattle.pm_plan.specs.Valid.{IsValid};
ghost use Rattle.pm_plan.specs.Sorting.{sorted};
ghost use Rattle.pm_plan.specs.Grouping.{grouped};
ghost use Rattle.pm_plan.specs.References.{refers};
ghost use Rattle.pm_plan.specs.Flags.{join_flags};
ghost use Rattle.pm_plan.specs.PlanLines.{plan_lines};
ghost use Rattle.pm_plan.specs.Worked.{number, label, pair, flags, on, order_rows, group_rows};
ghost use Rattle.pm_plan.specs.WorkedPlans.{plain, ordered, referring, nullable_referring, orders, customers, anns, is_ann, joined, sought_orders, ann_with_orders, customers_left_join, merged, looked_up, orders_with_customer, joined_otherwise, different_amounts, same_customers};

/// Orders by customer, the greatest first, and also by amount, the greatest first.
pub fn sorted_orders()
    ensures one { map (λ row. cell row 0) (sorted (record { column = 1; descending = true } ∷ []) order_rows)
        ≡ number 13 ∷ number 12 ∷ number 10 ∷ number 11 ∷ [] }
    ensures two { map (λ row. cell row 0) (sorted (record { column = 1; descending = true } ∷ record { column = 2; descending = true } ∷ []) order_rows)
        ≡ number 13 ∷ number 12 ∷ number 11 ∷ number 10 ∷ [] }
{}

/// The least and the greatest v of each k, NULL put aside.
pub fn least_and_greatest()
    ensures { grouped (1 ∷ []) (aggregate.Min 2 ∷ aggregate.Max 2 ∷ []) group_rows
        ≡ (Text (codes "b") ∷ number 1 ∷ number 5 ∷ []) ∷ (Null ∷ Null ∷ Null ∷ []) ∷ (Text (codes "a") ∷ number 2 ∷ number 2 ∷ []) ∷ [] }
{}

/// The lines of a total join, of a left join and of an index join.
pub fn lines_of_plans()
    ensures total { plan_lines 1 (orders_with_customer true).nodes
        ≡ codes "N 1 project 2\nN 2 hash 3 4 unique=right total\nN 3 scan ord o\nN 4 scan cust c\n" }
    ensures padded { plan_lines 1 customers_left_join.nodes
        ≡ codes "N 1 project 2\nN 2 lefthash 3 4 unique=left\nN 3 scan cust c\nN 4 scan ord o\n" }
    ensures index { plan_lines 1 looked_up.nodes
        ≡ codes "N 1 project 2\nN 2 index 3 4\nN 3 scan cust c\nN 4 seek ord o unique=left\n" }
{}

/// Each order has its customer where the orders refer to the customers: not without the reference, not where its column may
/// be NULL, not where the orders are padded, and not where the customers are filtered.
pub fn orders_that_refer()
    ensures refers { refers referring orders 1 (pair 1 0) ≡ true }
    ensures without { refers plain orders 1 (pair 1 0) ≡ false }
    ensures nullable { refers nullable_referring orders 1 (pair 1 0) ≡ false }
    ensures second { refers referring (Join (Hash false) (on (pair 0 1) (flags true false)) customers orders) 1 (pair 3 0) ≡ true }
    ensures padded { refers referring (Join (Hash true) (on (pair 0 1) (flags true false)) customers orders) 1 (pair 3 0) ≡ false }
    ensures whole { join_flags referring (Hash false) orders customers (pair 1 0) ≡ record { left = false; right = true; total = true } }
    ensures filtered { join_flags referring (Hash false) orders anns (pair 1 0) ≡ flags false true }
    ensures left_join { join_flags referring (Hash true) orders customers (pair 1 0) ≡ flags false true }
{}

/// Plans that are valid.
pub fn valid_plans()
    ensures hash { IsValid ann_with_orders plain }
    ensures padded { IsValid customers_left_join plain }
    ensures merged { IsValid merged ordered }
    ensures looked_up { IsValid looked_up plain }
    ensures total { IsValid (orders_with_customer true) referring }
    ensures groups { IsValid (different_amounts [] [] []) plain }
{}

/// The same plans with one change, each against another rule.
pub fn refused_plans()
    ensures numbering { ¬ (IsValid (record ann_with_orders { nodes = node.Scan 0 (label (codes "ord") (codes "o")) ∷ ann_with_orders.nodes }) plain) }
    ensures seek_elsewhere { ¬ (IsValid (record { nodes = seek_node sought_orders 1 ∷ []; heads = []; kinds = [] }) plain) }
    ensures label { ¬ (IsValid (joined_otherwise (Hash false) (pair 0 1) (flags true false) anns (Scan 0 (label (codes "orders") (codes "o")))) plain) }
    ensures column { ¬ (IsValid (record ann_with_orders { nodes = nodes_of (Over (Project (1 ∷ 5 ∷ [])) joined) 1 }) plain) }
    ensures pair_kinds { ¬ (IsValid (joined_otherwise (Hash false) (pair 1 1) (flags false false) anns orders) plain) }
    ensures scale { ¬ (IsValid (joined_otherwise (Hash false) (pair 0 1) (flags true false) (Over (Filter (is_ann 1)) customers) orders) plain) }
    ensures heads { ¬ (IsValid (record ann_with_orders { heads = codes "name" ∷ [] }) plain) }
    ensures kinds { ¬ (IsValid (record ann_with_orders { kinds = kind.Int ∷ kind.Int ∷ [] }) plain) }
    ensures nine_tables { ¬ (IsValid (record ann_with_orders { nodes = nodes_of (same_customers 8) 1 }) plain) }
    ensures block { ¬ (IsValid (joined_otherwise (Hash false) (pair 0 1) (flags true false) (Over (Sort []) anns) orders) plain) }
    ensures items { ¬ (IsValid (different_amounts (aggregate.CountAll ∷ []) (codes "n" ∷ []) (kind.Int ∷ [])) plain) }
    ensures no_pairs { ¬ (IsValid (joined_otherwise (Hash false) [] (flags false false) anns orders) plain) }
    ensures no_source { ¬ (IsValid (joined_otherwise (Hash false) (pair 0 1) (flags true false) anns (Over (Filter (cond.All [])) (Over (Filter (cond.All [])) orders))) plain) }
    ensures order { ¬ (IsValid merged plain) }
    ensures left_flag { ¬ (IsValid (joined_otherwise (Hash false) (pair 0 1) (flags false false) anns orders) plain) }
    ensures right_flag { ¬ (IsValid (joined_otherwise (Hash false) (pair 0 1) (flags true true) anns orders) plain) }
    ensures total_flag { ¬ (IsValid (orders_with_customer true) plain) }
    ensures no_total_flag { ¬ (IsValid (orders_with_customer false) referring) }
{}
