//! The laws of the definitions, each the contract of a function that does nothing.
ghost use Rattle.std.specs.Prelude.{◌≡◌, ℕ, List, length};
ghost use Rattle.std.specs.Cmp.{IsStrictWeakOrder};
ghost use Rattle.std.specs.List.Sorted.{IsPermutation, IsSortedBy, IsStableBy};
ghost use Rattle.pm_values.specs.Row.{Row};
ghost use Rattle.pm_plan.specs.declared.plan.Node.{Node};
ghost use Rattle.pm_plan.specs.declared.plan.SortKey.{SortKey};
ghost use Rattle.pm_plan.specs.Sorting.{is_before, sorted};
ghost use Rattle.pm_plan.specs.Tree.{Tree, size};
ghost use Rattle.pm_plan.specs.Preorder.{nodes_of, tree_of, IsNumbered, IsTreeAt};

/// The nodes of a tree, written in preorder, are as many as it has, and are read as this tree again; and in a list that is
/// numbered so, each node of its tree stands at its number.
pub fn preorder_is_read()
    ensures tree { (tree : Tree) → tree_of (nodes_of tree 1) ≡ tree }
    ensures number { (tree : Tree) (n : ℕ) → length (nodes_of tree n) ≡ size tree }
    ensures stands { (nodes : List Node) → IsNumbered nodes → IsTreeAt nodes (tree_of nodes) 1 }
{}

/// Rows sorted by keys are a permutation of the rows, ascend, leave rows that tie in their order, and are the only list that
/// does; a row's being less than another by the keys is a strict weak order.
pub fn rows_are_sorted()
    ensures ordered { (keys : List SortKey) → IsStrictWeakOrder (is_before keys) }
    ensures permutation { (keys : List SortKey) (rows : List Row) → IsPermutation rows (sorted keys rows) }
    ensures sorted { (keys : List SortKey) (rows : List Row) → IsSortedBy (is_before keys) (sorted keys rows) }
    ensures stable { (keys : List SortKey) (rows : List Row) → IsStableBy (is_before keys) rows (sorted keys rows) }
    ensures only { (keys : List SortKey) (rows other : List Row) → IsSortedBy (is_before keys) other → IsStableBy (is_before keys) rows other → other ≡ sorted keys rows }
{}
