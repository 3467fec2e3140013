//! Whether the rows of a node agree nowhere in the columns of pairs, as far as the KEYs say.
ghost use Rattle.std.specs.Prelude.{◌≡◌, ◌+◌, ◌-◌, ◌≤◌, ℕ, List, nat_eq, length, Some};
ghost use Rattle.std.specs.List.{list_any, list_all};
ghost use Rattle.pm_plan.specs.Tree.{Seek};
ghost use Rattle.pm_plan.specs.Preorder.{Subplan, seek_node, node_at};
ghost use Rattle.pm_plan.specs.Joins.{right_columns};
ghost use Rattle.pm_plan.specs.Kinds.{table_width};
ghost use Rattle.pm_plan.specs.Unique.{unique_table};
ghost use Rattle.pm_plan.specs.Standing.{Stands, subplan_width, subplan_unique, side_column, side_columns, AgreeBelow};

use crate::kinds::table_at;
use crate::plan::{Node, Pair};
use crate::root::{Root, number_after, root_at};
use crate::shape::keeps_columns;
use pm_values::TableDecls;

/// A side of a join.
#[derive(Clone, Copy, Debug, PartialEq, Eq)]
pub enum Side {
    Left,
    Right,
}

/// The column of this side.
pub fn side_column(side: Side, pair: Pair) -> u32
    ensures { result ≡ side_column side pair }
{
    match side {
        Side::Left => pair.left,
        Side::Right => pair.right,
    }
}

// Whether the column is one of this side of the pairs.
fn is_among(pairs: &[Pair], side: Side, column: u32) -> bool
    ensures { result ≡ list_any (λ pair. nat_eq column (side_column side pair)) pairs.now }
{
    pairs.iter().any(|pair| column == side_column(side, *pair))
}

// Whether all these columns are among those of this side of the pairs.
fn are_among(key: &[u32], pairs: &[Pair], side: Side) -> bool
    ensures { result ≡ list_all (λ k. list_any (λ pair. nat_eq k (side_column side pair)) pairs.now) key.now }
{
    key.iter().all(|column| is_among(pairs, side, *column))
}

// Whether the table has a KEY that is wholly among the columns of this side of the pairs.
fn is_key_among(decls: &TableDecls, table: u32, pairs: &[Pair], side: Side) -> bool
    ensures { (columns : List ℕ) → AgreeBelow (table_width decls.now table) columns (side_columns side pairs.now) → result ≡ unique_table decls.now table columns }
{
    match table_at(decls, table) {
        Some(decl) => match decl.key() {
            Some(key) => are_among(key.as_slice(), pairs, side),
            None => false,
        },
        None => false,
    }
}

// Whether a Seek stands at this number that looks up a table that is unique on the columns of its pairs.
fn is_seek_unique(nodes: &[Node], decls: &TableDecls, n: usize) -> bool
    ensures { (s : Seek) (left : ℕ) → node_at nodes.now n ≡ Some (seek_node s left) → result ≡ unique_table decls.now s.table (right_columns s.on.pairs) }
{
    let Some(root) = root_at(nodes, n) else {
        return false;
    };
    match root {
        Root::Seek { table, pairs, .. } => {
            is_key_among(decls, table, pairs.as_slice(), Side::Right)
        }
        _ => false,
    }
}

/// Whether no two rows that the node of this number hands out agree in the columns of this side of the pairs and hold
/// no NULL there, as far as the KEYs say.
pub fn is_unique_at(
    nodes: &[Node],
    decls: &TableDecls,
    n: usize,
    pairs: &[Pair],
    side: Side,
) -> bool
    ensures { (p : Subplan) (columns : List ℕ)
        → Stands nodes.now p n
        → AgreeBelow (subplan_width decls.now p) columns (side_columns side pairs.now)
        → result ≡ subplan_unique decls.now p columns }
{
    let Some(root) = root_at(nodes, n) else {
        return false;
    };
    match &root {
        Root::Scan { table, .. } | Root::Seek { table, .. } => {
            is_key_among(decls, *table, pairs, side)
        }
        Root::Over { op, .. } => keeps_columns(*op)
            && is_unique_at(nodes, decls, n + 1, pairs, side),
        Root::Join {
            right,
            pairs: own,
            ..
        } => {
            is_unique_at(
                nodes,
                decls,
                number_after(n, *right),
                own.as_slice(),
                Side::Right,
            ) && is_unique_at(nodes, decls, n + 1, pairs, side)
        }
        Root::Index { seek, .. } => {
            is_seek_unique(nodes, decls, number_after(n, *seek))
                && is_unique_at(nodes, decls, n + 1, pairs, side)
        }
    }
}
