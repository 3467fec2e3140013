//! Whether no two rows of a tree agree in the columns of pairs, as the KEYs say.
ghost use Rattle.std.specs.Prelude.{◌≡◌, All, nat_eq};
ghost use Rattle.std.specs.List.{list_any, list_all};
ghost use Rattle.pm_values.specs.Table.{IsDeclaration};
ghost use Rattle.pm_plan.specs.Tree.{keeps_columns};
ghost use Rattle.pm_plan.specs.Unique.{unique_table, unique_on};
ghost use Rattle.pm_joining.specs.Trees.{unary_of, tree_of};
ghost use Rattle.pm_joining.specs.Tables.{table_decls};
ghost use Rattle.pm_joining.specs.Sides.{side_column, side_columns};

use crate::tables::decl_at;
use crate::tree::{Tree, Unary};
use pm_plan::Pair;
use pm_query::QueryTable;

/// A side of a join.
#[derive(Clone, Copy)]
pub enum Side {
    Left,
    Right,
}

fn side_column(side: Side, pair: Pair) -> u32
    ensures { result ≡ side_column side pair }
{
    match side {
        Side::Left => pair.left,
        Side::Right => pair.right,
    }
}

// Whether the column is one of this side of the pairs.
fn is_among(pairs: &[Pair], side: Side, column: u32) -> bool
    ensures { result ≡ list_any (λ pair. nat_eq column (side_column side pair)) pairs.now }
{
    pairs.iter().any(|pair| column == side_column(side, *pair))
}

// Whether all these columns are.
fn are_among(key: &[u32], pairs: &[Pair], side: Side) -> bool
    ensures { result ≡ list_all (λ k. list_any (λ pair. nat_eq k (side_column side pair)) pairs.now) key.now }
{
    key.iter().all(|column| is_among(pairs, side, *column))
}

/// Whether the table has a KEY that is wholly among the columns of this side of the pairs.
pub fn is_key_among(tables: &[QueryTable], table: u32, pairs: &[Pair], side: Side) -> bool
    ensures { result ≡ unique_table (table_decls tables.now) table (side_columns side pairs.now) }
{
    match decl_at(tables, table) {
        Some(decl) => match decl.key() {
            Some(key) => are_among(key.as_slice(), pairs, side),
            None => false,
        },
        None => false,
    }
}

/// Whether the operator hands out rows of its child, all columns of them.
pub fn keeps_columns(op: &Unary) -> bool
    ensures { result ≡ keeps_columns (unary_of op.now) }
{
    match op {
        Unary::Filter(_) => true,
        Unary::Project(_) => false,
        Unary::Sort(_) => true,
        Unary::Group { .. } => false,
    }
}

/// Whether no two rows of the tree agree in the columns of this side of the pairs and hold no NULL there.
pub fn is_unique(tables: &[QueryTable], tree: &Tree, pairs: &[Pair], side: Side) -> bool
    requires { All IsDeclaration (table_decls tables.now) }
    ensures { result ≡ unique_on (table_decls tables.now) (tree_of tree.now) (side_columns side pairs.now) }
{
    match tree {
        Tree::Scan { table, .. } => is_key_among(tables, *table, pairs, side),
        Tree::Over { op, child } => keeps_columns(op)
            && is_unique(tables, child.get(), pairs, side),
        Tree::Join {
            on,
            left,
            right,
            ..
        } => is_unique(tables, right.get(), on.pairs.as_slice(), Side::Right)
            && is_unique(tables, left.get(), pairs, side),
        Tree::Index { left, seek, .. } => is_key_among(
            tables,
            seek.table,
            seek.on.pairs.as_slice(),
            Side::Right,
        ) && is_unique(tables, left.get(), pairs, side),
    }
}
