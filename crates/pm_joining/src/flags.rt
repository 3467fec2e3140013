//! What the declarations say of the sides of a join.
ghost use Rattle.std.specs.Prelude.{◌≡◌, ◌<◌, ◌^◌, All, None, if◌then◌else◌};
ghost use Rattle.pm_plan.specs.Tree.{pads};
ghost use Rattle.pm_values.specs.Table.{IsDeclaration};
ghost use Rattle.pm_plan.specs.Kinds.{width};
ghost use Rattle.pm_plan.specs.Flags.{scanned_table, refers_if, flags_of, join_flags, seek_flags};
ghost use Rattle.pm_plan.specs.Roots.{method_of};
ghost use Rattle.pm_joining.specs.Trees.{tree_of};
ghost use Rattle.pm_joining.specs.Tables.{table_decls};

use crate::references::refers;
use crate::tree::Tree;
use crate::uniqueness::{Side, is_key_among, is_unique};
use pm_plan::{Method, Pair, Unique, pads};
use pm_query::QueryTable;

// The table whose rows, all of them, are the tree's.
fn scanned_table(tree: &Tree) -> Option<u32>
    ensures { result ≡ scanned_table (tree_of tree.now) }
{
    match tree {
        Tree::Scan { table, .. } => Some(*table),
        Tree::Over { .. } => None,
        Tree::Join { .. } => None,
        Tree::Index { .. } => None,
    }
}

fn refers_if(tables: &[QueryTable], left: &Tree, pairs: &[Pair], whole: Option<u32>) -> bool
    requires { width (table_decls tables.now) (tree_of left.now) < 2 ^ 32 }
    ensures { result ≡ refers_if (table_decls tables.now) (tree_of left.now) pairs.now whole }
{
    match whole {
        Some(target) => refers(tables, left, 0, target, pairs),
        None => false,
    }
}

// Of a left side, where it is known whether the right side is unique, and of which table it is the whole.
fn flags_of(
    tables: &[QueryTable],
    left: &Tree,
    pairs: &[Pair],
    unique_right: bool,
    whole: Option<u32>,
) -> Unique
    requires declared { All IsDeclaration (table_decls tables.now) }
    requires narrow { width (table_decls tables.now) (tree_of left.now) < 2 ^ 32 }
    ensures { result ≡ flags_of (table_decls tables.now) (tree_of left.now) pairs.now unique_right whole }
{
    Unique {
        left: is_unique(tables, left, pairs, Side::Left),
        right: unique_right,
        total: refers_if(tables, left, pairs, whole),
    }
}

// The table whose whole a right side is, None where the join pads.
fn whole_table(method: Method, right: &Tree) -> Option<u32>
    ensures { result ≡ (if pads (method_of method) then None else scanned_table (tree_of right.now)) }
{
    if pads(method) {
        None
    } else {
        scanned_table(right)
    }
}

/// Of a join of two trees.
pub fn join_flags(
    tables: &[QueryTable],
    method: Method,
    left: &Tree,
    right: &Tree,
    pairs: &[Pair],
) -> Unique
    requires declared { All IsDeclaration (table_decls tables.now) }
    requires narrow { width (table_decls tables.now) (tree_of left.now) < 2 ^ 32 }
    ensures { result ≡ join_flags (table_decls tables.now) (method_of method) (tree_of left.now) (tree_of right.now) pairs.now }
{
    let unique_right = is_unique(tables, right, pairs, Side::Right);
    flags_of(
        tables,
        left,
        pairs,
        unique_right,
        whole_table(method, right),
    )
}

/// Of a left side with the rows that are looked up in a table.
pub fn seek_flags(tables: &[QueryTable], left: &Tree, table: u32, pairs: &[Pair]) -> Unique
    requires declared { All IsDeclaration (table_decls tables.now) }
    requires narrow { width (table_decls tables.now) (tree_of left.now) < 2 ^ 32 }
    ensures { result ≡ seek_flags (table_decls tables.now) (tree_of left.now) table pairs.now }
{
    let unique_right = is_key_among(tables, table, pairs, Side::Right);
    flags_of(tables, left, pairs, unique_right, Some(table))
}
