//! How many columns the rows of a tree have.
ghost use Rattle.std.specs.Prelude.{◌≡◌, ◌<◌, ◌^◌};
ghost use Rattle.pm_plan.specs.Kinds.{width};
ghost use Rattle.pm_joining.specs.Trees.{tree_of};
ghost use Rattle.pm_joining.specs.Tables.{table_decls};

use crate::tables::table_width;
use crate::tree::{Tree, Unary};
use pm_query::QueryTable;

/// How many columns the rows have.
pub fn width(tables: &[QueryTable], tree: &Tree) -> u32
    requires { width (table_decls tables.now) (tree_of tree.now) < 2 ^ 32 }
    ensures { result ≡ width (table_decls tables.now) (tree_of tree.now) }
{
    match tree {
        Tree::Scan { table, .. } => table_width(tables, *table),
        Tree::Over { op, child } => match op {
            Unary::Filter(_) => width(tables, child.get()),
            Unary::Project(columns) => columns.len() as u32,
            Unary::Sort(_) => width(tables, child.get()),
            Unary::Group { keys, items } => (keys.len() + items.len()) as u32,
        },
        Tree::Join { left, right, .. } => width(tables, left.get()) + width(tables, right.get()),
        Tree::Index { left, seek, .. } => width(tables, left.get())
            + table_width(tables, seek.table),
    }
}
