//! The operators of a plan as a tree, while it is built.
ghost use Rattle.std.specs.Prelude.{◌≡◌, IfOk};
ghost use Rattle.pm_plan.specs.Tree.{Filter, Project, Sort, Group, Scan, Over, Join, Index};
ghost use Rattle.pm_plan.specs.Roots.{method_of};
ghost use Rattle.pm_joining.specs.Trees.{unary_of, on_of, seek_of, tree_of};

use pm_plan::{Aggregates, Label, Method, Pairs, SortKeys, Unique};
use pm_values::{Columns, Cond};
use sqlite_items::Boxed;
use std::alloc::{AllocError, Global};

/// What an operator over one child does.
#[derive(Drop)]
pub enum Unary {
    Filter(Cond),
    Project(Columns),
    Sort(SortKeys),
    Group { keys: Columns, items: Aggregates },
}

/// The pairs of columns that a join compares, and what the declarations say of its sides there.
#[derive(Drop)]
pub struct On {
    pub pairs: Pairs,
    pub unique: Unique,
}

/// A table whose rows are looked up for the rows of an index join's left side.
#[derive(Drop)]
pub struct Seek {
    pub table: u32,
    pub label: Label,
    pub on: On,
}

/// A tree of operators, which names no numbers of nodes.
#[derive(Drop)]
pub enum Tree {
    Scan {
        table: u32,
        label: Label,
    },
    Over {
        op: Unary,
        child: Boxed<Tree>,
    },
    Join {
        method: Method,
        on: On,
        left: Boxed<Tree>,
        right: Boxed<Tree>,
    },
    Index {
        left: Boxed<Tree>,
        seek: Seek,
        cond: Option<Cond>,
    },
}

impl Tree {
    /// An operator over a tree.
    pub fn over(alloc: Global, op: Unary, child: Boxed<Tree>) -> Result<Boxed<Tree>, AllocError>
        ensures { IfOk result (λ tree. tree_of tree ≡ Over (unary_of op) (tree_of child)) }
    {
        Boxed::new(alloc, Tree::Over { op, child })
    }

    /// A join of two trees.
    pub fn join(
        alloc: Global,
        method: Method,
        on: On,
        left: Boxed<Tree>,
        right: Boxed<Tree>,
    ) -> Result<Boxed<Tree>, AllocError>
        ensures { IfOk result (λ tree. tree_of tree ≡ Join (method_of method) (on_of on) (tree_of left) (tree_of right)) }
    {
        Boxed::new(
            alloc,
            Tree::Join {
                method,
                on,
                left,
                right,
            },
        )
    }

    /// A tree with the rows that a seek looks up for it.
    pub fn index(
        alloc: Global,
        left: Boxed<Tree>,
        seek: Seek,
        cond: Option<Cond>,
    ) -> Result<Boxed<Tree>, AllocError>
        ensures { IfOk result (λ tree. tree_of tree ≡ Index (tree_of left) (seek_of seek) cond) }
    {
        Boxed::new(alloc, Tree::Index { left, seek, cond })
    }
}
