//! A node of a plan, by the number of its children.
ghost use Rattle.std.specs.Prelude.{◌≡◌, ◌-◌, ◌≤◌, ◌<◌, ◌^◌, ◌+◌, length, max, OnSome};
ghost use Rattle.std.specs.Option.{option_map};
ghost use Rattle.pm_plan.specs.Preorder.{node_at, unary_node, join_node};
ghost use Rattle.pm_plan.specs.Tree.{pads};
ghost use Rattle.pm_plan.specs.Roots.{unary_of, method_of, root_node};

use crate::plan::{Aggregates, Label, Node, Pairs, SortKeys, Unique};
use pm_values::{Columns, Cond};

/// What an operator over one child does.
#[derive(Clone, Copy)]
pub enum Unary<'a> {
    Filter(&'a Cond),
    Project(&'a Columns),
    Sort(&'a SortKeys),
    Group(&'a Columns, &'a Aggregates),
}

/// How two sides are joined.
#[derive(Clone, Copy)]
pub enum Method {
    Hash { pad: bool },
    Merge,
}

/// A node, with the numbers of its children.
#[derive(Clone, Copy)]
pub enum Root<'a> {
    Scan {
        table: u32,
        label: &'a Label,
    },
    Over {
        op: Unary<'a>,
        child: u32,
    },
    Join {
        method: Method,
        left: u32,
        right: u32,
        pairs: &'a Pairs,
        unique: Unique,
    },
    Index {
        left: u32,
        seek: u32,
        cond: &'a Option<Cond>,
    },
    Seek {
        left: u32,
        table: u32,
        label: &'a Label,
        pairs: &'a Pairs,
        unique: Unique,
    },
}

impl<'a> Root<'a> {
    fn over(op: Unary<'a>, child: &u32) -> Root<'a>
        ensures { root_node result ≡ unary_node (unary_of op.entry) child.now }
    {
        Root::Over { op, child: *child }
    }

    fn join(method: Method, left: &u32, right: &u32, pairs: &'a Pairs, unique: &Unique) -> Root<'a>
        ensures { root_node result ≡ join_node (method_of method) (record { pairs = pairs.now; unique = unique.now }) left.now right.now }
    {
        Root::Join {
            method,
            left: *left,
            right: *right,
            pairs,
            unique: *unique,
        }
    }

    // The node by its children.
    fn of(node: &'a Node) -> Root<'a>
        ensures { root_node result ≡ node.now }
    {
        match node {
            Node::Scan { table, label } => Root::Scan {
                table: *table,
                label,
            },
            Node::Filter { child, cond } => Root::over(Unary::Filter(cond), child),
            Node::Project { child, columns } => Root::over(Unary::Project(columns), child),
            Node::Sort { child, keys } => Root::over(Unary::Sort(keys), child),
            Node::Group { child, keys, items } => Root::over(Unary::Group(keys, items), child),
            Node::Hash {
                left,
                right,
                pairs,
                unique,
                pad,
            } => Root::join(Method::Hash { pad: *pad }, left, right, pairs, unique),
            Node::Merge {
                left,
                right,
                pairs,
                unique,
            } => Root::join(Method::Merge, left, right, pairs, unique),
            Node::Seek {
                left,
                table,
                pairs,
                label,
                unique,
            } => Root::Seek {
                left: *left,
                table: *table,
                label,
                pairs,
                unique: *unique,
            },
            Node::Index { left, seek, cond } => Root::Index {
                left: *left,
                seek: *seek,
                cond,
            },
        }
    }
}

/// The node of this number, from 1.
pub fn root_at(nodes: &[Node], n: usize) -> Option<Root<'_>>
    ensures node { option_map root_node result ≡ node_at nodes.now n }
    ensures within { OnSome result (n ≤ length nodes.now) }
    ensures bound { length nodes.now < 2 ^ 63 }
{
    Some(Root::of(nodes.get(n.saturating_sub(1))?))
}

/// The number of a right side of the node of number `n`: this one, where it comes after `n`.
pub fn number_after(n: usize, number: u32) -> usize
    requires { n < 2 ^ 63 }
    ensures { result ≡ max (n + 1) number }
{
    (n + 1).max(number as usize)
}

/// Whether a left row without a match is handed out with NULLs.
pub fn pads(method: Method) -> bool
    ensures { result ≡ pads (method_of method) }
{
    match method {
        Method::Hash { pad } => pad,
        Method::Merge => false,
    }
}
