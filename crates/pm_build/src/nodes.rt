//! A tree as the list of its nodes.
ghost use Rattle.std.specs.Prelude.{◌≡◌, ◌+◌, ◌<◌, ◌^◌, ◌++◌, IfOk, OnOk};
ghost use Rattle.pm_plan.specs.Tree.{size};
ghost use Rattle.pm_plan.specs.Roots.{method_of};
ghost use Rattle.pm_plan.specs.Preorder.{unary_node, join_node, seek_node, nodes_of};
ghost use Rattle.pm_joining.specs.Trees.{unary_of, on_of, seek_of, tree_of};

use pm_joining::{On, Seek, Tree, Unary};
use pm_plan::{Method, Node, Nodes};
use std::alloc::{AllocError, Global};

// How many nodes the tree has.
fn size(tree: &Tree) -> u32
    requires { size (tree_of tree.now) < 2 ^ 32 }
    ensures { result ≡ size (tree_of tree.now) }
{
    match tree {
        Tree::Scan { .. } => 1,
        Tree::Over { child, .. } => 1 + size(child.get()),
        Tree::Join { left, right, .. } => 1 + (size(left.get()) + size(right.get())),
        Tree::Index { left, .. } => 2 + size(left.get()),
    }
}

fn unary_node(op: Unary, child: u32) -> Node
    ensures { result ≡ unary_node (unary_of op) child }
{
    match op {
        Unary::Filter(cond) => Node::Filter { child, cond },
        Unary::Project(columns) => Node::Project { child, columns },
        Unary::Sort(keys) => Node::Sort { child, keys },
        Unary::Group { keys, items } => Node::Group { child, keys, items },
    }
}

fn join_node(method: Method, on: On, left: u32, right: u32) -> Node
    ensures { result ≡ join_node (method_of method) (on_of on) left right }
{
    let On { pairs, unique } = on;
    match method {
        Method::Hash { pad } => Node::Hash {
            left,
            right,
            pairs,
            unique,
            pad,
        },
        Method::Merge => Node::Merge {
            left,
            right,
            pairs,
            unique,
        },
    }
}

fn seek_node(seek: Seek, left: u32) -> Node
    ensures { result ≡ seek_node (seek_of seek) left }
{
    let Seek { table, label, on } = seek;
    Node::Seek {
        left,
        table,
        pairs: on.pairs,
        label,
        unique: on.unique,
    }
}

// The tree's nodes at the end, in preorder, the root with this number.
fn push_nodes(nodes: &mut Nodes, tree: Tree, n: u32) -> Result<(), AllocError>
    requires { n + size (tree_of tree) < 2 ^ 32 }
    ensures { OnOk result (nodes.new ≡ nodes.old ++ nodes_of (tree_of tree) n) }
{
    match tree {
        Tree::Scan { table, label } => nodes.push(Node::Scan { table, label }),
        Tree::Over { op, child } => {
            nodes.push(unary_node(op, n + 1))?;
            push_nodes(nodes, child.into_inner(), n + 1)
        }
        Tree::Join {
            method,
            on,
            left,
            right,
        } => {
            let after = n + 1 + size(left.get());
            nodes.push(join_node(method, on, n + 1, after))?;
            push_nodes(nodes, left.into_inner(), n + 1)?;
            push_nodes(nodes, right.into_inner(), after)
        }
        Tree::Index { left, seek, cond } => {
            let after = n + 1 + size(left.get());
            nodes.push(Node::Index {
                left: n + 1,
                seek: after,
                cond,
            })?;
            push_nodes(nodes, left.into_inner(), n + 1)?;
            nodes.push(seek_node(seek, n + 1))
        }
    }
}

/// The tree's nodes in preorder, numbered from 1.
pub fn nodes_of(alloc: Global, tree: Tree) -> Result<Nodes, AllocError>
    requires { 1 + size (tree_of tree) < 2 ^ 32 }
    ensures { IfOk result (λ nodes. nodes ≡ nodes_of (tree_of tree) 1) }
{
    let mut nodes = Nodes::new(alloc);
    push_nodes(&mut nodes, tree, 1)?;
    Ok(nodes)
}
