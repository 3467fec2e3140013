//! Which operators stand in a tree, and in which order its rows ascend.
ghost use Rattle.std.specs.Prelude.{◌≡◌, ◌↔◌, ◌+◌, ◌-◌, ℕ, IsTrue, List, length, take, slice_get};
ghost use Rattle.pm_plan.specs.Tree.{Tree, keeps_columns};
ghost use Rattle.pm_plan.specs.Preorder.{Subplan, node_at, IsTreeAt};
ghost use Rattle.pm_plan.specs.Valid.{is_filter, is_group, is_joinable, has_group, is_source, leftmost_table, order_of, IsOrdered};
ghost use Rattle.pm_plan.specs.Standing.{Stands, subplan_table, side_columns};
ghost use Rattle.pm_plan.specs.Roots.{unary_of};
ghost use Rattle.pm_plan.specs.Fitting.{is_scan};

use crate::kinds::table_at;
use crate::plan::{Node, Pair};
use crate::root::{Root, Unary, number_after, root_at};
use crate::uniqueness::{Side, side_column};
use pm_values::TableDecls;

/// Whether the operator hands out rows of its child, all columns of them.
pub fn keeps_columns(op: Unary) -> bool
    ensures { result ≡ keeps_columns (unary_of op.entry) }
{
    match op {
        Unary::Filter(_) => true,
        Unary::Project(_) => false,
        Unary::Sort(_) => true,
        Unary::Group(..) => false,
    }
}

fn is_filter(op: Unary) -> bool
    ensures { result ≡ is_filter (unary_of op.entry) }
{
    match op {
        Unary::Filter(_) => true,
        Unary::Project(_) => false,
        Unary::Sort(_) => false,
        Unary::Group(..) => false,
    }
}

fn is_group(op: Unary) -> bool
    ensures { result ≡ is_group (unary_of op.entry) }
{
    match op {
        Unary::Filter(_) => false,
        Unary::Project(_) => false,
        Unary::Sort(_) => false,
        Unary::Group(..) => true,
    }
}

/// Whether no Project, Sort or Group stands in the tree of this number.
pub fn is_joinable(nodes: &[Node], n: usize) -> bool
    ensures { (t : Tree) → IsTreeAt nodes.now t n → result ≡ is_joinable t }
{
    let Some(root) = root_at(nodes, n) else {
        return false;
    };
    match root {
        Root::Scan { .. } => true,
        Root::Over { op, .. } => is_filter(op) && is_joinable(nodes, n + 1),
        Root::Join { right, .. } => {
            is_joinable(nodes, n + 1) && is_joinable(nodes, number_after(n, right))
        }
        Root::Index { .. } => is_joinable(nodes, n + 1),
        Root::Seek { .. } => false,
    }
}

/// Whether a Group stands in the tree of this number.
pub fn has_group(nodes: &[Node], n: usize) -> bool
    ensures { (t : Tree) → IsTreeAt nodes.now t n → result ≡ has_group t }
{
    let Some(root) = root_at(nodes, n) else {
        return false;
    };
    match root {
        Root::Scan { .. } => false,
        Root::Over { op, .. } => is_group(op) || has_group(nodes, n + 1),
        Root::Join { right, .. } => has_group(nodes, n + 1)
            || has_group(nodes, number_after(n, right)),
        Root::Index { .. } => has_group(nodes, n + 1),
        Root::Seek { .. } => false,
    }
}

/// The table that a Scan or a Seek of this number reads, None where another operator stands there.
pub fn scanned_table(nodes: &[Node], n: usize) -> Option<u32>
    ensures { (p : Subplan) → Stands nodes.now p n → result ≡ subplan_table p }
{
    let root = root_at(nodes, n)?;
    match root {
        Root::Scan { table, .. } => Some(table),
        Root::Over { .. } => None,
        Root::Join { .. } => None,
        Root::Index { .. } => None,
        Root::Seek { table, .. } => Some(table),
    }
}

// Whether a Scan stands at this number.
fn is_scan(nodes: &[Node], n: usize) -> bool
    ensures { (t : Tree) → IsTreeAt nodes.now t n → result ≡ is_scan t }
{
    let Some(root) = root_at(nodes, n) else {
        return false;
    };
    match root {
        Root::Scan { .. } => true,
        Root::Over { .. } => false,
        Root::Join { .. } => false,
        Root::Index { .. } => false,
        Root::Seek { .. } => false,
    }
}

/// Whether the tree of this number is a Scan, or a Filter over a Scan.
pub fn is_source(nodes: &[Node], n: usize) -> bool
    ensures { (t : Tree) → IsTreeAt nodes.now t n → result ≡ is_source t }
{
    let Some(root) = root_at(nodes, n) else {
        return false;
    };
    match root {
        Root::Scan { .. } => true,
        Root::Over { op, .. } => is_filter(op) && is_scan(nodes, n + 1),
        Root::Join { .. } => false,
        Root::Index { .. } => false,
        Root::Seek { .. } => false,
    }
}

// The table of the leftmost Scan of the tree of this number.
fn leftmost_table(nodes: &[Node], n: usize) -> u32
    ensures { (t : Tree) → IsTreeAt nodes.now t n → result ≡ leftmost_table t }
{
    let Some(root) = root_at(nodes, n) else {
        return 0;
    };
    match root {
        Root::Scan { table, .. } => table,
        Root::Over { .. } => leftmost_table(nodes, n + 1),
        Root::Join { .. } => leftmost_table(nodes, n + 1),
        Root::Index { .. } => leftmost_table(nodes, n + 1),
        Root::Seek { .. } => 0,
    }
}

// The ORDER of the table, no columns where it has none.
fn table_order(decls: &TableDecls, table: u32) -> &[u32]
    ensures { result.now ≡ order_of (slice_get decls.now table) }
{
    match table_at(decls, table) {
        Some(decl) => match decl.order() {
            Some(order) => order.as_slice(),
            None => &[],
        },
        None => &[],
    }
}

// Whether these columns of the pairs are the first ones of the order.
fn begins_with(order: &[u32], pairs: &[Pair], side: Side) -> bool
    ensures { IsTrue result ↔ side_columns side pairs.now ≡ take (length pairs.now) order.now }
{
    if pairs.len() > order.len() {
        return false;
    }
    for (i, pair) in pairs.iter().enumerate() {
        if side_column(side, *pair) != order[i] {
            return false;
        }
    }
    true
}

/// Whether the pairs are the first ORDER columns of the leftmost tables of two trees, in order.
pub fn is_ordered(
    nodes: &[Node],
    decls: &TableDecls,
    left: usize,
    right: usize,
    pairs: &[Pair],
) -> bool
    ensures { (l r : Tree) → IsTreeAt nodes.now l left → IsTreeAt nodes.now r right → (IsTrue result ↔ IsOrdered decls.now l r pairs.now) }
{
    let lefts = table_order(decls, leftmost_table(nodes, left));
    let rights = table_order(decls, leftmost_table(nodes, right));
    begins_with(lefts, pairs, Side::Left) && begins_with(rights, pairs, Side::Right)
}
