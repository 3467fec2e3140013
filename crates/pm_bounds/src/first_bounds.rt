//! The first bound of the whole work, from the sizes of the tables alone.
ghost use Rattle.std.specs.Prelude.{◌≡◌, ℕ, Some};
ghost use Rattle.pm_plan.specs.Tree.{Tree, Seek};
ghost use Rattle.pm_plan.specs.Preorder.{tree_of, node_at, seek_node, IsNumbered, IsTreeAt};
ghost use Rattle.pm_work.specs.First.{greatest, size_in, first_hi, first_seek, first_bound, unstarted, unstarted_seek, uncounted};
ghost use Rattle.pm_work.specs.Formulas.{seek_hi};
ghost use Rattle.pm_bounds.specs.Capped.{capped_sum, first_bounds};
ghost use Rattle.pm_bounds.specs.Steps.{computed, Stands, side_read};

use crate::upper::{Side, hi_joined, hi_over, index_hi, seek_hi};
use pm_fraction::add_capped;
use pm_plan::{Gauge, Node, Plan, Root, Unique, number_after, root_at};

/// Nothing is counted and nothing is settled.
const UNSTARTED: Gauge = Gauge {
    handed: 0,
    settled: 0,
    worst: 0,
    size: 0,
};

/// The first bound of an operator's rows, and the sum of it and of those below it, at most the greatest number.
#[derive(Clone, Copy)]
struct First {
    hi: u128,
    sum: u128,
}

/// A side that has handed out nothing.
fn uncounted(hi: u128) -> Side
    ensures { side_read result ≡ uncounted hi }
{
    Side {
        count: 0,
        lo: 0,
        hi,
    }
}

/// The rows of the table, 0 past the last one.
fn size_in(sizes: &[u64], table: u32) -> u64
    ensures { result ≡ size_in sizes.now table }
{
    match sizes.get(table as usize) {
        Some(size) => *size,
        None => 0,
    }
}

/// The first bound of a Seek, from that of its left side.
fn first_sought(unique: Unique, size: u64, left: u128) -> u128
    ensures { (seek : Seek) → seek.on.unique ≡ unique → result ≡ seek_hi computed seek.on.unique (unstarted_seek seek size) (uncounted left) }
{
    let gauge = Gauge {
        worst: if unique.right { 1 } else { size },
        size,
        ..UNSTARTED
    };
    seek_hi(unique, &gauge, &uncounted(left))
}

/// The first bound of the Seek of this number, from that of its left side.
fn first_seek(nodes: &[Node], sizes: &[u64], n: usize, left: u128) -> u128
    requires { (seek : Seek) × (child : ℕ) × (node_at nodes.now n ≡ Some (seek_node seek child)) }
    ensures { (seek : Seek) (child : ℕ) → node_at nodes.now n ≡ Some (seek_node seek child) → result ≡ first_seek computed sizes.now seek left }
{
    let Some(Root::Seek { table, unique, .. }) = root_at(nodes, n) else {
        unreachable!()
    };
    first_sought(unique, size_in(sizes, table), left)
}

/// The first bounds of the tree of number `n`.
fn first_of(nodes: &[Node], sizes: &[u64], n: usize) -> First
    requires { Stands nodes.now n }
    ensures hi { (t : Tree) → IsTreeAt nodes.now t n → result.hi ≡ first_hi computed sizes.now t }
    ensures sum { (t : Tree) → IsTreeAt nodes.now t n → result.sum ≡ capped_sum greatest (first_bounds computed sizes.now t) }
{
    let Some(root) = root_at(nodes, n) else {
        unreachable!()
    };
    match root {
        Root::Scan { table, .. } => {
            let hi = u128::from(size_in(sizes, table));
            First { hi, sum: hi }
        }
        Root::Over { op, .. } => {
            let child = first_of(nodes, sizes, n + 1);
            let hi = hi_over(op, &UNSTARTED, &uncounted(child.hi));
            First {
                hi,
                sum: add_capped(hi, child.sum),
            }
        }
        Root::Join {
            method,
            right,
            unique,
            ..
        } => {
            let left = first_of(nodes, sizes, n + 1);
            let right = first_of(nodes, sizes, number_after(n, right));
            let hi = hi_joined(
                method,
                unique,
                &UNSTARTED,
                &uncounted(left.hi),
                &uncounted(right.hi),
            );
            First {
                hi,
                sum: add_capped(hi, add_capped(left.sum, right.sum)),
            }
        }
        Root::Index { seek, .. } => {
            let left = first_of(nodes, sizes, n + 1);
            let seek = first_seek(nodes, sizes, number_after(n, seek), left.hi);
            let hi = index_hi(&UNSTARTED, &uncounted(seek));
            First {
                hi,
                sum: add_capped(hi, add_capped(left.sum, seek)),
            }
        }
        Root::Seek { .. } => unreachable!(),
    }
}

/// The first bound of a plan's whole work over tables of these sizes, in rows, or the greatest number where it is beyond
/// that.
pub fn first_bound(plan: &Plan, sizes: &[u64]) -> u128
    requires { IsNumbered plan.now.nodes }
    ensures { result ≡ first_bound sizes.now (tree_of plan.now.nodes) }
{
    first_of(plan.nodes.as_slice(), sizes, 1).sum
}
