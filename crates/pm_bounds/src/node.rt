//! The bounds of one node, from those of the nodes that it reads.
ghost use Rattle.std.specs.Prelude.{◌≡◌, ◌-◌, ◌≤◌, ◌<◌, ◌^◌, length, slice_set};
ghost use Rattle.pm_work.specs.Moments.{gauge_in};
ghost use Rattle.pm_bounds.specs.Moment.{AreGauges, ReadAreBounds, bound_in, plan_bounds};
ghost use Rattle.pm_bounds.specs.Steps.{EachOf, IsNumberUpTo, IsSideIn, root_lo, root_bound};

use crate::lower::{lo_joined, lo_matched, lo_over};
use crate::upper::{Side, hi_joined, hi_over, index_hi, seek_hi};
use pm_plan::{Bound, Gauge, Plan, Root, root_at};

/// The node of this number as a side of the one that reads it.
fn side(node: u32, gauges: &[Gauge], bounds: &[Bound]) -> Side
    requires gauge { IsNumberUpTo (length gauges.now) node }
    requires bound { IsNumberUpTo (length bounds.now) node }
    ensures { IsSideIn (gauge_in gauges.now) (bound_in bounds.now) node result }
{
    let position = node as usize - 1;
    Side {
        count: gauges[position].handed,
        lo: bounds[position].lo,
        hi: bounds[position].hi,
    }
}

/// The bound of the node of number `n`.
fn bound_of(root: Root<'_>, n: usize, gauges: &[Gauge], bounds: &[Bound]) -> Bound
    requires gauge { IsNumberUpTo (length gauges.now) n }
    requires as_many { length bounds.now ≡ length gauges.now }
    requires read { EachOf (IsNumberUpTo (length gauges.now)) root }
    requires fits { root_lo root n (gauge_in gauges.now) (bound_in bounds.now) < 2 ^ 128 }
    ensures { result ≡ root_bound root.entry n (gauge_in gauges.now) (bound_in bounds.now) }
{
    let gauge = &gauges[n - 1];
    match root {
        Root::Scan { .. } => {
            let size = u128::from(gauge.size);
            Bound { lo: size, hi: size }
        }
        Root::Over { op, child } => {
            let child = side(child, gauges, bounds);
            Bound {
                lo: lo_over(op, gauge, &child),
                hi: hi_over(op, gauge, &child),
            }
        }
        Root::Join {
            method,
            left,
            right,
            unique,
            ..
        } => {
            let left = side(left, gauges, bounds);
            let right = side(right, gauges, bounds);
            Bound {
                lo: lo_joined(method, unique, gauge, &left),
                hi: hi_joined(method, unique, gauge, &left, &right),
            }
        }
        Root::Index { seek, .. } => {
            let seek = side(seek, gauges, bounds);
            Bound {
                lo: gauge.settled,
                hi: index_hi(gauge, &seek),
            }
        }
        Root::Seek { left, unique, .. } => {
            let left = side(left, gauges, bounds);
            Bound {
                lo: lo_matched(unique, gauge, &left),
                hi: seek_hi(unique, gauge, &left),
            }
        }
    }
}

/// Writes the bound of the node of number `n`.
pub fn write_bound(plan: &Plan, n: usize, gauges: &[Gauge], into: &mut [Bound])
    requires moment { AreGauges plan.now gauges.now }
    requires room { length into.old ≡ length plan.now.nodes }
    requires node { IsNumberUpTo (length plan.now.nodes) n }
    requires read { ReadAreBounds plan.now n gauges.now into.old }
    ensures { into.new ≡ slice_set into.old (n - 1) (bound_in (plan_bounds plan.now gauges.now) n) }
{
    let Some(root) = root_at(plan.nodes.as_slice(), n) else {
        unreachable!()
    };
    into[n - 1] = bound_of(root, n, gauges, into);
}

/// Writes the bound of one operator at a moment, in rows, and leaves the others. Those that it reads stand there: its
/// children's, and for a Seek that of its left side.
pub fn bound_at(plan: &Plan, node: u32, gauges: &[Gauge], into: &mut [Bound])
    requires moment { AreGauges plan.now gauges.now }
    requires room { length into.old ≡ length plan.now.nodes }
    requires first { 1 ≤ node }
    requires last { node ≤ length plan.now.nodes }
    requires read { ReadAreBounds plan.now node gauges.now into.old }
    ensures { into.new ≡ slice_set into.old (node - 1) (bound_in (plan_bounds plan.now gauges.now) node) }
{
    write_bound(plan, node as usize, gauges, into);
}
