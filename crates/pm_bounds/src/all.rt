//! The bounds of all nodes of a plan, and of the whole work.
ghost use Rattle.std.specs.Prelude.{◌≡◌, ◌≤◌, ◌<◌, ◌^◌, ℕ, length};
ghost use Rattle.pm_plan.specs.Rows.{Db};
ghost use Rattle.pm_plan.specs.Tree.{Tree};
ghost use Rattle.pm_plan.specs.Preorder.{tree_of, IsTreeAt};
ghost use Rattle.pm_work.specs.Moments.{Counts, gauge_in};
ghost use Rattle.pm_work.specs.Work.{whole_work};
ghost use Rattle.pm_bounds.specs.Bounds.{bounds_of, whole_of};
ghost use Rattle.pm_bounds.specs.Enclosure.{Encloses};
ghost use Rattle.pm_bounds.specs.Moment.{AreGauges, AreGaugesOf, AllEnclosedBy, bound_in, plan_bounds};
ghost use Rattle.pm_bounds.specs.Steps.{Stands, AgreeIn, AgreeElsewhere, sums_of};

use crate::node::write_bound;
use pm_plan::{Bound, Gauge, Plan, Root, Whole, number_after, root_at};

/// Writes the bounds of the tree of number `n`: of an operator after those of the nodes that it reads, and of a Seek in
/// its Index's turn.
fn write_tree(plan: &Plan, n: usize, gauges: &[Gauge], into: &mut [Bound])
    requires moment { AreGauges plan.now gauges.now }
    requires room { length into.old ≡ length plan.now.nodes }
    requires first { 1 ≤ n }
    requires stands { Stands plan.now.nodes n }
    ensures written { (t : Tree) → IsTreeAt plan.now.nodes t n → AgreeIn t n into.new (plan_bounds plan.now gauges.now) }
    ensures left { (t : Tree) → IsTreeAt plan.now.nodes t n → AgreeElsewhere t n into.new into.old }
{
    let Some(root) = root_at(plan.nodes.as_slice(), n) else {
        unreachable!()
    };
    match root {
        Root::Scan { .. } => write_bound(plan, n, gauges, into),
        Root::Over { .. } => {
            write_tree(plan, n + 1, gauges, into);
            write_bound(plan, n, gauges, into);
        }
        Root::Join { right, .. } => {
            write_tree(plan, n + 1, gauges, into);
            write_tree(plan, number_after(n, right), gauges, into);
            write_bound(plan, n, gauges, into);
        }
        Root::Index { seek, .. } => {
            write_tree(plan, n + 1, gauges, into);
            write_bound(plan, number_after(n, seek), gauges, into);
            write_bound(plan, n, gauges, into);
        }
        Root::Seek { .. } => unreachable!(),
    }
}

/// Writes the bounds of each operator at a moment of a run, in rows, in the plan's order. They enclose the operator's
/// rows over each database whose gauges these are.
pub fn bounds_all(plan: &Plan, gauges: &[Gauge], into: &mut [Bound])
    requires moment { AreGauges plan.now gauges.now }
    requires room { length into.old ≡ length plan.now.nodes }
    ensures exact { into.new ≡ bounds_of (tree_of plan.now.nodes) 1 (gauge_in gauges.now) }
    ensures encloses { (db : Db) (K : Counts) → AreGaugesOf db K plan.now gauges.now
        → AllEnclosedBy db (tree_of plan.now.nodes) (gauge_in gauges.now) (bound_in into.new) }
{
    write_tree(plan, 1, gauges, into);
}

/// The sums of the rows handed out, and of the bounds.
fn sums(gauges: &[Gauge], bounds: &[Bound]) -> Whole
    requires work { (sums_of gauges.now bounds.now).work < 2 ^ 128 }
    requires lo { (sums_of gauges.now bounds.now).lo < 2 ^ 128 }
    requires hi { (sums_of gauges.now bounds.now).hi < 2 ^ 128 }
    ensures { result ≡ sums_of gauges.now bounds.now }
{
    Whole {
        work: gauges.iter().map(|gauge| gauge.handed).sum(),
        lo: bounds.iter().map(|bound| bound.lo).sum(),
        hi: bounds.iter().map(|bound| bound.hi).sum(),
    }
}

/// The work done and the bounds of the whole work at a moment of a run, from the bounds of all operators. They enclose
/// the whole work over each database whose gauges these are.
pub fn whole(plan: &Plan, gauges: &[Gauge], bounds: &[Bound]) -> Whole
    requires moment { AreGauges plan.now gauges.now }
    requires bounds { bounds.now ≡ bounds_of (tree_of plan.now.nodes) 1 (gauge_in gauges.now) }
    ensures exact { result ≡ whole_of (tree_of plan.now.nodes) (gauge_in gauges.now) }
    ensures encloses { (db : Db) (K : Counts) → AreGaugesOf db K plan.now gauges.now
        → Encloses result.work (record { lo = result.lo; hi = result.hi }) (whole_work db (tree_of plan.now.nodes)) }
{
    sums(gauges, bounds)
}
