//! The bounds on the way from the node of an event up to the root are brought up to date.
ghost use Rattle.std.specs.Prelude.{◌≡◌, ◌↔◌, ◌⊎◌, ◌-◌, ◌<◌, ◌≤◌, IsTrue, length, slice_set};
ghost use Rattle.pm_bounds.specs.Moment.{AreGauges, ReadAreBounds, bound_in, plan_bounds};
ghost use Rattle.pm_refine.specs.Steps.{AreSums, SumsFit, AreRefreshed, IsStale};

use pm_bounds::bound_at;
use pm_plan::{Bound, Gauge, Plan, Root, Whole, root_at};

/// Computes the bound of the node of number `n` again, and takes it into the sums.
fn rewrite(plan: &Plan, n: u32, gauges: &[Gauge], bounds: &mut [Bound], whole: &mut Whole)
    requires moment { AreGauges plan.now gauges.now }
    requires room { length bounds.old ≡ length plan.now.nodes }
    requires first { 1 ≤ n }
    requires last { n ≤ length plan.now.nodes }
    requires read { ReadAreBounds plan.now n gauges.now bounds.old }
    requires sums { AreSums bounds.old whole.old }
    requires fit { SumsFit (slice_set bounds.old (n - 1) (bound_in (plan_bounds plan.now gauges.now) n)) }
    ensures written { bounds.new ≡ slice_set bounds.old (n - 1) (bound_in (plan_bounds plan.now gauges.now) n) }
    ensures sums { AreSums bounds.new whole.new }
    ensures work { whole.new.work ≡ whole.old.work }
{
    let position = n as usize - 1;
    let before = bounds[position];
    bound_at(plan, n, gauges, bounds);
    let after = bounds[position];
    whole.lo = whole.lo - before.lo + after.lo;
    whole.hi = whole.hi - before.hi + after.hi;
}

/// Whether a node has none of the numbers from `n` up to below `upto`.
fn is_outside(n: u32, upto: usize, node: u32) -> bool
    ensures { IsTrue result ↔ ((node < n) ⊎ (upto ≤ node)) }
{
    node < n || upto <= node as usize
}

/// Brings the tree of number `n`, whose nodes have numbers below `upto`, up to date after an event of a node, which may
/// stand elsewhere: then no bound of the tree changes.
pub fn refresh(
    plan: &Plan,
    n: u32,
    upto: usize,
    node: u32,
    gauges: &[Gauge],
    bounds: &mut [Bound],
    whole: &mut Whole,
)
    requires stale { IsStale plan.now n upto node gauges.now bounds.old }
    requires sums { AreSums bounds.old whole.old }
    ensures refreshed { AreRefreshed (n - 1) (upto - 1) bounds.old bounds.new (plan_bounds plan.now gauges.now) }
    ensures sums { AreSums bounds.new whole.new }
    ensures work { whole.new.work ≡ whole.old.work }
{
    if is_outside(n, upto, node) {
        return;
    }
    let Some(root) = root_at(plan.nodes.as_slice(), n as usize) else {
        unreachable!()
    };
    match root {
        Root::Scan { .. } => rewrite(plan, n, gauges, bounds, whole),
        Root::Over { child, .. } => {
            refresh(plan, child, upto, node, gauges, bounds, whole);
            rewrite(plan, n, gauges, bounds, whole);
        }
        Root::Join { left, right, .. } => {
            refresh(plan, left, right as usize, node, gauges, bounds, whole);
            refresh(plan, right, upto, node, gauges, bounds, whole);
            rewrite(plan, n, gauges, bounds, whole);
        }
        Root::Index { left, seek, .. } => {
            refresh(plan, left, seek as usize, node, gauges, bounds, whole);
            rewrite(plan, seek, gauges, bounds, whole);
            rewrite(plan, n, gauges, bounds, whole);
        }
        Root::Seek { .. } => unreachable!(),
    }
}
