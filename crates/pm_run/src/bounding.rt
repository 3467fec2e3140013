//! The bounds of a run's plan: brought up to date after each event where progress lines are close, and computed for a line
//! where they are not.
ghost use Rattle.std.specs.Prelude.{◌≡◌, ◌≤◌, length, IfOk};
ghost use Rattle.pm_plan.specs.Preorder.{tree_of};
ghost use Rattle.pm_work.specs.Moments.{gauge_in};
ghost use Rattle.pm_bounds.specs.Bounds.{bounds_of, whole_of};
ghost use Rattle.pm_bounds.specs.Moment.{AreGauges};
ghost use Rattle.pm_run.specs.IsBounding.{IsBounding, IsBoundingBefore, bounds_in};

use pm_bounds::{bounds_all, whole};
use pm_plan::{Bound, Gauge, Plan, Whole};
use pm_refine::Refiner;
use std::alloc::{AllocError, Global};

/// Progress lines are close where at most so many events lie from one to the next: there it takes less time to refine bounds
/// after each event than to compute all of them for each line.
const CLOSE: u64 = 2;

#[derive(Drop)]
pub(crate) enum Bounding<'a> {
    /// The bounds are always those of the moment.
    Refined(Refiner<'a>),
    /// A list with room for a bound of each node, which is written where bounds are asked for.
    Computed(Vec<Bound>),
}

impl<'a> Bounding<'a> {
    /// The bounds of a plan at the moment of these gauges, for a progress line after each `every` events, or none.
    pub(crate) fn of(
        alloc: Global,
        plan: &'a Plan,
        gauges: &[Gauge],
        every: Option<u64>,
    ) -> Result<Bounding<'a>, AllocError>
        requires { AreGauges plan.now gauges.now }
        ensures { IfOk result (IsBounding plan.now gauges.now) }
    {
        match every {
            Some(every) if every <= CLOSE => {
                Ok(Bounding::Refined(Refiner::new(alloc, plan, gauges)?))
            }
            _ => {
                let nothing = Bound { lo: 0, hi: 0 };
                let bounds = Vec::from_elem(alloc, nothing, plan.nodes.len())?;
                Ok(Bounding::Computed(bounds))
            }
        }
    }

    /// Takes note of an event of this node, which made these gauges.
    pub(crate) fn note(&mut self, plan: &Plan, node: u32, gauges: &[Gauge])
        requires first { 1 ≤ node }
        requires last { node ≤ length plan.now.nodes }
        requires event { IsBoundingBefore plan.now node gauges.now self.old }
        ensures { IsBounding plan.now gauges.now self.new }
    {
        match self {
            Bounding::Refined(refiner) => refiner.after(node, gauges),
            Bounding::Computed(_) => {}
        }
    }

    /// The work done and the bounds of the whole work at this moment; `bounds` answers those of each operator from then on.
    pub(crate) fn whole(&mut self, plan: &Plan, gauges: &[Gauge]) -> Whole
        requires moment { AreGauges plan.now gauges.now }
        requires bounding { IsBounding plan.now gauges.now self.old }
        ensures value { result ≡ whole_of (tree_of plan.now.nodes) (gauge_in gauges.now) }
        ensures each { bounds_in self.new ≡ bounds_of (tree_of plan.now.nodes) 1 (gauge_in gauges.now) }
        ensures bounding { IsBounding plan.now gauges.now self.new }
    {
        match self {
            Bounding::Refined(refiner) => refiner.total(),
            Bounding::Computed(bounds) => {
                bounds_all(plan, gauges, bounds.as_mut_slice());
                whole(plan, gauges, bounds.as_slice())
            }
        }
    }

    /// The bounds of each operator, in rows, in the plan's order, where `whole` was asked for at this moment.
    pub(crate) fn bounds(&self) -> &[Bound]
        ensures { result.now ≡ bounds_in self.now }
    {
        match self {
            Bounding::Refined(refiner) => refiner.bounds(),
            Bounding::Computed(bounds) => bounds.as_slice(),
        }
    }
}
