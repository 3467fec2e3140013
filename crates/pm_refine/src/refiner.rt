//! The bounds of a plan at a moment, and at the moments after it.
ghost use Rattle.std.specs.Prelude.{◌≡◌, ◌≤◌, length, IfOk};
ghost use Rattle.pm_bounds.specs.Enclosure.{Narrows};
ghost use Rattle.pm_bounds.specs.Moment.{AreGauges};
ghost use Rattle.pm_refine.specs.Refining.{StandsFor, IsBefore, bound_of_whole};

use crate::refresh::refresh;
use pm_bounds::{bounds_all, whole};
use pm_plan::{Bound, Gauge, Plan, Whole};
use std::alloc::{AllocError, Global};
use std::marker::Model;

/// The bounds of each operator of a plan at a moment of a run, with their sums and the work done. Each event brings them
/// up to date: only the bounds on the way from the event's node up to the root are computed again.
#[derive(Drop)]
pub struct Refiner<'a> {
    plan: &'a Plan,
    bounds: Vec<Bound>,
    whole: Whole,
}

impl<'a> Model for Refiner<'a> {
    ghost use Rattle.pm_refine.specs.Refined.{Refined};

    ghost Value = { Refined };

    ghost use Rattle.std.specs.Coded.{codes};
    ghost use Rattle.pm_values.specs.contracts.condition.Cond as cond;

    ghost coded = { Prim.hlevel (codes, cond.the_row.coded) };

    ghost use Rattle.pm_refine.specs.Refining.{refined_of};

    ghost view = { refined_of };
}

impl<'a> Refiner<'a> {
    /// The bounds of a plan at a moment, from its gauges.
    pub fn new(alloc: Global, plan: &'a Plan, gauges: &[Gauge]) -> Result<Refiner<'a>, AllocError>
        requires { AreGauges plan.now gauges.now }
        ensures plan { IfOk result (λ refiner. refiner.plan ≡ plan.entry.now) }
        ensures stands { IfOk result (λ refiner. StandsFor refiner gauges.now) }
    {
        let mut bounds = vec![in alloc; Bound { lo: 0, hi: 0 }; plan.nodes.len()]?;
        bounds_all(plan, gauges, &mut bounds);
        let whole = whole(plan, gauges, &bounds);
        Ok(Refiner {
            plan,
            bounds,
            whole,
        })
    }

    /// Brings the bounds up to date after an event of this operator, which made these gauges. No bound widens.
    pub fn after(&mut self, node: u32, gauges: &[Gauge])
        requires first { 1 ≤ node }
        requires last { node ≤ length self.old.plan.nodes }
        requires event { IsBefore self.old node gauges.now }
        ensures plan { self.new.plan ≡ self.old.plan }
        ensures stands { StandsFor self.new gauges.now }
        ensures narrows { Narrows (bound_of_whole self.old.whole) (bound_of_whole self.new.whole) }
    {
        let plan = self.plan;
        let upto = plan.nodes.len() + 1;
        refresh(
            plan,
            1,
            upto,
            node,
            gauges,
            &mut self.bounds,
            &mut self.whole,
        );
        self.whole.work += 1;
    }

    /// The bounds of each operator, in rows, in the plan's order.
    pub fn bounds(&self) -> &[Bound]
        ensures { result.now ≡ self.now.bounds }
    {
        self.bounds.as_slice()
    }

    /// The work done, and the bounds of the whole work, in rows.
    pub fn total(&self) -> Whole
        ensures { result ≡ self.now.whole }
    {
        self.whole
    }
}
