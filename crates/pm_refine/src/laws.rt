//! The law of refined bounds, the contract of a function that does nothing.
ghost use Rattle.std.specs.Prelude.{List};
ghost use Rattle.pm_plan.specs.declared.gauge.Gauge.{Gauge};
ghost use Rattle.pm_plan.specs.Rows.{Db};
ghost use Rattle.pm_plan.specs.Preorder.{tree_of};
ghost use Rattle.pm_work.specs.Moments.{Counts, gauge_in};
ghost use Rattle.pm_work.specs.Work.{whole_work};
ghost use Rattle.pm_bounds.specs.Enclosure.{Encloses};
ghost use Rattle.pm_bounds.specs.Moment.{AreGaugesOf, AllEnclosedBy, bound_in};
ghost use Rattle.pm_refine.specs.Refined.{Refined};
ghost use Rattle.pm_refine.specs.Refining.{StandsFor, bound_of_whole};

/// The bounds of a refiner enclose the rows of each operator, and its sums the whole work, over each database whose
/// gauges it stands for.
pub fn refined_bounds_enclose()
    ensures each { (r : Refined) (gauges : List Gauge) (db : Db) (K : Counts) → StandsFor r gauges → AreGaugesOf db K r.plan gauges
        → AllEnclosedBy db (tree_of r.plan.nodes) (gauge_in gauges) (bound_in r.bounds) }
    ensures whole { (r : Refined) (gauges : List Gauge) (db : Db) (K : Counts) → StandsFor r gauges → AreGaugesOf db K r.plan gauges
        → Encloses r.whole.work (bound_of_whole r.whole) (whole_work db (tree_of r.plan.nodes)) }
{}
