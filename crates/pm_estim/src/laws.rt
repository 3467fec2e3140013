//! The laws of the estimators, each the contract of a function that does nothing.
ghost use Rattle.std.specs.Prelude.{◌≡◌, ℕ, ◌≤◌, List};
ghost use Rattle.pm_plan.specs.declared.gauge.Gauge.{Gauge};
ghost use Rattle.pm_plan.specs.declared.gauge.Bound.{Bound};
ghost use Rattle.pm_plan.specs.declared.gauge.Whole.{Whole};
ghost use Rattle.pm_plan.specs.Rows.{Db};
ghost use Rattle.pm_plan.specs.Tree.{Tree};
ghost use Rattle.pm_work.specs.First.{first_bound, most_work};
ghost use Rattle.pm_work.specs.Moments.{Counts, Gauges, HasGauges, gauge_in};
ghost use Rattle.pm_work.specs.Orderly.{Orderly};
ghost use Rattle.pm_work.specs.Fits.{IsSound, sizes_of};
ghost use Rattle.pm_bounds.specs.Bounds.{work_done, hi_whole};
ghost use Rattle.pm_estim.specs.Pipelines.{driven_handed, driven_hi};
ghost use Rattle.pm_estim.specs.Estimates.{SafeIsNear, PercentEncloses};
ghost use Rattle.pm_estim.specs.Certified.{AreCertified};
ghost use Rattle.pm_estim.specs.declared.pipes.Pipe.{Pipe};
ghost use Rattle.pm_estim.specs.Lists.{driven_sum, AreOf};

/// At every orderly vector the driver nodes have handed out at most their upper bounds, these are at least one row where
/// any event was taken, and they are within the upper bound of the whole work.
pub fn drivers_are_bounded()
    ensures handed { (db : Db) (tree : Tree) (K : Counts) (G : Gauges)
        → IsSound db tree → Orderly db tree 1 K → HasGauges db tree 1 K G → driven_handed tree G ≤ driven_hi tree G }
    ensures some { (db : Db) (tree : Tree) (K : Counts) (G : Gauges)
        → IsSound db tree → Orderly db tree 1 K → HasGauges db tree 1 K G → 1 ≤ work_done tree G → 1 ≤ driven_hi tree G }
    ensures within { (tree : Tree) (G : Gauges) → driven_hi tree G ≤ hi_whole tree G }
{}

/// The sums over the driver nodes, from lists, are those of the tree.
pub fn driven_sums_are_the_drivers()
    ensures handed { (tree : Tree) (pipes : List Pipe) (gauges : List Gauge) (bounds : List Bound) (whole : Whole)
        → AreOf tree pipes gauges bounds whole → driven_sum (λ g. g.handed) pipes gauges ≡ driven_handed tree (gauge_in gauges) }
    ensures within { (tree : Tree) (pipes : List Pipe) (gauges : List Gauge) (bounds : List Bound) (whole : Whole)
        → AreOf tree pipes gauges bounds whole → driven_sum (λ b. b.hi) pipes bounds ≡ driven_hi tree (gauge_in gauges) }
{}

/// The estimate safe is within the square root of the upper over the lower bound of the true fraction, up to the
/// rounding of the root.
pub fn safe_is_near()
    ensures { (below whole above : ℕ) → below ≤ whole → whole ≤ above → SafeIsNear below whole above }
{}

/// The two percentages of a progress line enclose the true one.
pub fn percentages_enclose()
    ensures { (work below whole above : ℕ)
        → 1 ≤ work → work ≤ below → below ≤ whole → whole ≤ above → PercentEncloses work below whole above }
{}

/// At every moment of a run of a sound tree, whose first bound is at most the most work, the bounds enclose the truth,
/// never widen, and are exact at the end, and the estimators are as near as said.
pub fn moments_are_certified()
    ensures { (db : Db) (tree : Tree) → IsSound db tree → first_bound (sizes_of db) tree ≤ most_work → AreCertified db tree }
{}
