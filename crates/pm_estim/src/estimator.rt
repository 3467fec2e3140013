//! What a progress line shows.
ghost use Rattle.std.specs.Prelude.{◌≡◌, ◌<◌, ◌^◌};
ghost use Rattle.pm_plan.specs.Tree.{Tree};
ghost use Rattle.pm_work.specs.Moments.{gauge_in};
ghost use Rattle.pm_estim.specs.Estimates.{shown_of};
ghost use Rattle.pm_estim.specs.Lists.{driven_sum, estimated, AreOf};

use crate::pipes::{Pipe, Pipes};
use pm_fraction::root_of_product;
use pm_plan::{Bound, Gauge, Shown, Whole};

/// What a progress line shows, in rows: the work and its bounds, dne over the driver nodes, and the lower side of safe,
/// which is left out where it could not be computed in 128 bits.
pub fn estimate(pipes: &Pipes, gauges: &[Gauge], bounds: &[Bound], whole: &Whole) -> Shown
    requires handed { driven_sum (λ gauge. gauge.handed) pipes.now gauges.now < 2 ^ 128 }
    requires within { driven_sum (λ bound. bound.hi) pipes.now bounds.now < 2 ^ 128 }
    ensures exact { result ≡ estimated pipes.now gauges.now bounds.now whole.now }
    ensures shown { (tree : Tree) → AreOf tree pipes.now gauges.now bounds.now whole.now → result ≡ shown_of tree (gauge_in gauges.now) }
{
    shown_from(pipes.as_slice(), gauges, bounds, whole)
}

fn shown_from(pipes: &[Pipe], gauges: &[Gauge], bounds: &[Bound], whole: &Whole) -> Shown
    requires handed { driven_sum (λ gauge. gauge.handed) pipes.now gauges.now < 2 ^ 128 }
    requires within { driven_sum (λ bound. bound.hi) pipes.now bounds.now < 2 ^ 128 }
    ensures { result ≡ estimated pipes.now gauges.now bounds.now whole.now }
{
    Shown {
        work: whole.work,
        lo: whole.lo,
        hi: whole.hi,
        dne_num: handed_of_drivers(pipes, gauges),
        dne_den: hi_of_drivers(pipes, bounds),
        safe_den: root_of_product(whole.lo, whole.hi),
    }
}

fn handed_of_drivers(pipes: &[Pipe], gauges: &[Gauge]) -> u128
    requires { driven_sum (λ gauge. gauge.handed) pipes.now gauges.now < 2 ^ 128 }
    ensures { result ≡ driven_sum (λ gauge. gauge.handed) pipes.now gauges.now }
{
    pipes
        .iter()
        .zip(gauges)
        .map(|(pipe, gauge)| if pipe.driver { gauge.handed } else { 0 })
        .sum()
}

fn hi_of_drivers(pipes: &[Pipe], bounds: &[Bound]) -> u128
    requires { driven_sum (λ bound. bound.hi) pipes.now bounds.now < 2 ^ 128 }
    ensures { result ≡ driven_sum (λ bound. bound.hi) pipes.now bounds.now }
{
    pipes
        .iter()
        .zip(bounds)
        .map(|(pipe, bound)| if pipe.driver { bound.hi } else { 0 })
        .sum()
}
