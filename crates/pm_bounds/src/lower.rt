//! The lower bounds of operators.
ghost use Rattle.std.specs.Prelude.{◌≡◌, ◌<◌, ◌^◌, max, min};
ghost use Rattle.pm_plan.specs.Roots.{unary_of, method_of};
ghost use Rattle.pm_bounds.specs.Bounds.{lo_over, lo_matched, lo_joined};

use crate::upper::Side;
use pm_plan::{Gauge, Method, Unary, Unique};

/// Of an operator over a child.
pub fn lo_over(op: Unary<'_>, gauge: &Gauge, child: &Side) -> u128
    ensures { result ≡ lo_over (unary_of op.entry) gauge.now child.now.lo }
{
    match op {
        Unary::Filter(_) => gauge.settled,
        Unary::Project(_) | Unary::Sort(_) => child.lo,
        Unary::Group(keys, _) => {
            if keys.is_empty() {
                1
            } else {
                gauge.settled.max(child.lo.min(1))
            }
        }
    }
}

/// Of a join that does not pad, from what is settled: where each left row has a match, at least as many as on the left.
pub fn lo_matched(unique: Unique, gauge: &Gauge, left: &Side) -> u128
    ensures { result ≡ lo_matched unique gauge.now.settled left.now.lo }
{
    if unique.total {
        gauge.settled.max(left.lo)
    } else {
        gauge.settled
    }
}

/// Of a join.
pub fn lo_joined(method: Method, unique: Unique, gauge: &Gauge, left: &Side) -> u128
    requires { lo_joined (method_of method) unique gauge.now left.now.count left.now.lo < 2 ^ 128 }
    ensures { result ≡ lo_joined (method_of method) unique gauge.now left.now.count left.now.lo }
{
    match method {
        Method::Hash { pad } => {
            if pad {
                gauge.settled + left.lo.saturating_sub(left.count)
            } else {
                lo_matched(unique, gauge, left)
            }
        }
        Method::Merge => lo_matched(unique, gauge, left),
    }
}
