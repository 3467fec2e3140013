//! The upper bounds of operators, by sums and products that stop at the greatest number of 128 bits.
ghost use Rattle.std.specs.Prelude.{◌≡◌, [], max};
ghost use Rattle.pm_plan.specs.Roots.{unary_of, method_of};
ghost use Rattle.pm_work.specs.Formulas.{unread, capped_if, hi_over, pairs_hi, most_matches, hash_hi, padded_hi, hi_joined, seek_hi, index_hi};
ghost use Rattle.pm_bounds.specs.Steps.{computed, side_read};

use pm_fraction::{add_capped, mul_capped};
use pm_plan::{Gauge, Method, Unary, Unique};

/// A side of an operator, in rows: those that it has handed out, and the bounds of all its rows.
#[derive(Clone, Copy)]
pub struct Side {
    pub count: u128,
    pub lo: u128,
    pub hi: u128,
}

/// The rows that a side may still hand out.
fn unread(side: &Side) -> u128
    ensures { result ≡ unread (side_read side.now) }
{
    side.hi.saturating_sub(side.count)
}

/// At most the cap where the flag is set.
fn capped_if(flag: bool, cap: u128, x: u128) -> u128
    ensures { result ≡ capped_if flag cap x }
{
    if flag { cap.min(x) } else { x }
}

/// So many rows, and a product.
fn plus_product(rows: u128, a: u128, b: u128) -> u128
    ensures { result ≡ computed.plus rows (computed.times a b) }
{
    add_capped(rows, mul_capped(a, b))
}

/// So many rows, and those that the side may still hand out.
fn plus_unread(rows: u128, side: &Side) -> u128
    ensures { result ≡ computed.plus rows (unread (side_read side.now)) }
{
    add_capped(rows, unread(side))
}

/// Of an operator over a child.
pub fn hi_over(op: Unary<'_>, gauge: &Gauge, child: &Side) -> u128
    ensures { result ≡ hi_over computed (unary_of op.entry) gauge.now (side_read child.now) }
{
    match op {
        Unary::Filter(_) => plus_unread(gauge.settled, child),
        Unary::Project(_) | Unary::Sort(_) => child.hi,
        Unary::Group(keys, _) => {
            if keys.is_empty() {
                1
            } else {
                plus_unread(gauge.settled, child)
            }
        }
    }
}

/// Of the pairs of two sides.
fn pairs_hi(unique: Unique, gauge: &Gauge, left: &Side, right: &Side) -> u128
    ensures { result ≡ pairs_hi computed unique gauge.now (side_read left.now) (side_read right.now) }
{
    let to_come = mul_capped(unread(left), right.hi);
    let read = mul_capped(left.count, unread(right));
    let pairs = add_capped(gauge.settled, add_capped(to_come, read));
    capped_if(
        unique.right,
        left.hi,
        capped_if(unique.left, right.hi, pairs),
    )
}

/// The most right rows that one left row can match.
fn most_matches(unique: Unique, gauge: &Gauge, right: &Side) -> u128
    ensures { result ≡ most_matches computed unique gauge.now (side_read right.now) }
{
    capped_if(unique.right, 1, plus_unread(u128::from(gauge.worst), right))
}

/// Of a hash join.
fn hash_hi(unique: Unique, gauge: &Gauge, left: &Side, right: &Side) -> u128
    ensures { result ≡ hash_hi computed unique gauge.now (side_read left.now) (side_read right.now) }
{
    let most = most_matches(unique, gauge, right);
    let matched = plus_product(gauge.settled, unread(left), most);
    pairs_hi(unique, gauge, left, right).min(matched)
}

/// Of a hash join that pads.
fn padded_hi(unique: Unique, gauge: &Gauge, left: &Side, right: &Side) -> u128
    ensures { result ≡ padded_hi computed unique gauge.now (side_read left.now) (side_read right.now) }
{
    let most = most_matches(unique, gauge, right).max(1);
    let rows = plus_product(gauge.settled, unread(left), most);
    capped_if(unique.left, add_capped(left.hi, right.hi), rows)
}

/// Of a join.
pub fn hi_joined(method: Method, unique: Unique, gauge: &Gauge, left: &Side, right: &Side) -> u128
    ensures { result ≡ hi_joined computed (method_of method) unique gauge.now (side_read left.now) (side_read right.now) }
{
    match method {
        Method::Hash { pad } => {
            if pad {
                padded_hi(unique, gauge, left, right)
            } else {
                hash_hi(unique, gauge, left, right)
            }
        }
        Method::Merge => pairs_hi(unique, gauge, left, right),
    }
}

/// Of a Seek, from its left side.
pub fn seek_hi(unique: Unique, gauge: &Gauge, left: &Side) -> u128
    ensures { result ≡ seek_hi computed unique gauge.now (side_read left.now) }
{
    let rows = plus_product(gauge.settled, unread(left), u128::from(gauge.worst));
    capped_if(unique.left, u128::from(gauge.size), rows)
}

/// Of an Index, from its Seek.
pub fn index_hi(gauge: &Gauge, seek: &Side) -> u128
    ensures { result ≡ index_hi computed gauge.now (side_read seek.now) }
{
    plus_unread(gauge.settled, seek)
}
