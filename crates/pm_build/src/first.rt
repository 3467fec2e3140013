//! The first bounds of a tree: the most rows that its operators can hand out, from the sizes of the tables alone. Sums and
//! products stop at the greatest number.
ghost use Rattle.std.specs.Prelude.{◌≡◌, ◌≤◌, ◌*◌, min, nat_le, nat_lt, find};
ghost use Rattle.std.specs.List.{list_any};
ghost use Rattle.pm_plan.specs.Tree.{Seek};
ghost use Rattle.pm_plan.specs.Roots.{method_of};
ghost use Rattle.pm_work.specs.Formulas.{exact, up_to, capped_if, hi_over, hi_joined, pairs_hi, most_matches};
ghost use Rattle.pm_work.specs.First.{size_in, unstarted, uncounted, first_seek, first_hi, first_sum, greatest, first_bound, most_work, most_summed, is_sum, has_sum, summed_in, too_wide};
ghost use Rattle.pm_joining.specs.Trees.{unary_of, seek_of, tree_of};

use pm_fraction::{add_capped, mul_capped};
use pm_joining::{Seek, Tree, Unary};
use pm_plan::{Aggregate, Method, Unique};

/// The most work of a plan that is run, in rows.
const MOST_WORK: u128 = 10_000_000_000_000_000_000_000_000_000_000_000;

/// The most rows that a sum is taken over.
const MOST_SUMMED: u128 = 1_000_000_000_000_000_000;

/// The size of the table, in rows.
pub fn size_in(sizes: &[u64], table: u32) -> u64
    ensures { result ≡ size_in sizes.now table }
{
    sizes.get(table as usize).copied().unwrap_or(0)
}

fn capped_if(flag: bool, cap: u128, hi: u128) -> u128
    ensures { result ≡ capped_if flag cap hi }
{
    if flag { cap.min(hi) } else { hi }
}

fn hi_over(op: &Unary, child: u128) -> u128
    ensures { result ≡ hi_over (up_to greatest) (unary_of op.now) unstarted (uncounted child) }
{
    match op {
        Unary::Filter(_) => child,
        Unary::Project(_) => child,
        Unary::Sort(_) => child,
        Unary::Group { keys, .. } => if keys.is_empty() { 1 } else { child },
    }
}

fn pairs_hi(unique: Unique, left: u128, right: u128) -> u128
    ensures { result ≡ pairs_hi (up_to greatest) unique unstarted (uncounted left) (uncounted right) }
{
    let all = mul_capped(left, right);
    capped_if(unique.right, left, capped_if(unique.left, right, all))
}

fn most_matches(unique: Unique, right: u128) -> u128
    ensures { result ≡ most_matches (up_to greatest) unique unstarted (uncounted right) }
{
    capped_if(unique.right, 1, right)
}

fn hi_joined(method: Method, unique: Unique, left: u128, right: u128) -> u128
    ensures { result ≡ hi_joined (up_to greatest) (method_of method) unique unstarted (uncounted left) (uncounted right) }
{
    let most = most_matches(unique, right);
    match method {
        Method::Hash { pad: false } => pairs_hi(unique, left, right).min(mul_capped(left, most)),
        Method::Hash { pad: true } => {
            let padded = mul_capped(left, most.max(1));
            capped_if(unique.left, add_capped(left, right), padded)
        }
        Method::Merge => pairs_hi(unique, left, right),
    }
}

// Of a seek, from its left side's.
fn seek_hi(sizes: &[u64], seek: &Seek, left: u128) -> u128
    ensures { result ≡ first_seek (up_to greatest) sizes.now (seek_of seek.now) left }
{
    let size = size_in(sizes, seek.table) as u128;
    let unique = seek.on.unique;
    let worst = if unique.right { 1 } else { size };
    capped_if(unique.left, size, mul_capped(left, worst))
}

fn capped_hi(sizes: &[u64], tree: &Tree) -> u128
    ensures { result ≡ first_hi (up_to greatest) sizes.now (tree_of tree.now) }
{
    match tree {
        Tree::Scan { table, .. } => size_in(sizes, *table) as u128,
        Tree::Over { op, child } => hi_over(op, capped_hi(sizes, child.get())),
        Tree::Join {
            method,
            on,
            left,
            right,
        } => hi_joined(
            *method,
            on.unique,
            capped_hi(sizes, left.get()),
            capped_hi(sizes, right.get()),
        ),
        Tree::Index { left, seek, .. } => seek_hi(sizes, seek, capped_hi(sizes, left.get())),
    }
}

/// The most rows that the tree's root can hand out, or the greatest number where they are more.
pub fn first_hi(sizes: &[u64], tree: &Tree) -> u128
    ensures { result ≡ min greatest (first_hi exact sizes.now (tree_of tree.now)) }
{
    capped_hi(sizes, tree)
}

// Of a seek over a left side.
fn first_seek(sizes: &[u64], seek: &Seek, left: &Tree) -> u128
    ensures { result ≡ min greatest (first_seek exact sizes.now (seek_of seek.now) (first_hi exact sizes.now (tree_of left.now))) }
{
    seek_hi(sizes, seek, capped_hi(sizes, left))
}

// Of all operators, added up.
fn first_sum(sizes: &[u64], tree: &Tree) -> u128
    ensures { result ≡ min greatest (first_sum sizes.now (tree_of tree.now)) }
{
    let hi = first_hi(sizes, tree);
    match tree {
        Tree::Scan { .. } => hi,
        Tree::Over { child, .. } => add_capped(hi, first_sum(sizes, child.get())),
        Tree::Join { left, right, .. } => {
            let below = add_capped(first_sum(sizes, left.get()), first_sum(sizes, right.get()));
            add_capped(hi, below)
        }
        Tree::Index { left, seek, .. } => {
            let sought = first_seek(sizes, seek, left.get());
            add_capped(hi, add_capped(first_sum(sizes, left.get()), sought))
        }
    }
}

fn is_sum(item: Aggregate) -> bool
    ensures { result ≡ is_sum item }
{
    match item {
        Aggregate::Sum(_) => true,
        Aggregate::CountAll => false,
        Aggregate::Count(_) => false,
        Aggregate::Min(_) => false,
        Aggregate::Max(_) => false,
    }
}

fn any_sum(items: &[Aggregate]) -> bool
    ensures { result ≡ list_any is_sum items.now }
{
    items.iter().any(|item| is_sum(*item))
}

fn has_sum(op: &Unary) -> bool
    ensures { result ≡ has_sum (unary_of op.now) }
{
    match op {
        Unary::Filter(_) => false,
        Unary::Project(_) => false,
        Unary::Sort(_) => false,
        Unary::Group { items, .. } => any_sum(items.as_slice()),
    }
}

// The first bound of the rows that a sum is taken over, where it is above the most rows summed.
fn wide_sum(sizes: &[u64], tree: &Tree) -> Option<u128>
    requires { first_sum sizes.now (tree_of tree.now) ≤ most_work }
    ensures { result ≡ find (nat_lt most_summed) (summed_in sizes.now (tree_of tree.now)) }
{
    match tree {
        Tree::Scan { .. } => None,
        Tree::Over { op, child } => {
            let hi = first_hi(sizes, child.get());
            if has_sum(op) && hi > MOST_SUMMED {
                return Some(hi);
            }
            wide_sum(sizes, child.get())
        }
        Tree::Join { left, right, .. } => match wide_sum(sizes, left.get()) {
            Some(hi) => Some(hi),
            None => wide_sum(sizes, right.get()),
        },
        Tree::Index { left, .. } => wide_sum(sizes, left.get()),
    }
}

/// The bound for which a plan is too wide: the first bound of the whole work above the most work, and else that of the rows
/// that a sum is taken over above the most rows summed.
pub fn too_wide(sizes: &[u64], tree: &Tree) -> Option<u128>
    ensures { result ≡ too_wide sizes.now (tree_of tree.now) }
{
    let bound = first_sum(sizes, tree);
    if bound > MOST_WORK {
        return Some(bound);
    }
    wide_sum(sizes, tree)
}

/// Whether the tree's rows are few beside those of the table: at most an eighth of them.
pub fn is_small(sizes: &[u64], left: &Tree, table: u32) -> bool
    ensures { result ≡ nat_le (8 * first_hi exact sizes.now (tree_of left.now)) (size_in sizes.now table) }
{
    mul_capped(8, first_hi(sizes, left)) <= size_in(sizes, table) as u128
}
