//! Whether a reference says that each left row of a join has a match.
ghost use Rattle.std.specs.Prelude.{◌≡◌, ◌+◌, ◌-◌, ◌<◌, ◌^◌, ◌&&◌, map, slice_get, nat_le};
ghost use Rattle.std.specs.List.{list_any, list_all};
ghost use Rattle.pm_plan.specs.Kinds.{width};
ghost use Rattle.pm_plan.specs.Tree.{pads};
ghost use Rattle.pm_plan.specs.References.{entries, is_required, same_pair, paired, pairs_within, refers_by, refers_to};
ghost use Rattle.pm_plan.specs.Fitting.{unpadded, shifted};
ghost use Rattle.pm_plan.specs.Roots.{method_of};
ghost use Rattle.pm_joining.specs.Trees.{tree_of};
ghost use Rattle.pm_joining.specs.Tables.{table_decls};

use crate::tables::decl_at;
use crate::tree::Tree;
use crate::uniqueness::keeps_columns;
use crate::widths::width;
use pm_plan::{Pair, pads};
use pm_query::QueryTable;
use pm_values::{ColumnDecl, Reference};

// Whether there is a column at this position, and it is NOT NULL.
fn is_required(columns: &[ColumnDecl], at: u32) -> bool
    ensures { result ≡ is_required (slice_get columns.now at) }
{
    match columns.get(at as usize) {
        Some(column) => !column.nullable,
        None => false,
    }
}

// Whether the left column of the pair is one of these, the first of which has the number `from`, and NOT NULL.
fn reads_required(columns: &[ColumnDecl], from: u32, pair: Pair) -> bool
    ensures { result ≡ (nat_le from pair.left && is_required (slice_get columns.now (pair.left - from))) }
{
    from <= pair.left && is_required(columns, pair.left - from)
}

// The same of each pair.
fn all_required(columns: &[ColumnDecl], from: u32, pairs: &[Pair]) -> bool
    ensures { result ≡ list_all (λ pair. nat_le from pair.left && is_required (slice_get columns.now (pair.left - from))) pairs.now }
{
    pairs
        .iter()
        .all(|pair| reads_required(columns, from, *pair))
}

// Whether the pair compares the column of an entry whose columns begin at `from`, and the key, that the other one does.
fn is_same(from: u32, pair: Pair, other: Pair) -> bool
    ensures forth { result ≡ same_pair (shifted from pair) other }
    ensures back { result ≡ same_pair other (shifted from pair) }
{
    pair.left.saturating_sub(from) == other.left && pair.right == other.right
}

fn number_at(numbers: &[u32], at: usize) -> Option<u32>
    ensures { result ≡ slice_get numbers.now at }
{
    numbers.get(at).copied()
}

/// The columns at this position of two lists, None past the end of one.
pub fn pair_of_lists(lefts: &[u32], rights: &[u32], at: usize) -> Option<Pair>
    ensures { result ≡ slice_get (paired lefts.now rights.now) at }
{
    let left = number_at(lefts, at)?;
    let right = number_at(rights, at)?;
    Some(Pair { left, right })
}

// A column of the reference with its key.
fn referring(reference: &Reference, at: usize) -> Option<Pair>
    ensures { result ≡ slice_get (paired reference.now.columns reference.now.keys) at }
{
    pair_of_lists(reference.columns.as_slice(), reference.keys.as_slice(), at)
}

// Whether the pair is one of the reference's.
fn is_referring(reference: &Reference, from: u32, pair: Pair) -> bool
    ensures { result ≡ list_any (same_pair (shifted from pair)) (paired reference.now.columns reference.now.keys) }
{
    for i in 0..reference.columns.len() {
        let Some(other) = referring(reference, i) else {
            return false;
        };
        if is_same(from, pair, other) {
            return true;
        }
    }
    false
}

// Whether one of the pairs is the other one.
fn is_compared(from: u32, pairs: &[Pair], other: Pair) -> bool
    ensures { result ≡ list_any (λ pair. same_pair other (shifted from pair)) pairs.now }
{
    pairs.iter().any(|pair| is_same(from, *pair, other))
}

// Whether each pair is one of the reference's.
fn are_referring(reference: &Reference, from: u32, pairs: &[Pair]) -> bool
    ensures { result ≡ list_all (λ pair. list_any (same_pair (shifted from pair)) (paired reference.now.columns reference.now.keys)) pairs.now }
{
    pairs
        .iter()
        .all(|pair| is_referring(reference, from, *pair))
}

// Whether each of the reference's pairs is one of these.
fn are_compared(reference: &Reference, from: u32, pairs: &[Pair]) -> bool
    ensures { result ≡ list_all (λ other. list_any (λ pair. same_pair other (shifted from pair)) pairs.now) (paired reference.now.columns reference.now.keys) }
{
    for i in 0..reference.columns.len() {
        let Some(other) = referring(reference, i) else {
            return true;
        };
        if !is_compared(from, pairs, other) {
            return false;
        }
    }
    true
}

// Whether the pairs are, as a set, those of the reference.
fn are_pairs_of(reference: &Reference, from: u32, pairs: &[Pair]) -> bool
    ensures { result ≡ (pairs_within (map (shifted from) pairs.now) (paired reference.now.columns reference.now.keys)
        && pairs_within (paired reference.now.columns reference.now.keys) (map (shifted from) pairs.now)) }
{
    are_referring(reference, from, pairs) && are_compared(reference, from, pairs)
}

// Whether the reference is one to the table, and its pairs are these.
fn refers_by(
    tables: &[QueryTable],
    from: u32,
    target: u32,
    pairs: &[Pair],
    reference: &Reference,
) -> bool
    ensures { result ≡ refers_by (table_decls tables.now) target (map (shifted from) pairs.now) reference.now }
{
    let Some(decl) = decl_at(tables, target) else {
        return false;
    };
    decl.name().as_str() == reference.target.as_str() && are_pairs_of(reference, from, pairs)
}

// Whether one of the references is one to the table, and its pairs are these.
fn refers_by_any(
    tables: &[QueryTable],
    from: u32,
    target: u32,
    pairs: &[Pair],
    references: &[Reference],
) -> bool
    ensures { result ≡ list_any (refers_by (table_decls tables.now) target (map (shifted from) pairs.now)) references.now }
{
    references.iter().any(|reference| refers_by(tables, from, target, pairs, reference))
}

// Whether the pairs with the target are those of a reference of this table, whose columns begin at `from`.
fn refers_to(tables: &[QueryTable], table: u32, from: u32, target: u32, pairs: &[Pair]) -> bool
    ensures { result ≡ refers_to (table_decls tables.now) target pairs.now (unpadded table from) }
{
    let Some(decl) = decl_at(tables, table) else {
        return false;
    };
    all_required(decl.columns().as_slice(), from, pairs)
        && refers_by_any(tables, from, target, pairs, decl.references().as_slice())
}

/// Whether the pairs with the target are those of a reference of an entry of the tree, whose columns begin at `from`, that no
/// left join pads there.
pub fn refers(tables: &[QueryTable], tree: &Tree, from: u32, target: u32, pairs: &[Pair]) -> bool
    requires { from + width (table_decls tables.now) (tree_of tree.now) < 2 ^ 32 }
    ensures { result ≡ list_any (refers_to (table_decls tables.now) target pairs.now) (entries (table_decls tables.now) (tree_of tree.now) from) }
{
    match tree {
        Tree::Scan { table, .. } => refers_to(tables, *table, from, target, pairs),
        Tree::Over { op, child } => keeps_columns(op)
            && refers(tables, child.get(), from, target, pairs),
        Tree::Join {
            method,
            left,
            right,
            ..
        } => {
            if refers(tables, left.get(), from, target, pairs) {
                return true;
            }
            let next = from + width(tables, left.get());
            !pads(*method) && refers(tables, right.get(), next, target, pairs)
        }
        Tree::Index { left, seek, .. } => {
            if refers(tables, left.get(), from, target, pairs) {
                return true;
            }
            let next = from + width(tables, left.get());
            refers_to(tables, seek.table, next, target, pairs)
        }
    }
}
