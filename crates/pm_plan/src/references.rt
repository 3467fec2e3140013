//! Whether a reference says that each left row of a join has a match.
ghost use Rattle.std.specs.Prelude.{◌≡◌, ◌+◌, ◌-◌, ◌≤◌, ◌<◌, ◌^◌, ◌&&◌, ℕ, All, List, map, length, min, slice_get, nat_le, Some};
ghost use Rattle.std.specs.List.{list_any, list_all};
ghost use Rattle.pm_plan.specs.Tree.{Tree, Seek};
ghost use Rattle.pm_plan.specs.Preorder.{IsTreeAt, seek_node, node_at};
ghost use Rattle.pm_plan.specs.References.{entries, is_named, is_required, same_pair, paired, pairs_within, refers_by, refers_to};
ghost use Rattle.pm_plan.specs.Fitting.{unpadded, shifted};

use crate::kinds::{capped_sum, table_at, width_at};
use crate::plan::{Node, Pair};
use crate::root::{Root, number_after, pads, root_at};
use crate::shape::keeps_columns;
use pm_values::{ColumnDecl, Columns, Reference, TableDecls};

// Whether there is a column at this position, and it is NOT NULL.
fn is_required(columns: &[ColumnDecl], at: usize) -> bool
    ensures { result ≡ is_required (slice_get columns.now at) }
{
    match columns.get(at) {
        Some(column) => !column.nullable,
        None => false,
    }
}

// Whether the left column of the pair is one of these, the first of which has the number `from`, and NOT NULL.
fn reads_required(columns: &[ColumnDecl], from: usize, pair: Pair) -> bool
    ensures { result ≡ (nat_le from pair.left && is_required (slice_get columns.now (pair.left - from))) }
{
    let left = pair.left as usize;
    from <= left && is_required(columns, left - from)
}

// The same of each pair.
fn all_required(columns: &[ColumnDecl], from: usize, pairs: &[Pair]) -> bool
    ensures { result ≡ list_all (λ pair. nat_le from pair.left && is_required (slice_get columns.now (pair.left - from))) pairs.now }
{
    pairs
        .iter()
        .all(|pair| reads_required(columns, from, *pair))
}

// Whether the pair compares the column of an entry whose columns begin at `from`, and the key, that the other one does.
fn is_same(from: usize, pair: Pair, other: Pair) -> bool
    ensures forth { result ≡ same_pair (shifted from pair) other }
    ensures back { result ≡ same_pair other (shifted from pair) }
{
    let column = (pair.left as usize).saturating_sub(from);
    column == other.left as usize && pair.right == other.right
}

// The number at this position.
fn number_at(numbers: &Columns, at: usize) -> Option<u32>
    ensures { result ≡ slice_get numbers.now at }
{
    numbers.as_slice().get(at).copied()
}

// A column of the reference with its key.
fn referring(reference: &Reference, at: usize) -> Option<Pair>
    ensures { result ≡ slice_get (paired reference.now.columns reference.now.keys) at }
{
    let left = number_at(&reference.columns, at)?;
    let right = number_at(&reference.keys, at)?;
    Some(Pair { left, right })
}

// Whether the pair is one of the reference's.
fn is_referring(reference: &Reference, from: usize, pair: Pair) -> bool
    ensures { result ≡ list_any (same_pair (shifted from pair)) (paired reference.now.columns reference.now.keys) }
{
    for i in 0..reference.columns.len() {
        let Some(other) = referring(reference, i) else {
            return false;
        };
        if is_same(from, pair, other) {
            return true;
        }
    }
    false
}

// Whether one of the pairs is the other one.
fn is_compared(from: usize, pairs: &[Pair], other: Pair) -> bool
    ensures { result ≡ list_any (λ pair. same_pair other (shifted from pair)) pairs.now }
{
    pairs.iter().any(|pair| is_same(from, *pair, other))
}

// Whether each pair is one of the reference's.
fn are_referring(reference: &Reference, from: usize, pairs: &[Pair]) -> bool
    ensures { result ≡ list_all (λ pair. list_any (same_pair (shifted from pair)) (paired reference.now.columns reference.now.keys)) pairs.now }
{
    pairs
        .iter()
        .all(|pair| is_referring(reference, from, *pair))
}

// Whether each of the reference's pairs is one of these.
fn are_compared(reference: &Reference, from: usize, pairs: &[Pair]) -> bool
    ensures { result ≡ list_all (λ other. list_any (λ pair. same_pair other (shifted from pair)) pairs.now) (paired reference.now.columns reference.now.keys) }
{
    for i in 0..reference.columns.len() {
        let Some(other) = referring(reference, i) else {
            return true;
        };
        if !is_compared(from, pairs, other) {
            return false;
        }
    }
    true
}

// Whether the pairs are, as a set, those of the reference.
fn are_pairs_of(reference: &Reference, from: usize, pairs: &[Pair]) -> bool
    ensures { result ≡ (pairs_within (map (shifted from) pairs.now) (paired reference.now.columns reference.now.keys)
        && pairs_within (paired reference.now.columns reference.now.keys) (map (shifted from) pairs.now)) }
{
    are_referring(reference, from, pairs) && are_compared(reference, from, pairs)
}

// Whether the reference is one to the table, and its pairs are these.
fn refers_by(
    decls: &TableDecls,
    from: usize,
    target: u32,
    pairs: &[Pair],
    reference: &Reference,
) -> bool
    ensures { result ≡ refers_by decls.now target (map (shifted from) pairs.now) reference.now }
{
    let Some(decl) = table_at(decls, target) else {
        return false;
    };
    decl.name().as_str() == reference.target.as_str() && are_pairs_of(reference, from, pairs)
}

// Whether one of the references is one to the table, and its pairs are these.
fn refers_by_any(
    decls: &TableDecls,
    from: usize,
    target: u32,
    pairs: &[Pair],
    references: &[Reference],
) -> bool
    ensures { result ≡ list_any (refers_by decls.now target (map (shifted from) pairs.now)) references.now }
{
    references.iter().any(|reference| refers_by(decls, from, target, pairs, reference))
}

// Whether the pairs with the target are those of a reference of this table, whose columns begin at `from`.
fn refers_to(decls: &TableDecls, table: u32, from: usize, target: u32, pairs: &[Pair]) -> bool
    ensures { result ≡ refers_to decls.now target pairs.now (unpadded table from) }
{
    let Some(decl) = table_at(decls, table) else {
        return false;
    };
    all_required(decl.columns().as_slice(), from, pairs)
        && refers_by_any(decls, from, target, pairs, decl.references().as_slice())
}

// Whether a Seek stands at this number that looks up a table to whose columns, which begin at `from`, the same applies.
fn seek_refers(
    nodes: &[Node],
    decls: &TableDecls,
    n: usize,
    from: usize,
    target: u32,
    pairs: &[Pair],
) -> bool
    ensures { (s : Seek) (left : ℕ) → node_at nodes.now n ≡ Some (seek_node s left) → result ≡ refers_to decls.now target pairs.now (unpadded s.table from) }
{
    let Some(root) = root_at(nodes, n) else {
        return false;
    };
    match root {
        Root::Seek { table, .. } => refers_to(decls, table, from, target, pairs),
        _ => false,
    }
}

/// Whether the pairs with the target are those of a reference of an entry of the tree of this number, which no left join pads
/// there. The tree's columns begin at `from`, which stands for each number past the greatest column.
pub fn refers_at(
    nodes: &[Node],
    decls: &TableDecls,
    n: usize,
    from: usize,
    target: u32,
    pairs: &[Pair],
) -> bool
    requires { from ≤ 4294967296 }
    ensures { (t : Tree) (first : ℕ) → IsTreeAt nodes.now t n → from ≡ min first 4294967296 → All (λ pair. pair.left < 2 ^ 32) pairs.now
        → result ≡ list_any (refers_to decls.now target pairs.now) (entries decls.now t first) }
{
    let Some(root) = root_at(nodes, n) else {
        return false;
    };
    match root {
        Root::Scan { table, .. } => refers_to(decls, table, from, target, pairs),
        Root::Over { op, .. } => keeps_columns(op)
            && refers_at(nodes, decls, n + 1, from, target, pairs),
        Root::Join { method, right, .. } => {
            if refers_at(nodes, decls, n + 1, from, target, pairs) {
                return true;
            }
            let next = capped_sum(from, width_at(nodes, decls, n + 1));
            !pads(method) && refers_at(nodes, decls, number_after(n, right), next, target, pairs)
        }
        Root::Index { seek, .. } => {
            if refers_at(nodes, decls, n + 1, from, target, pairs) {
                return true;
            }
            let next = capped_sum(from, width_at(nodes, decls, n + 1));
            seek_refers(nodes, decls, number_after(n, seek), next, target, pairs)
        }
        Root::Seek { .. } => false,
    }
}
