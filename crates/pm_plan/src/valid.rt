//! Whether a plan keeps the rules for the tables that are declared.
ghost use Rattle.std.specs.Prelude.{◌≡◌, ◌↔◌, ◌+◌, ◌-◌, ◌<◌, ◌^◌, ℕ, IsTrue, All, List, take, nat_lt, length, min, count_by, slice_get, Option, Some};
ghost use Rattle.std.specs.List.{list_all};
ghost use Rattle.pm_plan.specs.Tree.{Tree, Seek};
ghost use Rattle.pm_plan.specs.Preorder.{Subplan, seek_node, node_at, IsTreeAt};
ghost use Rattle.pm_plan.specs.Kinds.{kinds_of, item_fits};
ghost use Rattle.pm_plan.specs.Flags.{flags_of, refers_if};
ghost use Rattle.pm_plan.specs.Valid.{are_below, has_group, IsTable, MethodFits, IsValidJoin, IsValidSeek, IsValidGroup, IsValidOver, IsValidRoot, IsValidTree, IsValid};
ghost use Rattle.pm_plan.specs.Standing.{Stands, subplan_kinds};
ghost use Rattle.pm_plan.specs.Roots.{unary_of, method_of};
ghost use Rattle.pm_plan.specs.Fitting.{whole_table, IsPaired, HasSeek, AreBelow, reads_table};

use crate::fits::{condition_fits, condition_fits_if, item_fits, pairs_fit, same_kind};
use crate::kinds::{TOO_MANY, kind_at, table_at, width_at};
use crate::numbering::is_numbered;
use crate::plan::{Aggregate, Aggregates, Label, Node, Pair, Plan, SortKey, Unique};
use crate::references::refers_at;
use crate::root::{Method, Root, Unary, number_after, pads, root_at};
use crate::shape::{has_group, is_joinable, is_ordered, is_source, scanned_table};
use crate::uniqueness::{Side, is_unique_at};
use pm_values::{Columns, Kind, TableDecls};

// The most tables that a plan reads.
const MOST_TABLES: usize = 8;

// Whether the table is declared, and named so.
fn is_table(decls: &TableDecls, table: u32, label: &Label) -> bool
    ensures { IsTrue result ↔ IsTable decls.now table label.now }
{
    match table_at(decls, table) {
        Some(decl) => label.table.as_str() == decl.name().as_str(),
        None => false,
    }
}

// Whether the column is one of so many, of which more than TOO_MANY are not counted.
fn is_below(column: u32, wide: usize) -> bool
    ensures { (w : ℕ) → wide ≡ min w 4294967296 → result ≡ nat_lt column w }
{
    (column as usize) < wide
}

fn columns_below(columns: &[u32], wide: usize) -> bool
    ensures { (w : ℕ) → wide ≡ min w 4294967296 → result ≡ are_below w columns.now }
{
    for column in columns {
        if !is_below(*column, wide) {
            return false;
        }
    }
    true
}

fn keys_below(keys: &[SortKey], wide: usize) -> bool
    ensures { (w : ℕ) → wide ≡ min w 4294967296 → result ≡ list_all (λ key. nat_lt key.column w) keys.now }
{
    for key in keys {
        if !is_below(key.column, wide) {
            return false;
        }
    }
    true
}

fn items_fit(nodes: &[Node], decls: &TableDecls, n: usize, items: &[Aggregate]) -> bool
    ensures { (p : Subplan) → Stands nodes.now p n → result ≡ list_all (item_fits (subplan_kinds decls.now p)) items.now }
{
    for item in items {
        if !item_fits(nodes, decls, n, *item) {
            return false;
        }
    }
    true
}

// Whether a group over the child of this number is valid.
fn is_valid_group(
    nodes: &[Node],
    decls: &TableDecls,
    n: usize,
    keys: &Columns,
    items: &Aggregates,
) -> bool
    ensures { (t : Tree) → IsTreeAt nodes.now t n → (IsTrue result ↔ IsValidGroup (kinds_of decls.now t) (has_group t) keys.now items.now) }
{
    if !columns_below(keys.as_slice(), width_at(nodes, decls, n)) {
        return false;
    }
    if !items_fit(nodes, decls, n, items.as_slice()) {
        return false;
    }
    items.is_empty() || !has_group(nodes, n)
}

// Whether an operator over the child of this number is valid.
fn is_valid_over(nodes: &[Node], decls: &TableDecls, n: usize, op: Unary) -> bool
    ensures { (t : Tree) → IsTreeAt nodes.now t n → (IsTrue result ↔ IsValidOver (kinds_of decls.now t) (has_group t) (unary_of op.entry)) }
{
    match op {
        Unary::Filter(cond) => condition_fits(nodes, decls, n, cond),
        Unary::Project(columns) => columns_below(columns.as_slice(), width_at(nodes, decls, n)),
        Unary::Sort(keys) => keys_below(keys.as_slice(), width_at(nodes, decls, n)),
        Unary::Group(keys, items) => is_valid_group(nodes, decls, n, keys, items),
    }
}

// Whether each row of the left side of this number has a match in the table, if there is one.
fn refers_if(
    nodes: &[Node],
    decls: &TableDecls,
    left: usize,
    pairs: &[Pair],
    whole: Option<u32>,
) -> bool
    ensures { (l : Tree) → IsTreeAt nodes.now l left → All (λ pair. pair.left < 2 ^ 32) pairs.now → result ≡ refers_if decls.now l pairs.now whole }
{
    match whole {
        Some(target) => refers_at(nodes, decls, left, 0, target, pairs),
        None => false,
    }
}

// The flags of a join of a left side with a right one: whether that is unique, and of which table it has all rows.
fn flags_of(
    nodes: &[Node],
    decls: &TableDecls,
    left: usize,
    pairs: &[Pair],
    right: bool,
    whole: Option<u32>,
) -> Unique
    ensures { (l : Tree) → IsTreeAt nodes.now l left → All (λ pair. pair.left < 2 ^ 32) pairs.now → result ≡ flags_of decls.now l pairs.now right whole }
{
    Unique {
        left: is_unique_at(nodes, decls, left, pairs, Side::Left),
        right,
        total: refers_if(nodes, decls, left, pairs, whole),
    }
}

// The table whose rows, all of them, the right side of this number has, None where it has others or the join pads.
fn whole_table(nodes: &[Node], right: usize, pad: bool) -> Option<u32>
    ensures { (q : Subplan) → Stands nodes.now q right → result ≡ whole_table pad q }
{
    if pad {
        return None;
    }
    scanned_table(nodes, right)
}

// Whether the pairs fit the two sides that stand at these numbers, and the flags are theirs.
fn is_paired(
    nodes: &[Node],
    decls: &TableDecls,
    left: usize,
    right: usize,
    pairs: &[Pair],
    unique: Unique,
    pad: bool,
) -> bool
    ensures { (l : Tree) (q : Subplan) → IsTreeAt nodes.now l left → Stands nodes.now q right → (IsTrue result ↔ IsPaired decls.now pad l q pairs.now unique) }
{
    if !pairs_fit(nodes, decls, left, right, pairs) {
        return false;
    }
    let right_unique = is_unique_at(nodes, decls, right, pairs, Side::Right);
    let whole = whole_table(nodes, right, pad);
    unique == flags_of(nodes, decls, left, pairs, right_unique, whole)
}

// Whether the two sides are in the order that the way of joining asks for.
fn method_fits(
    nodes: &[Node],
    decls: &TableDecls,
    left: usize,
    right: usize,
    pairs: &[Pair],
    method: Method,
) -> bool
    ensures { (l r : Tree) → IsTreeAt nodes.now l left → IsTreeAt nodes.now r right → (IsTrue result ↔ MethodFits decls.now (method_of method) l r pairs.now) }
{
    match method {
        Method::Hash { .. } => true,
        Method::Merge => is_ordered(nodes, decls, left, right, pairs),
    }
}

// Whether a join of the trees of these numbers is valid.
fn is_valid_join(
    nodes: &[Node],
    decls: &TableDecls,
    left: usize,
    right: usize,
    method: Method,
    pairs: &[Pair],
    unique: Unique,
) -> bool
    ensures { (l r : Tree) → IsTreeAt nodes.now l left → IsTreeAt nodes.now r right
        → (IsTrue result ↔ IsValidJoin decls.now (method_of method) (record { pairs = pairs.now; unique = unique }) l r) }
{
    if !is_paired(nodes, decls, left, right, pairs, unique, pads(method)) {
        return false;
    }
    if !is_joinable(nodes, left) {
        return false;
    }
    if !is_source(nodes, right) {
        return false;
    }
    method_fits(nodes, decls, left, right, pairs, method)
}

// Whether the Seek of this number is valid over its left side.
fn is_valid_seek(nodes: &[Node], decls: &TableDecls, left: usize, seek: usize) -> bool
    ensures { (l : Tree) (s : Seek) (own : ℕ) → IsTreeAt nodes.now l left → node_at nodes.now seek ≡ Some (seek_node s own) → (IsTrue result ↔ IsValidSeek decls.now l s) }
{
    let Some(root) = root_at(nodes, seek) else {
        return false;
    };
    match root {
        Root::Seek {
            table,
            label,
            pairs,
            unique,
            ..
        } => {
            if !is_table(decls, table, label) {
                return false;
            }
            if width_at(nodes, decls, seek) >= TOO_MANY {
                return false;
            }
            is_paired(nodes, decls, left, seek, pairs.as_slice(), unique, false)
        }
        _ => false,
    }
}

// Whether the root of the tree of this number is valid, with its Seek where it is an Index.
fn is_valid_root(nodes: &[Node], decls: &TableDecls, n: usize) -> bool
    ensures { (t : Tree) → IsTreeAt nodes.now t n → (IsTrue result ↔ (IsValidRoot decls.now t × HasSeek decls.now t)) }
{
    let Some(root) = root_at(nodes, n) else {
        return false;
    };
    match root {
        Root::Scan { table, label } => is_table(decls, table, label),
        Root::Over { op, .. } => is_valid_over(nodes, decls, n + 1, op),
        Root::Join {
            method,
            right,
            pairs,
            unique,
            ..
        } => {
            let right = number_after(n, right);
            is_valid_join(nodes, decls, n + 1, right, method, pairs.as_slice(), unique)
        }
        Root::Index { seek, cond, .. } => {
            if !condition_fits_if(nodes, decls, n, cond) {
                return false;
            }
            if !is_joinable(nodes, n + 1) {
                return false;
            }
            is_valid_seek(nodes, decls, n + 1, number_after(n, seek))
        }
        Root::Seek { .. } => false,
    }
}

// Whether each operator below the one of this number is valid.
#[cycle(are_valid)]
fn are_valid_below(nodes: &[Node], decls: &TableDecls, n: usize) -> bool
    ensures { (t : Tree) → IsTreeAt nodes.now t n → (IsTrue result ↔ AreBelow decls.now t) }
{
    let Some(root) = root_at(nodes, n) else {
        return false;
    };
    match root {
        Root::Scan { .. } => true,
        Root::Over { .. } => are_valid(nodes, decls, n + 1),
        Root::Join { right, .. } => {
            are_valid(nodes, decls, n + 1) && are_valid(nodes, decls, number_after(n, right))
        }
        Root::Index { .. } => are_valid(nodes, decls, n + 1),
        Root::Seek { .. } => false,
    }
}

// Whether each operator of the tree of this number is valid, and has not too many columns.
#[cycle(are_valid)]
fn are_valid(nodes: &[Node], decls: &TableDecls, n: usize) -> bool
    ensures { (t : Tree) → IsTreeAt nodes.now t n → (IsTrue result ↔ IsValidTree decls.now t) }
{
    if !is_valid_root(nodes, decls, n) {
        return false;
    }
    width_at(nodes, decls, n) < TOO_MANY && are_valid_below(nodes, decls, n)
}

// Whether the node reads a table.
fn reads_table(node: &Node) -> bool
    ensures { result ≡ reads_table node.now }
{
    match node {
        Node::Scan { .. } => true,
        Node::Seek { .. } => true,
        _ => false,
    }
}

// How many Scans and Seeks there are.
fn tables_in(nodes: &[Node]) -> usize
    ensures { result ≡ count_by reads_table nodes.now }
{
    let mut count = 0;
    for node in nodes {
        if reads_table(node) {
            count += 1;
        }
    }
    count
}

// Whether the kind is that of this column of the rows that the first node hands out.
fn is_kind(nodes: &[Node], decls: &TableDecls, column: u32, kind: Kind) -> bool
    ensures { (t : Tree) → IsTreeAt nodes.now t 1 → (IsTrue result ↔ slice_get (kinds_of decls.now t) column ≡ Some kind) }
{
    match kind_at(nodes, decls, 1, column) {
        Some(found) => same_kind(found, kind),
        None => false,
    }
}

// Whether these are the kinds of the first columns of the rows that the first node hands out.
fn kinds_agree(nodes: &[Node], decls: &TableDecls, kinds: &[Kind]) -> bool
    requires { length kinds.now < 2 ^ 32 }
    ensures { (t : Tree) → IsTreeAt nodes.now t 1 → (IsTrue result ↔ kinds.now ≡ take (length kinds.now) (kinds_of decls.now t)) }
{
    for (i, kind) in kinds.iter().enumerate() {
        if !is_kind(nodes, decls, i as u32, *kind) {
            return false;
        }
    }
    true
}

/// Whether the plan is valid for the declared tables. It takes no memory.
pub fn check_plan(plan: &Plan, decls: &TableDecls) -> bool
    ensures { IsTrue result ↔ IsValid plan.now decls.now }
{
    let nodes = plan.nodes.as_slice();
    if !is_numbered(nodes) {
        return false;
    }
    if tables_in(nodes) > MOST_TABLES {
        return false;
    }
    if !are_valid(nodes, decls, 1) {
        return false;
    }
    let wide = width_at(nodes, decls, 1);
    if plan.heads.len() != wide {
        return false;
    }
    plan.kinds.len() == wide && kinds_agree(nodes, decls, plan.kinds.as_slice())
}
