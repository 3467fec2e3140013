//! How many columns a node's rows have, and of which kinds they are.
ghost use Rattle.std.specs.Prelude.{◌≡◌, ◌+◌, ◌≤◌, ◌<◌, ◌^◌, ℕ, List, ◌++◌, map, length, min, max, slice_get, Some};
ghost use Rattle.std.specs.Option.{option_copied, option_and_then};
ghost use Rattle.pm_values.specs.declared.value.Kind.{Kind as KindValue};
ghost use Rattle.pm_plan.specs.Preorder.{Subplan};
ghost use Rattle.pm_plan.specs.Standing.{Stands, subplan_kinds, subplan_width, origin_kind};
ghost use Rattle.pm_plan.specs.Roots.{unary_of};
ghost use Rattle.pm_plan.specs.Kinds.{table_width, table_kinds, kind_at, kind_of_item, kinds_over};

use crate::plan::{Aggregate, Aggregates, Node};
use crate::root::{Root, Unary, number_after, root_at};
use pm_values::{Columns, Kind, TableDecl, TableDecls};

/// One more than the greatest number of columns that an operator may have, and of pairs that a join may have.
pub const TOO_MANY: usize = 4_294_967_296;

/// The declaration of the table of this position.
pub fn table_at(decls: &TableDecls, table: u32) -> Option<&TableDecl>
    ensures { option_copied result ≡ slice_get decls.now table }
{
    decls.as_slice().get(table as usize)
}

// How many columns the table has.
fn table_width(decls: &TableDecls, table: u32) -> usize
    ensures value { result ≡ table_width decls.now table }
    ensures narrow { result ≤ 64 }
{
    match table_at(decls, table) {
        Some(decl) => decl.columns().len(),
        None => 0,
    }
}

// The kind of the table's column, or None past its last one.
fn table_kind(decls: &TableDecls, table: u32, column: u32) -> Option<Kind>
    ensures { result ≡ slice_get (table_kinds decls.now table) column }
{
    let decl = table_at(decls, table)?;
    let column = decl.columns().as_slice().get(column as usize)?;
    Some(column.kind)
}

fn capped(count: usize) -> usize
    ensures { result ≡ min count 4294967296 }
{
    count.min(TOO_MANY)
}

/// The sum, and TOO_MANY where it is more.
pub fn capped_sum(a: usize, b: usize) -> usize
    requires { (a ≤ 4294967296) × (b ≤ 4294967296) }
    ensures { result ≡ min (a + b) 4294967296 }
{
    capped(a + b)
}

// How many columns an operator hands out, whose child has so many; TOO_MANY where they are more.
fn width_over(op: Unary, child: usize) -> usize
    requires { child ≤ 4294967296 }
    ensures value { (kinds : List KindValue) → child ≡ min (length kinds) 4294967296 → result ≡ min (length (kinds_over (unary_of op.entry) kinds)) 4294967296 }
    ensures within { result ≤ 4294967296 }
{
    match op {
        Unary::Filter(_) => child,
        Unary::Project(columns) => capped(columns.len()),
        Unary::Sort(_) => child,
        Unary::Group(keys, items) => capped_sum(capped(keys.len()), capped(items.len())),
    }
}

/// How many columns the rows have that the node of this number hands out, and TOO_MANY where they are more.
pub fn width_at(nodes: &[Node], decls: &TableDecls, n: usize) -> usize
    ensures value { (p : Subplan) → Stands nodes.now p n → result ≡ min (subplan_width decls.now p) 4294967296 }
    ensures within { result ≤ 4294967296 }
{
    let Some(root) = root_at(nodes, n) else {
        return 0;
    };
    match &root {
        Root::Scan { table, .. } | Root::Seek { table, .. } => table_width(decls, *table),
        Root::Over { op, .. } => width_over(*op, width_at(nodes, decls, n + 1)),
        Root::Join { right, .. } | Root::Index { seek: right, .. } => {
            let left = width_at(nodes, decls, n + 1);
            capped_sum(left, width_at(nodes, decls, number_after(n, *right)))
        }
    }
}

/// Where an operator's column comes from: it is a column of its child, has the kind of one, or is a count.
#[derive(Clone, Copy)]
pub enum Origin {
    Child(u32),
    Chosen(u32),
    Count,
}

// Where the column of an aggregate comes from.
fn item_origin(item: Aggregate) -> Origin
    ensures { (kinds : List KindValue) → origin_kind kinds result ≡ Some (kind_of_item kinds item) }
{
    match item {
        Aggregate::CountAll | Aggregate::Count(_) => Origin::Count,
        Aggregate::Sum(column) | Aggregate::Min(column) | Aggregate::Max(column) => {
            Origin::Chosen(column)
        }
    }
}

// Where a column of a projection comes from, or None past its last one.
fn chosen_origin(columns: &Columns, at: u32) -> Option<Origin>
    ensures { (kinds : List KindValue) → option_and_then (origin_kind kinds) result ≡ slice_get (map (kind_at kinds) columns.now) at }
{
    let column = columns.as_slice().get(at as usize)?;
    Some(Origin::Chosen(*column))
}

// Where a group's column comes from, or None past its last one.
fn group_origin(keys: &Columns, items: &Aggregates, at: u32) -> Option<Origin>
    ensures { (kinds : List KindValue) → option_and_then (origin_kind kinds) result ≡ slice_get (map (kind_at kinds) keys.now ++ map (kind_of_item kinds) items.now) at }
{
    let at = at as usize;
    if at < keys.len() {
        return Some(Origin::Chosen(*keys.at(at)));
    }
    let item = items.as_slice().get(at - keys.len())?;
    Some(item_origin(*item))
}

// Where an operator's column comes from, or None past its last one.
fn origin_over(op: Unary, column: u32) -> Option<Origin>
    ensures { (kinds : List KindValue) → option_and_then (origin_kind kinds) result ≡ slice_get (kinds_over (unary_of op.entry) kinds) column }
{
    match op {
        Unary::Filter(_) => Some(Origin::Child(column)),
        Unary::Project(columns) => chosen_origin(columns, column),
        Unary::Sort(_) => Some(Origin::Child(column)),
        Unary::Group(keys, items) => group_origin(keys, items, column),
    }
}

/// The kind of a column of the rows that the node of this number hands out, or None past the last one.
pub fn kind_at(nodes: &[Node], decls: &TableDecls, n: usize, column: u32) -> Option<Kind>
    ensures { (p : Subplan) → Stands nodes.now p n → result ≡ slice_get (subplan_kinds decls.now p) column }
{
    let root = root_at(nodes, n)?;
    match &root {
        Root::Scan { table, .. } | Root::Seek { table, .. } => table_kind(decls, *table, column),
        Root::Over { op, .. } => match origin_over(*op, column)? {
            Origin::Child(own) => kind_at(nodes, decls, n + 1, own),
            Origin::Chosen(own) => { Some(kind_at(nodes, decls, n + 1, own).unwrap_or(Kind::Int)) }
            Origin::Count => Some(Kind::Int),
        },
        Root::Join { right, .. } | Root::Index { seek: right, .. } => {
            let left = width_at(nodes, decls, n + 1);
            if (column as usize) < left {
                return kind_at(nodes, decls, n + 1, column);
            }
            kind_at(nodes, decls, number_after(n, *right), column - left as u32)
        }
    }
}
