//! Of which kinds the columns of the rows of a tree are.
ghost use Rattle.std.specs.Prelude.{◌≡◌, ◌++◌, map, IfOk, OnOk};
ghost use Rattle.pm_plan.specs.Kinds.{kinds_of, table_kinds, kind_at, kind_of_item, kinds_over};
ghost use Rattle.pm_joining.specs.Trees.{unary_of, tree_of};
ghost use Rattle.pm_joining.specs.Tables.{table_decls};

use pm_joining::{Tree, Unary, columns_of};
use pm_plan::Aggregate;
use pm_query::QueryTable;
use pm_values::{Kind, Kinds};
use std::alloc::{AllocError, Global};

fn push_table_kinds(kinds: &mut Kinds, tables: &[QueryTable], table: u32) -> Result<(), AllocError>
    ensures { OnOk result (kinds.new ≡ kinds.old ++ table_kinds (table_decls tables.now) table) }
{
    for column in columns_of(tables, table) {
        kinds.push(column.kind)?;
    }
    Ok(())
}

fn kind_at(kinds: &[Kind], column: u32) -> Kind
    ensures { result ≡ kind_at kinds.now column }
{
    kinds.get(column as usize).copied().unwrap_or(Kind::Int)
}

fn kind_of_item(kinds: &[Kind], item: Aggregate) -> Kind
    ensures { result ≡ kind_of_item kinds.now item }
{
    match item {
        Aggregate::CountAll => Kind::Int,
        Aggregate::Count(_) => Kind::Int,
        Aggregate::Sum(column) => kind_at(kinds, column),
        Aggregate::Min(column) => kind_at(kinds, column),
        Aggregate::Max(column) => kind_at(kinds, column),
    }
}

fn kinds_of_columns(alloc: Global, kinds: &[Kind], columns: &[u32]) -> Result<Kinds, AllocError>
    ensures { IfOk result (λ chosen. chosen ≡ map (kind_at kinds.now) columns.now) }
{
    let mut chosen = Kinds::new(alloc);
    for column in columns {
        chosen.push(kind_at(kinds, *column))?;
    }
    Ok(chosen)
}

fn kinds_of_items(alloc: Global, kinds: &[Kind], items: &[Aggregate]) -> Result<Kinds, AllocError>
    ensures { IfOk result (λ chosen. chosen ≡ map (kind_of_item kinds.now) items.now) }
{
    let mut chosen = Kinds::new(alloc);
    for item in items {
        chosen.push(kind_of_item(kinds, *item))?;
    }
    Ok(chosen)
}

fn kinds_of_group(
    alloc: Global,
    kinds: &[Kind],
    keys: &[u32],
    items: &[Aggregate],
) -> Result<Kinds, AllocError>
    ensures { IfOk result (λ made. made ≡ map (kind_at kinds.now) keys.now ++ map (kind_of_item kinds.now) items.now) }
{
    let mut made = kinds_of_columns(alloc, kinds, keys)?;
    let mut more = kinds_of_items(alloc, kinds, items)?;
    made.append(&mut more)?;
    Ok(made)
}

// Of what an operator hands out, from its child's.
fn kinds_over(alloc: Global, op: &Unary, kinds: Kinds) -> Result<Kinds, AllocError>
    ensures { IfOk result (λ made. made ≡ kinds_over (unary_of op.now) kinds) }
{
    match op {
        Unary::Filter(_) => Ok(kinds),
        Unary::Project(columns) => kinds_of_columns(alloc, kinds.as_slice(), columns.as_slice()),
        Unary::Sort(_) => Ok(kinds),
        Unary::Group { keys, items } => kinds_of_group(
            alloc,
            kinds.as_slice(),
            keys.as_slice(),
            items.as_slice(),
        ),
    }
}

/// The kinds of the columns of the rows.
pub fn kinds_of(alloc: Global, tables: &[QueryTable], tree: &Tree) -> Result<Kinds, AllocError>
    ensures { IfOk result (λ kinds. kinds ≡ kinds_of (table_decls tables.now) (tree_of tree.now)) }
{
    match tree {
        Tree::Scan { table, .. } => {
            let mut kinds = Kinds::new(alloc);
            push_table_kinds(&mut kinds, tables, *table)?;
            Ok(kinds)
        }
        Tree::Over { op, child } => {
            let below = kinds_of(alloc, tables, child.get())?;
            kinds_over(alloc, op, below)
        }
        Tree::Join { left, right, .. } => {
            let mut kinds = kinds_of(alloc, tables, left.get())?;
            let mut more = kinds_of(alloc, tables, right.get())?;
            kinds.append(&mut more)?;
            Ok(kinds)
        }
        Tree::Index { left, seek, .. } => {
            let mut kinds = kinds_of(alloc, tables, left.get())?;
            push_table_kinds(&mut kinds, tables, seek.table)?;
            Ok(kinds)
        }
    }
}
