//! What a query's tables are declared to be.
ghost use Rattle.std.specs.Prelude.{◌≡◌, ◌≤◌, All, IfOk, slice_get};
ghost use Rattle.std.specs.Option.{option_copied};
ghost use Rattle.pm_values.specs.Table.{IsDeclaration};
ghost use Rattle.pm_plan.specs.Kinds.{columns_of, table_width};
ghost use Rattle.pm_plan.specs.Valid.{order_of};
ghost use Rattle.pm_query.specs.Build.{name_of, label_of, scan_of};
ghost use Rattle.pm_joining.specs.Trees.{tree_of};
ghost use Rattle.pm_joining.specs.Tables.{table_decls};

use crate::tree::Tree;
use pm_plan::Label;
use pm_query::{QuerySource, QueryTable};
use pm_values::{ColumnDecl, TableDecl, Txt};
use sqlite_items::Boxed;
use std::alloc::{AllocError, Global};

/// The declaration of the table of this position, None past the last one.
pub fn decl_at(tables: &[QueryTable], table: u32) -> Option<&TableDecl>
    ensures { option_copied result ≡ slice_get (table_decls tables.now) table }
{
    let table = tables.get(table as usize)?;
    Some(&table.decl)
}

/// The declarations are what declarations are: each one keeps that in its type.
pub fn tables_are_declared(tables: &[QueryTable])
    ensures { All IsDeclaration (table_decls tables.now) }
{
    for table in tables {
        table.decl.columns();
    }
}

/// The columns of the table.
pub fn columns_of(tables: &[QueryTable], table: u32) -> &[ColumnDecl]
    ensures { result.now ≡ columns_of (table_decls tables.now) table }
{
    match decl_at(tables, table) {
        Some(decl) => decl.columns().as_slice(),
        None => &[],
    }
}

/// How many columns it has.
pub fn table_width(tables: &[QueryTable], table: u32) -> u32
    ensures value { result ≡ table_width (table_decls tables.now) table }
    ensures narrow { result ≤ 64 }
{
    match decl_at(tables, table) {
        Some(decl) => decl.columns().len() as u32,
        None => 0,
    }
}

/// The columns of its ORDER, none where it has none.
pub fn order_of(tables: &[QueryTable], table: u32) -> &[u32]
    ensures { result.now ≡ order_of (slice_get (table_decls tables.now) table) }
{
    match decl_at(tables, table) {
        Some(decl) => match decl.order() {
            Some(order) => order.as_slice(),
            None => &[],
        },
        None => &[],
    }
}

fn name_of(alloc: Global, decl: Option<&TableDecl>) -> Result<Txt, AllocError>
    ensures { IfOk result (λ name. name ≡ name_of (option_copied decl.entry)) }
{
    match decl {
        Some(decl) => decl.name().copy(alloc),
        None => Txt::new(alloc, ""),
    }
}

/// How the plan line of a source names its table.
pub fn label_of(
    alloc: Global,
    tables: &[QueryTable],
    source: &QuerySource,
) -> Result<Label, AllocError>
    ensures { IfOk result (λ label. label ≡ label_of (table_decls tables.now) source.now) }
{
    Ok(Label {
        table: name_of(alloc, decl_at(tables, source.table))?,
        alias: source.alias.copy(alloc)?,
    })
}

/// The scan of a source's table.
pub fn scan_of(
    alloc: Global,
    tables: &[QueryTable],
    source: &QuerySource,
) -> Result<Boxed<Tree>, AllocError>
    ensures { IfOk result (λ tree. tree_of tree ≡ scan_of (table_decls tables.now) source.now) }
{
    let label = label_of(alloc, tables, source)?;
    Boxed::new(
        alloc,
        Tree::Scan {
            table: source.table,
            label,
        },
    )
}
