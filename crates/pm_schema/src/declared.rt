//! What tables that keep the rules declare.
ghost use Rattle.std.specs.Prelude.{◌≡◌, ◌≤◌, true, length, map, All, IfOk};
ghost use Rattle.pm_values.specs.declared.limits.TheConstants.{MOST_COLUMNS};
ghost use Rattle.pm_schema.specs.Rules.{has, name_of_column};
ghost use Rattle.pm_schema.specs.References.{table_named};
ghost use Rattle.pm_schema.specs.Meaning.{IsSound, AreNamed, AreNamedIn, IsNamedReference, position_of, column_number, number_in, numbers, columns_of, declared_column, declared_reference, declared_table, declared};

use crate::references::table_named;
use crate::tree::{ColumnText, ReferenceText, TableText};
use crate::walk::first;
use pm_grammar::{PlacedName, PlacedNames};
use pm_values::{ColumnDecl, ColumnDecls, Columns, Reference, References, TableDecl, TableDecls};
use std::alloc::{AllocError, Global};

// The position of the first column of this name.
fn position_of(columns: &[ColumnText], text: &[u8]) -> Option<usize>
    ensures { result ≡ position_of columns.now text.now }
{
    columns
        .iter()
        .position(|column| column.name.text.bytes() == text)
}

// The number of the first column of this name.
#[tactic(auto, using(crate::proofs::Maps::found, crate::proofs::Maps::within))]
fn column_number(columns: &[ColumnText], text: &[u8]) -> u32
    requires few { length columns.now ≤ MOST_COLUMNS }
    requires named { has name_of_column columns.now text.now ≡ true }
    ensures { result ≡ column_number columns.now text.now }
{
    match position_of(columns, text) {
        Some(number) => number as u32,
        None => unreachable!(),
    }
}

// The numbers of the columns that are named.
fn column_numbers(
    alloc: Global,
    columns: &[ColumnText],
    names: &[PlacedName],
) -> Result<Columns, AllocError>
    requires { AreNamed columns.now names.now }
    ensures { IfOk result (λ numbers. numbers ≡ map (number_in columns.now) names.now) }
{
    let mut numbers = Columns::new(alloc);
    let mut rest = names;
    'names: while let Some((name, after)) = first(rest) {
        let number = column_number(columns, name.text.bytes());
        numbers.push(number)?;
        rest = after;
    }
    Ok(numbers)
}

fn numbers(
    alloc: Global,
    columns: &[ColumnText],
    names: &Option<PlacedNames>,
) -> Result<Option<Columns>, AllocError>
    requires { AreNamedIn columns.now names.now }
    ensures { IfOk result (λ found. found ≡ numbers columns.now names.now) }
{
    match names {
        None => Ok(None),
        Some(names) => Ok(Some(column_numbers(alloc, columns, names.as_slice())?)),
    }
}

fn declared_column(alloc: Global, column: &ColumnText) -> Result<ColumnDecl, AllocError>
    ensures { IfOk result (λ decl. decl ≡ declared_column column.now) }
{
    let name = column.name.text.copy(alloc)?;
    let kind = column.kind;
    let nullable = column.nullable;
    Ok(ColumnDecl {
        name,
        kind,
        nullable,
    })
}

fn declared_columns(alloc: Global, columns: &[ColumnText]) -> Result<ColumnDecls, AllocError>
    ensures { IfOk result (λ decls. decls ≡ map declared_column columns.now) }
{
    let mut decls = ColumnDecls::new(alloc);
    let mut rest = columns;
    'columns: while let Some((column, after)) = first(rest) {
        let decl = declared_column(alloc, column)?;
        decls.push(decl)?;
        rest = after;
    }
    Ok(decls)
}

// The columns of the first table of this name.
fn columns_named<'a>(tables: &'a [TableText], text: &[u8]) -> &'a [ColumnText]
    ensures { result.now ≡ columns_of (table_named tables.now text.now) }
{
    match table_named(tables, text) {
        Some(table) => table.body.columns.as_slice(),
        None => &[],
    }
}

fn declared_reference(
    alloc: Global,
    tables: &[TableText],
    columns: &[ColumnText],
    reference: &ReferenceText,
) -> Result<Reference, AllocError>
    requires { IsNamedReference tables.now columns.now reference.now }
    ensures { IfOk result (λ decl. decl ≡ declared_reference tables.now columns.now reference.now) }
{
    let targets = columns_named(tables, reference.target.text.bytes());
    let columns = column_numbers(alloc, columns, reference.columns.as_slice())?;
    let target = reference.target.text.copy(alloc)?;
    let keys = column_numbers(alloc, targets, reference.keys.as_slice())?;
    Ok(Reference {
        columns,
        target,
        keys,
    })
}

fn declared_references(
    alloc: Global,
    tables: &[TableText],
    columns: &[ColumnText],
    references: &[ReferenceText],
) -> Result<References, AllocError>
    requires { All (IsNamedReference tables.now columns.now) references.now }
    ensures { IfOk result (λ decls. decls ≡ map (declared_reference tables.now columns.now) references.now) }
{
    let mut decls = References::new(alloc);
    let mut rest = references;
    'references: while let Some((reference, after)) = first(rest) {
        let decl = declared_reference(alloc, tables, columns, reference)?;
        decls.push(decl)?;
        rest = after;
    }
    Ok(decls)
}

fn declared_table(
    alloc: Global,
    tables: &[TableText],
    table: &TableText,
) -> Result<TableDecl, AllocError>
    requires { IsSound tables.now table.now }
    ensures { IfOk result (λ decl. decl ≡ declared_table tables.now table.now) }
{
    let body = &table.body;
    let texts = body.columns.as_slice();
    let name = table.name.text.copy(alloc)?;
    let file = table.file.copy(alloc)?;
    let columns = declared_columns(alloc, texts)?;
    let key = numbers(alloc, texts, &body.key)?;
    let order = numbers(alloc, texts, &body.order)?;
    let references = declared_references(alloc, tables, texts, body.references.as_slice())?;
    Ok(TableDecl::new(name, file, columns, key, order, references))
}

// What the texts of tables declare.
pub(crate) fn declared(alloc: Global, tables: &[TableText]) -> Result<TableDecls, AllocError>
    requires { All (IsSound tables.now) tables.now }
    ensures { IfOk result (λ decls. decls ≡ declared tables.now) }
{
    let mut decls = TableDecls::new(alloc);
    let mut rest = tables;
    'tables: while let Some((table, after)) = first(rest) {
        let decl = declared_table(alloc, tables, table)?;
        decls.push(decl)?;
        rest = after;
    }
    Ok(decls)
}
