//! Declared columns, references and tables.
ghost use Rattle.std.specs.Prelude.{◌≡◌, IfOk, MatchOption, None, Some};
ghost use Rattle.pm_values.specs.Table.{IsDeclaration, IsRelation};

use crate::items::{Columns, Items};
use crate::text::Txt;
use crate::value::{Kind, Rows};
use std::alloc::{AllocError, Global};
use std::marker::Model;

/// A column as a schema declares it.
#[derive(Debug, Drop)]
pub struct ColumnDecl {
    pub name: Txt,
    pub kind: Kind,
    pub nullable: bool,
}

/// A list of columns.
pub type ColumnDecls = Items<ColumnDecl>;

impl ColumnDecl {
    /// An equal column.
    pub fn copy(&self, alloc: Global) -> Result<ColumnDecl, AllocError>
        ensures { IfOk result (λ copy. copy ≡ self.now) }
    {
        Ok(ColumnDecl {
            name: self.name.copy(alloc)?,
            kind: self.kind,
            nullable: self.nullable,
        })
    }
}

/// A reference as a schema declares it: in each row these columns have the values that the columns `keys` have in some row
/// of the table with the name `target`.
#[derive(Debug, Drop)]
pub struct Reference {
    pub columns: Columns,
    pub target: Txt,
    pub keys: Columns,
}

/// A list of references.
pub type References = Items<Reference>;

impl Reference {
    /// An equal reference.
    pub fn copy(&self, alloc: Global) -> Result<Reference, AllocError>
        ensures { IfOk result (λ copy. copy ≡ self.now) }
    {
        Ok(Reference {
            columns: Columns::from_slice(alloc, self.columns.as_slice())?,
            target: self.target.copy(alloc)?,
            keys: Columns::from_slice(alloc, self.keys.as_slice())?,
        })
    }
}

/// A table as a schema declares it: its name, the file that holds its rows, its columns, the columns that are its
/// KEY (no two rows agree in all of them) and its ORDER (the rows ascend by them), where it has these, and its references.
///
/// It has at most 64 columns, the scale of each fixed-point column is from 1 to 6, and KEY, ORDER and the first list of
/// each reference name columns of its own, by their numbers from 0.
#[derive(Debug, Drop)]
pub struct TableDecl {
    name: Txt,
    file: Txt,
    columns: ColumnDecls,
    key: Option<Columns>,
    order: Option<Columns>,
    references: References,
}

impl Model for TableDecl {
    ghost use Rattle.pm_values.specs.Table.{Declaration, IsDeclaration};

    ghost Value = { Declaration };

    ghost view = { λ d. record { name = d.name; file = d.file; columns = d.columns; key = d.key; order = d.order; references = d.references } };

    ghost invariant = { λ d. IsDeclaration (record { name = d.name; file = d.file; columns = d.columns; key = d.key; order = d.order; references = d.references }) };
}

impl TableDecl {
    /// A declaration of columns that are as the type says.
    pub fn new(
        name: Txt,
        file: Txt,
        columns: ColumnDecls,
        key: Option<Columns>,
        order: Option<Columns>,
        references: References,
    ) -> TableDecl
        requires { IsDeclaration (record { name = name; file = file; columns = columns; key = key; order = order; references = references }) }
        ensures { result ≡ record { name = name; file = file; columns = columns; key = key; order = order; references = references } }
    {
        TableDecl {
            name,
            file,
            columns,
            key,
            order,
            references,
        }
    }

    /// The table's name.
    pub fn name(&self) -> &Txt
        ensures { result.now ≡ self.now.name }
    {
        &self.name
    }

    /// The name of the file that holds the rows, as it is given.
    pub fn file(&self) -> &Txt
        ensures { result.now ≡ self.now.file }
    {
        &self.file
    }

    /// The columns, in the order of the file.
    pub fn columns(&self) -> &ColumnDecls
        ensures value { result.now ≡ self.now.columns }
        ensures declared { IsDeclaration self.now }
    {
        &self.columns
    }

    /// The columns of KEY.
    pub fn key(&self) -> Option<&Columns>
        ensures value { MatchOption result (self.now.key ≡ None) (λ columns. self.now.key ≡ Some columns.now) }
        ensures declared { IsDeclaration self.now }
    {
        self.key.as_ref()
    }

    /// The columns of ORDER.
    pub fn order(&self) -> Option<&Columns>
        ensures value { MatchOption result (self.now.order ≡ None) (λ columns. self.now.order ≡ Some columns.now) }
        ensures declared { IsDeclaration self.now }
    {
        self.order.as_ref()
    }

    /// The references, in the order of the schema.
    pub fn references(&self) -> &References
        ensures value { result.now ≡ self.now.references }
        ensures declared { IsDeclaration self.now }
    {
        &self.references
    }

    /// An equal declaration.
    pub fn copy(&self, alloc: Global) -> Result<TableDecl, AllocError>
        ensures { IfOk result (λ copy. copy ≡ self.now) }
    {
        Ok(TableDecl {
            name: self.name.copy(alloc)?,
            file: self.file.copy(alloc)?,
            columns: copy_columns(alloc, &self.columns)?,
            key: copy_numbers(alloc, &self.key)?,
            order: copy_numbers(alloc, &self.order)?,
            references: copy_references(alloc, &self.references)?,
        })
    }
}

fn copy_columns(alloc: Global, columns: &ColumnDecls) -> Result<ColumnDecls, AllocError>
    ensures { IfOk result (λ copy. copy ≡ columns.now) }
{
    let mut copy = ColumnDecls::new(alloc);
    for column in columns.as_slice() {
        copy.push(column.copy(alloc)?)?;
    }
    Ok(copy)
}

fn copy_references(alloc: Global, references: &References) -> Result<References, AllocError>
    ensures { IfOk result (λ copy. copy ≡ references.now) }
{
    let mut copy = References::new(alloc);
    for reference in references.as_slice() {
        copy.push(reference.copy(alloc)?)?;
    }
    Ok(copy)
}

fn copy_numbers(alloc: Global, columns: &Option<Columns>) -> Result<Option<Columns>, AllocError>
    ensures { IfOk result (λ copy. copy ≡ columns.now) }
{
    match columns {
        Some(columns) => Ok(Some(Columns::from_slice(alloc, columns.as_slice())?)),
        None => Ok(None),
    }
}

/// A list of declarations.
pub type TableDecls = Items<TableDecl>;

/// A declared table with its rows.
///
/// It has at most 2^24 rows, and each has one value per column, of the column's kind, and NULL only where the column
/// is nullable. No two rows agree in all KEY columns, and the rows ascend by the ORDER columns.
#[derive(Debug, Drop)]
pub struct Table {
    decl: TableDecl,
    rows: Rows,
}

/// The tables of a database.
pub type Db = Items<Table>;

impl Model for Table {
    ghost use Rattle.pm_values.specs.Table.{Relation, IsRelation};

    ghost Value = { Relation };

    ghost view = { λ t. record { decl = t.decl; rows = t.rows } };

    ghost invariant = { λ t. IsRelation (record { decl = t.decl; rows = t.rows }) };
}

impl Table {
    /// A table of rows that are what the declaration says.
    pub fn new(decl: TableDecl, rows: Rows) -> Table
        requires { IsRelation (record { decl = decl; rows = rows }) }
        ensures decl { result.decl ≡ decl }
        ensures rows { result.rows ≡ rows }
    {
        Table { decl, rows }
    }

    /// The declaration.
    pub fn decl(&self) -> &TableDecl
        ensures value { result.now ≡ self.now.decl }
        ensures declared { IsRelation self.now }
    {
        &self.decl
    }

    /// The rows, in the order of the file.
    pub fn rows(&self) -> &Rows
        ensures value { result.now ≡ self.now.rows }
        ensures declared { IsRelation self.now }
    {
        &self.rows
    }
}
