//! What the texts of tables say.
use pm_grammar::{PlacedName, PlacedNames};
use pm_values::{Items, Kind, Txt};

/// A column as its text declares it.
#[derive(Debug, Drop)]
pub struct ColumnText {
    pub name: PlacedName,
    pub kind: Kind,
    pub nullable: bool,
}

/// A list of columns.
pub type ColumnTexts = Items<ColumnText>;

/// A reference as its text declares it: columns of the table, the table after TO, and columns of that one.
#[derive(Debug, Drop)]
pub struct ReferenceText {
    pub columns: PlacedNames,
    pub target: PlacedName,
    pub keys: PlacedNames,
}

/// A list of references.
pub type ReferenceTexts = Items<ReferenceText>;

/// What stands between the parentheses of a table: its columns, the names in KEY and in ORDER, and its references.
#[derive(Debug, Drop)]
pub struct Body {
    pub columns: ColumnTexts,
    pub key: Option<PlacedNames>,
    pub order: Option<PlacedNames>,
    pub references: ReferenceTexts,
}

/// A table as its text declares it.
#[derive(Debug, Drop)]
pub struct TableText {
    pub name: PlacedName,
    pub file: Txt,
    pub body: Body,
}

/// A list of tables.
pub type TableTexts = Items<TableText>;
