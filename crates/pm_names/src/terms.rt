//! Columns that names may mean, and what expressions mean.
use pm_plan::{Aggregate, Aggregates};
use pm_values::{Columns, Items, Kind, Txt};

/// A column that names may mean, with the alias of its source.
#[derive(Debug, Drop)]
pub struct KnownColumn {
    pub alias: Txt,
    pub name: Txt,
    pub kind: Kind,
}

/// The columns that names may mean, those of the sources in order.
pub type KnownColumns = Items<KnownColumn>;

/// What an expression means: a column, by its position among all columns of all sources, or an aggregate of one.
#[derive(Clone, Copy, Debug)]
pub enum Term {
    Column(u32),
    Call(Aggregate),
}

/// What an expression means, and its place.
#[derive(Debug, Drop)]
pub struct PlacedTerm {
    pub term: Term,
    pub at: u64,
}

/// A list of what expressions mean.
pub type PlacedTerms = Items<PlacedTerm>;

/// The columns of a row that is read: those of all sources, or in a grouped query the keys and then the aggregates.
#[derive(Debug, Drop)]
pub struct RowShape {
    pub grouped: bool,
    pub keys: Columns,
    pub calls: Aggregates,
}
