//! A statement whose names are resolved.
use pm_plan::{Aggregate, Aggregates, SortKey, SortKeys};
use pm_values::{Columns, Cond, Items, Names, TableDecl, Txt};

/// A table of FROM: its position in the schema, from 0, and its declaration.
#[derive(Debug, Drop)]
pub struct QueryTable {
    pub place: u32,
    pub decl: TableDecl,
}

/// The tables of FROM, each once, in the order in which they first appear. Their positions in this list are those of
/// their rows in a database, and the table numbers of a plan.
pub type QueryTables = Items<QueryTable>;

/// An entry of FROM: the position of its table in the query's tables, its alias, given or taken from the table, and
/// whether it stands after LEFT JOIN.
#[derive(Debug, Drop)]
pub struct QuerySource {
    pub table: u32,
    pub alias: Txt,
    pub left: bool,
}

/// The entries of FROM, in order.
pub type QuerySources = Items<QuerySource>;

/// One of the conditions that all have to be true: a member of WHERE, or of the ON of the source at this position.
#[derive(Debug, Drop)]
pub struct Conjunct {
    pub on: Option<u32>,
    pub cond: Cond,
}

/// The conjuncts of a statement, in the order of its text: the members of ON and WHERE, with AND lists taken apart at all
/// levels. A BETWEEN is one conjunct.
pub type Conjuncts = Items<Conjunct>;

/// An aggregate of a query.
pub type Call = Aggregate;

/// The different aggregates of a query, in the order of its text.
pub type Calls = Aggregates;

/// A column that the rows of a query are sorted by.
pub type QueryOrder = SortKey;

/// The columns of ORDER BY, the first one first.
pub type QueryOrders = SortKeys;

/// A statement whose names are resolved.
///
/// Columns in `conjuncts`, `keys` and `aggregates` are positions, from 0, in the row of all columns of all sources in
/// order. Columns in `having`, `outputs` and `orders` are positions in the same row, or in a grouped query in the row of
/// the keys followed by the aggregates. `keys` and `aggregates` hold each entry once.
#[derive(Debug, Drop)]
pub struct Query {
    pub tables: QueryTables,
    pub sources: QuerySources,
    pub conjuncts: Conjuncts,
    pub grouped: bool,
    pub keys: Columns,
    pub aggregates: Calls,
    pub having: Option<Cond>,
    pub outputs: Columns,
    pub heads: Names,
    pub orders: QueryOrders,
    pub distinct: bool,
}

/// How the sources after the first one are joined: as the tables' KEYs, ORDERs and sizes say, or all in one way where
/// that can be.
#[derive(Clone, Copy, Debug, PartialEq, Eq)]
pub enum Choice {
    Auto,
    Hash,
    Merge,
    Index,
}
