//! The operators of a plan.
use pm_values::{Columns, Cond, Items, Kinds, Names, Txt};

/// How a plan line names a table: its name, and the alias that the statement gives it.
#[derive(Debug, Drop)]
pub struct Label {
    pub table: Txt,
    pub alias: Txt,
}

/// Two columns that a join compares: one of the left side's row, and one of the right side's own row, both from 0.
#[derive(Clone, Copy, Debug, PartialEq, Eq)]
pub struct Pair {
    pub left: u32,
    pub right: u32,
}

/// A list of pairs of columns.
pub type Pairs = Items<Pair>;

/// What the declarations say of a join: whether each side has at most one row for each key, as the KEYs of its tables
/// say, and whether each left row has a match, as a reference of one of its tables says.
#[derive(Clone, Copy, Debug, PartialEq, Eq)]
pub struct Unique {
    pub left: bool,
    pub right: bool,
    pub total: bool,
}

/// A column that rows are sorted by. NULL comes first, and last where the order is descending.
#[derive(Clone, Copy, Debug, PartialEq, Eq)]
pub struct SortKey {
    pub column: u32,
    pub descending: bool,
}

/// A list of columns to sort by, the first one first.
pub type SortKeys = Items<SortKey>;

/// What a group computes of its rows: how many they are, how many have a value in the column, or the sum, the least
/// or the greatest of these values, which is NULL where there are none.
#[derive(Clone, Copy, Debug, PartialEq, Eq)]
pub enum Aggregate {
    CountAll,
    Count(u32),
    Sum(u32),
    Min(u32),
    Max(u32),
}

/// A list of aggregates.
pub type Aggregates = Items<Aggregate>;

/// One operator. Children are named by their numbers in the plan, tables by their positions in the database.
#[derive(Debug, Drop)]
pub enum Node {
    /// Hands out the rows of a table.
    Scan {
        table: u32,
        label: Label,
    },
    /// Hands out the rows of its child on which the condition is true.
    Filter {
        child: u32,
        cond: Cond,
    },
    /// Hands out these columns of each row of its child.
    Project {
        child: u32,
        columns: Columns,
    },
    /// Hands out the rows of its child in this order, and equal ones as they came.
    Sort {
        child: u32,
        keys: SortKeys,
    },
    /// Hands out a row for each different list of key values, with its aggregates, and one row where there are no keys.
    Group {
        child: u32,
        keys: Columns,
        items: Aggregates,
    },
    /// Joins by a hash table of the right side's rows, which it reads first. Where `pad` is set, a left row without a
    /// match is handed out once, with NULLs in the right side's columns.
    Hash {
        left: u32,
        right: u32,
        pairs: Pairs,
        unique: Unique,
        pad: bool,
    },
    /// Joins two sides that ascend by the columns of its pairs.
    Merge {
        left: u32,
        right: u32,
        pairs: Pairs,
        unique: Unique,
    },
    /// Looks up rows of a table for the rows of an Index's left side.
    Seek {
        left: u32,
        table: u32,
        pairs: Pairs,
        label: Label,
        unique: Unique,
    },
    /// Joins its left side with the rows that its Seek looks up. Its condition reads the left row, and the Seek's
    /// row after it.
    Index {
        left: u32,
        seek: u32,
        cond: Option<Cond>,
    },
}

/// A list of operators.
pub type Nodes = Items<Node>;

/// The operators in preorder, numbered from 1 (the root), with the names and kinds of the root's columns.
#[derive(Debug, Drop)]
pub struct Plan {
    pub nodes: Nodes,
    pub heads: Names,
    pub kinds: Kinds,
}
