//! Reads a SELECT statement from its tokens: `parse` gives the tree exactly where the tokens are a statement within the
//! limits, and else the refusal with the least place. The grammar is in specs/.
#![tactic(auto)]

mod conditions;
mod entries;
mod expressions;
mod numbers;
mod statement;
mod terminals;
mod tree;
mod worked;

pub use pm_grammar::{PlacedName, SynBad};
pub use statement::{answers_once, parse};
pub use tree::{
    Atom, ColumnName, ColumnNames, Expr, Func, Item, Items, Link, Literal, Literals, OrderItem,
    OrderItems, Select, SelectItems, Source, Sources, Test, Tests,
};
