//! What the names of a statement mean over a schema: the tables and the columns of its sources, the columns that its
//! expressions name and their kinds, and its conditions with their names resolved.
//!
//! The rules are in specs/, one file a group. A check tells the first breach of its rules, with its place.
#![tactic(auto)]

mod conditions;
mod fault;
mod kinds;
mod names;
mod sources;
mod terms;

pub use conditions::{check_test, condition, position_in, push_terms, same_aggregate, whole_row};
pub use fault::BindBad;
pub use names::{check_expr, check_name, column_of, expr_at, placed_term, term_of};
pub use sources::{
    check_sources, known_at, known_columns, places, push_new, query_sources, tables, width,
};
pub use terms::{KnownColumn, KnownColumns, PlacedTerm, PlacedTerms, RowShape, Term};
