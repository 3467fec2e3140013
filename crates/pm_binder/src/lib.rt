//! Binds a SELECT statement to the tables of a schema: `bind` gives the query with its names resolved exactly where the
//! statement keeps the rules, and else the first breach of one with its place. The rules are in specs/, one file a group.
#![tactic(auto)]

mod binding;
mod conjuncts;
mod grouping;
mod joins;
mod laws;
mod selection;
mod terms;
mod worked;

pub use binding::bind;
pub use laws::{declared_are_tables, queries_are_bound, readings_are_formed, rows_are_answers};
pub use pm_names::BindBad;
pub use worked::{
    grouping_worked, joins_worked, kinds_worked, names_worked, queries_worked, rows_worked,
    sources_worked,
};
