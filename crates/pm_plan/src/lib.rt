//! The plan of a statement as a tree of operators, and the rows that each of them hands out.
//!
//! `check_plan` says whether a plan keeps the rules for the tables that are declared.
#![tactic(auto)]

mod fits;
mod gauge;
mod kinds;
mod laws;
mod numbering;
mod plan;
mod references;
mod root;
mod shape;
mod text;
mod uniqueness;
mod valid;
mod worked;

pub use gauge::{Bound, Gauge, Shown, Whole};
pub use plan::{
    Aggregate, Aggregates, Label, Node, Nodes, Pair, Pairs, Plan, SortKey, SortKeys, Unique,
};
pub use root::{Method, Root, Unary, number_after, pads, root_at};
pub use text::{node_text, plan_text};
pub use valid::check_plan;
