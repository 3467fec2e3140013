//! The plan that is built for a bound query: `build` gives exactly the plan that pm_query defines, or the bound for which
//! it is too wide.
//!
//! A plan is built as a tree and written as a list of nodes at the end.
#![tactic(auto)]

mod building;
mod first;
mod groups;
mod joins;
mod kinds;
mod nodes;
mod worked;

pub use building::{BuildBad, build};
