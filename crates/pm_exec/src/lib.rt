//! A plan that runs over a database: one step is one event, a row that one operator hands out.
//!
//! Beside the iterators of its operators a run keeps one gauge for each node, which says what is known of it so far.
#![tactic(auto)]

mod exec;
mod gauges;
mod laws;
mod tick;

pub use exec::{Exec, runs_fit};
pub use gauges::first_gauges;
pub use tick::Tick;
