//! Pipelines and their driver nodes, what a progress line shows, and what is certain of it at every event of a run.
#![tactic(auto)]

mod estimator;
mod laws;
mod pipes;
mod worked;

pub use estimator::estimate;
pub use pipes::{Pipe, Pipes};
