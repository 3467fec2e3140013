//! A lower and an upper bound of the rows of each operator and of the whole work at every moment of a run, and the laws
//! that say so: they enclose the truth, never widen, and are exact at the end. Bounds are computed without memory.
#![tactic(auto)]

mod all;
mod first_bounds;
mod laws;
mod lower;
mod node;
mod upper;
mod worked;

pub use all::{bounds_all, whole};
pub use first_bounds::first_bound;
pub use node::bound_at;
