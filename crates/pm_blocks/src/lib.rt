//! The operators that read all rows before they hand out one: the stable sort, and groups with their aggregates.
//!
//! What they hand out is what the definitions of pm_plan say of the rows that were taken.
#![tactic(auto)]

mod accumulators;
mod group;
mod laws;
mod leads;
mod sort;
mod worked;

pub use group::GroupCore;
pub use laws::{groups_are_different_keys, groups_of_one_more_row, numbers_are_sorted};
pub use sort::SortCore;
