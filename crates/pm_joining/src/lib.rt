//! The parts of the plan that is built for a bound query, as a tree: what each source takes of the conjuncts, the way in
//! which it is joined to those before it, and what the declarations say of the sides of a join.
//!
//! Each call gives exactly what pm_query and pm_plan define.
#![tactic(auto)]

mod entry;
mod flags;
mod references;
mod tables;
mod taking;
mod tree;
mod uniqueness;
mod ways;
mod widths;

pub use entry::Entry;
pub use flags::{join_flags, seek_flags};
pub use tables::{columns_of, label_of, order_of, scan_of, table_width, tables_are_declared};
pub use taking::{conditions_of, left_over, own_conditions, pairs_of};
pub use tree::{On, Seek, Tree, Unary};
pub use ways::{Way, way_of};
