//! What the iterators of a plan are made of: the rows of a table, the right sides of joins, and what keeps a row without a copy.
//!
//! A contract sees an iterator as a flow: its number, the events that it has to come, and the row at hand. What a run is lent,
//! the columns of keys and the indexes, is made here too.
#![tactic(auto)]

mod build;
mod columns;
mod condition;
mod indexes;
mod lookup;
mod merge_side;
mod part;
mod scan;
mod side;
mod taken;

pub use build::BuildSide;
pub use columns::{JoinColumns, KeyColumns, key_columns};
pub use condition::keeps;
pub use indexes::{Indexes, seek_indexes};
pub use lookup::Lookup;
pub use merge_side::MergeSide;
pub use part::{Part, behind, first_of, push_all, put};
pub use scan::Scan;
pub use side::Side;
pub use taken::{Taken, rows_if};
