//! Keys numbered from 0 in order of first appearance, found by lent cells in about one step.
//!
//! A contract sees a table of keys as the list of its different keys; a key's number is its place there. NULLs count
//! as one value. A look-up takes no memory, and a key that is refused for want of memory leaves the table.
#![tactic(auto)]

mod hash;
mod keys;
mod laws;
mod numbers;
mod own;
mod table;
mod worked;

pub use keys::{Keep, Keys, LentKey, same_values};
pub use laws::entered_keys_are_different_keys;
pub use numbers::KeyNumbers;
pub use table::KeyTable;
