//! A table's file loaded by workers, each of which types a part of the records.
//!
//! What comes of it is what one worker gives, for every number of workers and every gate: the table, or the first fault of the file.
#![tactic(auto)]

mod loading;
mod parts;

pub use loading::load;
