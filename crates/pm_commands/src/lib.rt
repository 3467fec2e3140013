//! What a command asks for: the request, the plan and the output that the words and the files call for.
//!
//! `prepare` answers these, or the first refusal in the order of reading; specs/Calls says what words and files call for.
//! `write` writes the text of what was prepared; specs/Text says what it is.
#![tactic(auto)]

mod command;
mod demo;
mod laws;
mod preparing;
mod stop;
mod writing;

pub use command::Output;
pub use laws::{
    calls_once, joins_change_no_row, progress_changes_no_other_line, ready_is_certified,
    workers_change_nothing,
};
pub use preparing::{Prepared, prepare};
pub use stop::Stop;
pub use writing::write;
