//! The words of the command line: the verb, its positions and its options, read by `clap`.
//!
//! `read_words` answers the settings that the words call for, or Usage exactly where they call for none.
#![tactic(auto)]

mod command;
mod reading;
mod settings;
mod worked;

pub use reading::read_words;
pub use settings::{DemoSettings, ExplainSettings, RunSettings, Settings, Verb, WordsBad};
pub use worked::words_worked;
