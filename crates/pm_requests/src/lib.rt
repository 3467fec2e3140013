//! What a command asks for: the query of the schema's and the query's file, bound, and the tables of FROM from their files.
//!
//! `load` answers what the files' bytes call for, a request or the first refusal in the order of reading; specs/Calls says what
//! they call for. What it loads is sound, so that the plan that is built for it can be run.
#![tactic(auto)]

mod files;
mod laws;
mod loading;
mod references;
mod refusal;
mod request;
mod tables;
mod texts;

pub use laws::{calls_once, requests_are_answered};
pub use loading::load;
pub use refusal::{Refusal, Role};
pub use request::Request;
pub use texts::Fault;
