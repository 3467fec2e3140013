//! The texts of the demo: a schema of customers and orders, a statement over them, and both tables' files.
//!
//! `make` gives exactly the texts that specs/Texts defines, for any number of customers up to a limit.
#![tactic(auto)]

mod demo;
mod worked;

pub use demo::{Demo, MOST_CUSTOMERS, make};
pub use worked::texts_worked;
