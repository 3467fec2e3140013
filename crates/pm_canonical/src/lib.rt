//! The canonical text of a SELECT statement: `print` gives it, and it is read back as the statement. What it is stands
//! in specs/.
#![tactic(auto)]

mod numerals;
mod printing;
mod read_back;
mod words;

pub use printing::print;
pub use read_back::canonical_text_is_read_back;
pub use words::put_expr;
