//! The lines that the program writes: plan, header, row, progress, end and refusal lines.
//!
//! Each call writes exactly the bytes of its line, or says that a write failed after a first part of them.
#![tactic(auto)]

mod buffer;
mod explained;
mod fault;
mod plan;
mod progress;
mod refusal;
mod rows;

pub use explained::{put_bound, put_first};
pub use fault::LineBad;
pub use plan::put_plan;
pub use progress::{put_end, put_progress};
pub use refusal::{Values, put_refusal};
pub use rows::{put_head, put_row};
