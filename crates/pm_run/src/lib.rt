//! A run of a plan that writes its text: plan and header lines, row and progress lines event by event, and the end line;
//! and the text of what is known of the plan before it runs.
#![tactic(auto)]

mod bounding;
mod explain;
mod laws;
mod meter;
mod row;
mod run;
mod turn;
mod worked;

pub use explain::explain_all;
pub use laws::{settings_change_progress_alone, texts_have_the_output};
pub use run::{Run, Stage, run_all};
pub use turn::Turn;
