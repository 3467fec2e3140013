//! Reads a schema text from its tokens: `read_schema` gives the tables that the text declares exactly where it has a
//! reading that breaks no rule, and else the refusal with its place. The grammar and the rules are in specs/.
#![tactic(auto)]

mod bodies;
mod declared;
mod fault;
mod laws;
mod marks;
mod read;
mod references;
mod rules;
mod schema;
mod tables;
mod terminals;
mod tree;
mod walk;
mod worked;

pub use fault::SchemaBad;
pub use laws::answers_once;
pub use schema::{Schema, read_schema};
pub use worked::texts_worked;
