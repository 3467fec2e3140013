//! The bytes of a CSV file to a typed table: records, the values of their fields, KEY and ORDER; and references between tables.
//!
//! A table comes exactly where the bytes and the declaration have one, and else the first fault of the file; a reference is refused at the
//! first row without a target.
#![tactic(auto)]

mod fault;
mod field;
mod keys;
mod laws;
mod loading;
mod reading;
mod record_list;
mod references;
mod streaming;
mod table;
mod typing;
mod worked;

pub use fault::DataBad;
pub use laws::calls_once;
pub use loading::load;
pub use reading::records;
pub use record_list::Records;
pub use references::check_reference;
pub use table::finish;
pub use typing::type_rows;
pub use worked::worked_fields;
