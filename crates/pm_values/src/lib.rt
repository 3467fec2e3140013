//! Values, rows, conditions on rows and tables of a database, and the small list and text types that every other
//! crate shares.
//!
//! A contract sees a list type as the list of its items, a text as its bytes, and a table as its declaration
//! and its rows. A table keeps in its type that its rows are what its declaration says.
#![tactic(auto)]

mod cells;
mod condition;
mod eval;
mod gate;
mod items;
mod key;
mod laws;
mod limits;
mod order;
mod print;
mod scaled;
mod table;
mod text;
mod value;
mod worked;

pub use cells::{Cells, Pick};
pub use condition::{Comparison, Cond, Conds, Operand, Truth};
pub use gate::{Gate, OpenGate};
pub use items::{Bytes, Columns, Items, Names};
pub use key::same_key;
pub use limits::{MOST_COLUMNS, MOST_DECIMALS, MOST_KEY_COLUMNS, MOST_RECORDS, MOST_REFERENCES};
pub use order::compare;
pub use print::value_text;
pub use table::{ColumnDecl, ColumnDecls, Db, Reference, References, Table, TableDecl, TableDecls};
pub use text::Txt;
pub use value::{Kind, Kinds, Row, Rows, Value, copy_row};
