//! Values, rows and the kinds of columns.
ghost use Rattle.std.specs.Prelude.{◌≡◌, IfOk};

use crate::items::Items;
use crate::text::Txt;
use std::alloc::{AllocError, Global};

/// A value of SQL: NULL, a whole number, or a text.
#[derive(Debug, Drop)]
pub enum Value {
    Null,
    Int(i128),
    Text(Txt),
}

impl Value {
    /// An equal value.
    pub fn copy(&self, alloc: Global) -> Result<Value, AllocError>
        ensures { IfOk result (λ copy. copy ≡ self.now) }
    {
        match self {
            Value::Null => Ok(Value::Null),
            Value::Int(n) => Ok(Value::Int(*n)),
            Value::Text(text) => Ok(Value::Text(text.copy(alloc)?)),
        }
    }
}

/// What a column holds.
///
/// `Int` is a whole number of 64 bits, signed. `Num(s)` is a fixed-point number with `s` decimals, held as a whole
/// number times 10^-s, in 64 bits, signed. `Text` is a text.
#[derive(Clone, Copy, Debug, PartialEq, Eq)]
pub enum Kind {
    Int,
    Num(u8),
    Text,
}

/// A list of kinds.
pub type Kinds = Items<Kind>;

/// The values of one row, in the order of its columns.
pub type Row = Items<Value>;

/// An equal row.
pub fn copy_row(alloc: Global, row: &Row) -> Result<Row, AllocError>
    ensures { IfOk result (λ copy. copy ≡ row.now) }
{
    let mut copy = Row::new(alloc);
    for value in row.as_slice() {
        copy.push(value.copy(alloc)?)?;
    }
    Ok(copy)
}

/// A list of rows.
pub type Rows = Items<Row>;
