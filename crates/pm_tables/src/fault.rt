//! What is wrong with a table's file or with its rows.
ghost use Rattle.std.specs.Prelude.{◌≡◌};
ghost use Rattle.pm_tables.specs.declared.fault.DataBad.TheVariants.{Memory};

use std::alloc::{AllocError, AllocFailed};
use thiserror::Error;

/// Why a file is no table of its declaration.
///
/// Records are counted from 1, from the one after the header, and columns from 1.
#[derive(Clone, Copy, Debug, PartialEq, Eq, Error)]
pub enum DataBad {
    /// The file has more bytes than a table may have.
    #[error("the file is too long")]
    TooLong,
    /// The bytes are not UTF-8; so many at the front are.
    #[error("no UTF-8 behind the first {0} bytes")]
    NotText(u64),
    /// There is no record.
    #[error("no header")]
    NoHeader,
    /// The first record is not the list of column names; this is the first column that differs.
    #[error("the header differs in column {0}")]
    Header(u32),
    /// There are more records than a table may have.
    #[error("too many records")]
    TooManyRows,
    /// This record has another number of fields than there are columns.
    #[error("record {0} has another number of fields than there are columns")]
    Width(u32),
    /// In this record the field of this column has no value.
    #[error("record {0} has no value in column {1}")]
    Field(u32, u32),
    /// The KEY of the second record is that of the first.
    #[error("records {0} and {1} have one key")]
    DoubleKey(u32, u32),
    /// The ORDER columns of this record are below those of the record before.
    #[error("record {0} is out of order")]
    OutOfOrder(u32),
    /// The columns of this record that the reference with this number, from 1, names have no target.
    #[error("record {0} has no target of reference {1}")]
    NoTarget(u32, u32),
    /// There was no memory.
    #[error("out of memory")]
    Memory,
}

impl From<AllocError> for DataBad {
    ghost from_gives = { λ _ bad. bad ≡ Memory };

    fn from(_error: AllocError) -> Self {
        DataBad::Memory
    }
}

impl<T: Drop> From<AllocFailed<T>> for DataBad {
    ghost from_gives = { λ _ bad. bad ≡ Memory };

    fn from(_error: AllocFailed<T>) -> Self {
        DataBad::Memory
    }
}
