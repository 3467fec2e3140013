//! Why tokens are no schema.
ghost use Rattle.std.specs.Prelude.{◌≡◌};

use std::alloc::AllocError;
use thiserror::Error;

/// Why tokens are no schema. Each place is that of a token, a byte offset from 0.
#[derive(Clone, Copy, Debug, PartialEq, Eq, Error)]
pub enum SchemaBad {
    /// The first token with which no schema begins.
    #[error("no schema goes on like this at byte {0}")]
    Expected(u64),
    /// The name, or the word TABLE or REFERENCES, that exceeds the limit of its list.
    #[error("the list is too long at byte {0}")]
    TooMany(u64),
    /// A table's name that an earlier table has.
    #[error("the table at byte {0} is declared twice")]
    DoubleTable(u64),
    /// A column's name that an earlier column of its table has.
    #[error("the column at byte {0} is declared twice")]
    DoubleColumn(u64),
    /// A name in KEY or ORDER that is no column of the table, or stands there twice.
    #[error("no new column has the name at byte {0}")]
    KeyColumn(u64),
    /// A name in KEY of a column that is not NOT NULL.
    #[error("the key column at byte {0} may be NULL")]
    NullKey(u64),
    /// A name after TO that is no table of the schema.
    #[error("no table has the name at byte {0}")]
    RefTable(u64),
    /// A name in a reference that is no column of its table, or stands there twice.
    #[error("no new column of a reference has the name at byte {0}")]
    RefColumn(u64),
    /// The name after TO of a reference whose lists differ in length, whose columns differ in kind from those beside
    /// them or may be NULL, or whose second list is not the KEY of the table that it names.
    #[error("the columns do not refer to the key of the table at byte {0}")]
    RefShape(u64),
    /// No memory was left.
    #[error("out of memory")]
    Memory,
}

impl From<AllocError> for SchemaBad {
    ghost use Rattle.pm_schema.specs.declared.fault.SchemaBad.TheVariants.{Memory};

    ghost from_gives = { λ _ e. e ≡ Memory };

    fn from(_e: AllocError) -> SchemaBad {
        SchemaBad::Memory
    }
}
