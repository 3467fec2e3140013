//! The limits of schemas, tables and numbers.

/// The most columns that a table has.
pub const MOST_COLUMNS: usize = 64;

/// The most columns in a list that KEY, ORDER or a reference names.
pub const MOST_KEY_COLUMNS: usize = 8;

/// The most references that a table has.
pub const MOST_REFERENCES: usize = 8;

/// The most rows that a table has.
pub const MOST_RECORDS: u32 = 1 << 24;

/// The most digits after the point of a number.
pub const MOST_DECIMALS: u8 = 6;
