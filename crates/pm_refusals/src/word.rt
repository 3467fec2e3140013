//! The words, one for each cause of a refusal.
ghost use Rattle.std.specs.Prelude.{◌≡◌, ◌≤◌, length};
ghost use Rattle.pm_refusals.specs.Words.{word_text};

/// The word of a refusal line, which says what was refused.
#[derive(Clone, Copy, Debug, PartialEq, Eq)]
pub enum Word {
    /// The words of the command call for nothing.
    Usage,
    /// A file has more bytes than it may have.
    TooLong,
    /// The bytes are not UTF-8.
    NotText,
    /// A character begins no token, or stands in no quoted name.
    BadChar,
    /// A text or a quoted name has no closing quote.
    OpenText,
    /// A number has too many digits.
    LongNumber,
    /// A name has too many bytes.
    LongName,
    /// No text goes on so.
    Expected,
    /// Too many parentheses and NOTs are open.
    TooDeep,
    /// A list has too many entries.
    TooMany,
    /// A table is declared twice.
    DoubleTable,
    /// A column is declared twice.
    DoubleColumn,
    /// KEY or ORDER names no column of the table, or one twice.
    KeyColumn,
    /// A column of KEY can be NULL.
    NullKey,
    /// A reference names no table of the schema.
    RefTable,
    /// A reference names no column of its table, or one twice.
    RefColumn,
    /// The columns of a reference do not fit those of the other table's KEY.
    RefShape,
    /// FROM names no table of the schema.
    NoTable,
    /// Two entries of FROM have one alias.
    DoubleAlias,
    /// FROM has too many entries.
    TooManyTables,
    /// No table that is known there has the column.
    NoColumn,
    /// Two tables that are known there have the column.
    TwoColumns,
    /// Two sides of a test, or a sum, are of kinds that do not fit.
    Kinds,
    /// A column outside an aggregate is not grouped by.
    NotGrouped,
    /// With DISTINCT, rows are ordered by what is not selected.
    NotSelected,
    /// A table has no equality with an earlier one.
    NoJoinKey,
    /// A condition of a LEFT JOIN is neither of its table nor an equality with an earlier one.
    LeftOn,
    /// The file has no record.
    NoHeader,
    /// The first record is not the list of column names.
    Header,
    /// There are more records than a table may have.
    TooManyRows,
    /// A record has another number of fields than there are columns.
    Width,
    /// A field has no value of its column.
    Field,
    /// Two records have one KEY.
    DoubleKey,
    /// A record is below the one before it by ORDER.
    OutOfOrder,
    /// A record refers to none of the other table.
    NoTarget,
    /// There is no such file.
    NoFile,
    /// The file could not be read.
    Read,
    /// The plan could do more work than is allowed.
    TooWide,
}

impl Word {
    /// The word as it is written, which has at most 20 bytes.
    pub fn text(self) -> &'static str
        ensures value { result.now ≡ word_text self }
        ensures short { length result.now ≤ 20 }
    {
        match self {
            Word::Usage => "usage",
            Word::TooLong => "toolong",
            Word::NotText => "nottext",
            Word::BadChar => "badchar",
            Word::OpenText => "opentext",
            Word::LongNumber => "longnumber",
            Word::LongName => "longname",
            Word::Expected => "expected",
            Word::TooDeep => "toodeep",
            Word::TooMany => "toomany",
            Word::DoubleTable => "doubletable",
            Word::DoubleColumn => "doublecolumn",
            Word::KeyColumn => "keycolumn",
            Word::NullKey => "nullkey",
            Word::RefTable => "reftable",
            Word::RefColumn => "refcolumn",
            Word::RefShape => "refshape",
            Word::NoTable => "notable",
            Word::DoubleAlias => "doublealias",
            Word::TooManyTables => "toomanytables",
            Word::NoColumn => "nocolumn",
            Word::TwoColumns => "twocolumns",
            Word::Kinds => "kinds",
            Word::NotGrouped => "notgrouped",
            Word::NotSelected => "notselected",
            Word::NoJoinKey => "nojoinkey",
            Word::LeftOn => "lefton",
            Word::NoHeader => "noheader",
            Word::Header => "header",
            Word::TooManyRows => "toomanyrows",
            Word::Width => "width",
            Word::Field => "field",
            Word::DoubleKey => "doublekey",
            Word::OutOfOrder => "outoforder",
            Word::NoTarget => "notarget",
            Word::NoFile => "nofile",
            Word::Read => "read",
            Word::TooWide => "toowide",
        }
    }
}
