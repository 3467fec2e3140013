//! Why a statement is not bound.
ghost use Rattle.std.specs.Prelude.{◌≡◌};

use std::alloc::AllocError;
use thiserror::Error;

/// Why a statement is not bound to a schema. Each place is a byte offset from 0 in the statement's text.
#[derive(Clone, Copy, Debug, PartialEq, Eq, Error)]
pub enum BindBad {
    /// A name in FROM that is no table of the schema.
    #[error("no table has the name at byte {0}")]
    NoTable(u64),
    /// A source's alias, given or taken from its table, that an earlier source has.
    #[error("an earlier source has the alias at byte {0}")]
    DoubleAlias(u64),
    /// The name of the ninth source's table.
    #[error("a ninth source stands at byte {0}")]
    TooManyTables(u64),
    /// A name of which no source that is known there has a column, or whose first part is no alias of one.
    #[error("no source that is known has the column at byte {0}")]
    NoColumn(u64),
    /// A name without alias that two known sources have a column of, or that two AS names of ORDER BY are.
    #[error("the name at byte {0} is that of two columns")]
    TwoColumns(u64),
    /// A comparison of kinds that do not fit, by its sign or word, or a SUM of texts, by its name.
    #[error("the kinds do not fit at byte {0}")]
    Kinds(u64),
    /// A column of a grouped query that is no column of GROUP BY, or `*`.
    #[error("the column at byte {0} is not grouped")]
    NotGrouped(u64),
    /// An entry of ORDER BY beside DISTINCT that is not selected.
    #[error("the order at byte {0} is not selected")]
    NotSelected(u64),
    /// The table's name of a source that has no join pair.
    #[error("the source at byte {0} is joined by no equality")]
    NoJoinKey(u64),
    /// The table's name of a source after LEFT JOIN whose ON has a condition that is neither a join pair nor on it alone.
    #[error("the left join at byte {0} has a condition on other sources")]
    LeftOn(u64),
    /// No memory was left.
    #[error("out of memory")]
    Memory,
}

impl From<AllocError> for BindBad {
    ghost use Rattle.pm_names.specs.declared.fault.BindBad.TheVariants.{Memory};

    ghost from_gives = { λ _ e. e ≡ Memory };

    fn from(_e: AllocError) -> BindBad {
        BindBad::Memory
    }
}
