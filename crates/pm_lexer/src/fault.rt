//! Why a text has no tokens.
ghost use Rattle.std.specs.Prelude.{◌≡◌};
ghost use Rattle.pm_lexer.specs.declared.fault.LexBad.TheVariants.{Memory};

use std::alloc::{AllocError, AllocFailed};
use thiserror::Error;

/// Why a text has no tokens. Each place is a byte offset from 0.
#[derive(Clone, Copy, Debug, PartialEq, Eq, Error)]
pub enum LexBad {
    /// A character that can begin no token or stands in a quoted name against its rule, or an empty quoted name.
    #[error("no token begins at byte {0}")]
    BadChar(u64),
    /// A text or a quoted name without its closing quote, at its first quote.
    #[error("the quote at byte {0} is not closed")]
    OpenText(u64),
    /// A number with more than 30 digits, or more than 6 after the point, at its first digit.
    #[error("the number at byte {0} is too long")]
    LongNumber(u64),
    /// A name with more than 64 bytes, at its first byte or its first quote.
    #[error("the name at byte {0} is too long")]
    LongName(u64),
    /// No memory was left.
    #[error("out of memory")]
    Memory,
}

impl From<AllocError> for LexBad {
    ghost from_gives = { λ _ e. e ≡ Memory };

    fn from(_e: AllocError) -> LexBad {
        LexBad::Memory
    }
}

impl<T: Drop> From<AllocFailed<T>> for LexBad {
    ghost from_gives = { λ _ e. e ≡ Memory };

    fn from(_e: AllocFailed<T>) -> LexBad {
        LexBad::Memory
    }
}
