//! Why reading by a grammar stops.
ghost use Rattle.std.specs.Prelude.{◌≡◌};
ghost use Rattle.pm_grammar.specs.declared.fault.SynBad.TheVariants.{Memory};

use std::alloc::{AllocError, AllocFailed};
use thiserror::Error;

/// Why tokens are no phrase of a language. Each place is that of a token, a byte offset from 0.
#[derive(Clone, Copy, Debug, PartialEq, Eq, Error)]
pub enum SynBad {
    /// The first token with which no phrase begins.
    #[error("no phrase goes on like this at byte {0}")]
    Expected(u64),
    /// The first token with which a phrase begins only if it is nested deeper than may be.
    #[error("the phrase is nested too deeply at byte {0}")]
    TooDeep(u64),
    /// The first token of the entry that exceeds the limit of its list.
    #[error("the list is too long at byte {0}")]
    TooMany(u64),
    /// No memory was left.
    #[error("out of memory")]
    Memory,
}

impl From<AllocError> for SynBad {
    ghost from_gives = { λ _ e. e ≡ Memory };

    fn from(_e: AllocError) -> SynBad {
        SynBad::Memory
    }
}

impl<T: Drop> From<AllocFailed<T>> for SynBad {
    ghost from_gives = { λ _ e. e ≡ Memory };

    fn from(_e: AllocFailed<T>) -> SynBad {
        SynBad::Memory
    }
}
