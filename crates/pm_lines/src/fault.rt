ghost use Rattle.std.specs.Prelude.{◌≡◌};
ghost use Rattle.pm_lines.specs.declared.fault.LineBad.TheVariants.{Memory, Write};

use pm_io::WriteFault;
use std::alloc::{AllocError, AllocFailed};

/// Why a line was not written.
#[derive(Clone, Copy, Debug, PartialEq, Eq)]
pub enum LineBad {
    /// A write failed, after a first part of the line.
    Write,
    /// There was no memory for the line.
    Memory,
}

impl From<WriteFault> for LineBad {
    ghost from_gives = { λ _ bad. bad ≡ Write };

    fn from(_fault: WriteFault) -> Self {
        LineBad::Write
    }
}

impl From<AllocError> for LineBad {
    ghost from_gives = { λ _ bad. bad ≡ Memory };

    fn from(_error: AllocError) -> Self {
        LineBad::Memory
    }
}

impl<T: Drop> From<AllocFailed<T>> for LineBad {
    ghost from_gives = { λ _ bad. bad ≡ Memory };

    fn from(_error: AllocFailed<T>) -> Self {
        LineBad::Memory
    }
}
