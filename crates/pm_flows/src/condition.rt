//! The test of a condition.
ghost use Rattle.std.specs.Prelude.{◌≡◌, ◌<◌, ◌^◌, length};
ghost use Rattle.pm_values.specs.Condition.{keeps};
ghost use Rattle.pm_values.specs.WellFormed.{IsWellFormed};

use pm_values::{Cells, Cond, Truth};

/// Whether the condition is true on a row.
pub fn keeps<C: Cells>(cond: &Cond, row: &C) -> bool
    requires few { length (C.cells row.now) < 2 ^ 32 }
    requires well_formed { IsWellFormed (length (C.cells row.now)) cond.now }
    ensures { result ≡ keeps cond.now (C.cells row.now) }
{
    match cond.eval(row) {
        Truth::Yes => return true,
        _ => return false,
    }
}
