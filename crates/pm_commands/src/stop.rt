//! Why a command writes no text.
ghost use Rattle.std.specs.Prelude.{◌≡◌};
ghost use Rattle.pm_commands.specs.Stops.{memory};

use pm_requests::Refusal;

/// Why a command writes no text.
#[derive(Debug, Drop)]
pub enum Stop {
    /// The words call for no command.
    Usage,
    /// The files call for no request, or one of them could not be read, or memory was wanted.
    Request(Refusal),
    /// The first bound of the plan is too high: that of the whole work above 10^34, or that of the rows below a SUM above 10^18.
    TooWide(u128),
}

impl Stop {
    /// Want of memory.
    pub(crate) fn memory() -> Stop
        ensures { result ≡ memory }
    {
        Stop::Request(Refusal::NoMemory)
    }
}
