ghost use Rattle.std.specs.Prelude.{◌≡◌, ◌<◌, ◌≤◌, length, false, IfSome, OnOk, OnErr};
ghost use Rattle.pm_io.specs.Counts.{Rose};
ghost use Rattle.pm_io.specs.Sink.{gained, GainsPart};

use crate::fault::IoFault;
use crate::sink::Sink;

/// A write that failed.
#[derive(Clone, Copy, Debug, PartialEq, Eq)]
pub struct WriteFault;

impl From<IoFault> for WriteFault {
    fn from(_fault: IoFault) -> Self {
        WriteFault
    }
}

/// Writes a whole piece, in as many writes as it takes. Where one of them fails, a first part was written. It takes
/// no memory.
pub fn write_whole<S: Sink>(sink: &mut S, piece: &[u8]) -> Result<(), WriteFault>
    ensures whole { OnOk result (S.written sink.new ≡ gained (S.written sink.old) piece.now) }
    ensures unfinished { OnOk result (0 < length piece.now
        → IfSome (S.finished sink.new) (λ done. done ≡ false)) }

    ensures part { OnErr result (GainsPart (S.written sink.old) (S.written sink.new) piece.now) }
    ensures failed { OnErr result (Rose (S.faults sink.old) (S.faults sink.new)) }
    ensures faults { S.faults sink.old ≤ S.faults sink.new }
{
    let mut at = 0;
    while at < piece.len() {
        at += sink.write(&piece[at..])?;
    }
    Ok(())
}
