ghost use Rattle.std.specs.Prelude.{◌≡◌, ℕ, ◌<◌, ◌≤◌, List, length, take, Option, Bool, true, false, IfOk, IfSome, OnOk, OnErr};
ghost use Rattle.pm_io.specs.Counts.{Rose};
ghost use Rattle.pm_io.specs.Sink.{gained};

use crate::fault::IoFault;

/// Takes bytes in order.
///
/// Counts are of 64 bits and stay at their greatest value.
pub trait Sink {
    // the bytes taken so far, where that is told
    ghost written: { Self → Option (List ℕ) };

    // whether a finish succeeded after the last byte was taken, where that is told
    ghost finished: { Self → Option Bool };

    // how many calls failed
    ghost faults: { Self → ℕ };

    /// Takes at least one byte from the front of `piece`, and answers how many.
    fn write(&mut self, piece: &[u8]) -> Result<usize, IoFault>
        requires { 0 < length piece.now }
        ensures some { IfOk result (λ n. 0 < n) }
        ensures amount { IfOk result (λ n. n ≤ length piece.now) }
        ensures written { IfOk result (λ n. written self.new ≡ gained (written self.old) (take n piece.now)) }
        ensures unfinished { OnOk result (IfSome (finished self.new) (λ done. done ≡ false)) }

        ensures kept { OnErr result (written self.new ≡ written self.old) }
        ensures still { OnErr result (finished self.new ≡ finished self.old) }
        ensures failed { OnErr result (Rose (faults self.old) (faults self.new)) }
        ensures faults { faults self.old ≤ faults self.new };

    /// Hands on all that was taken.
    fn finish(&mut self) -> Result<(), IoFault>
        ensures written { written self.new ≡ written self.old }
        ensures finished { OnOk result (IfSome (finished self.new) (λ done. done ≡ true)) }
        ensures still { OnErr result (finished self.new ≡ finished self.old) }
        ensures failed { OnErr result (Rose (faults self.old) (faults self.new)) }
        ensures faults { faults self.old ≤ faults self.new };
}
