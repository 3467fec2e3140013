ghost use Rattle.std.specs.Prelude.{◌≡◌, ◌≢◌, ◌↔◌, ℕ, ◌+◌, ◌-◌, ◌^◌, ◌<◌, ◌≤◌, List, [], length, take, Option, false, is_some, IfOk, IfSome, OnOk, OnErr, MatchResult};
ghost use Rattle.pm_io.specs.declared.stand.Stand.{Stand};
ghost use Rattle.pm_io.specs.Counts.{Rose};
ghost use Rattle.pm_io.specs.Files.{Held, stand_of, LeftAtBegin, Takes};

use crate::fault::IoFault;
use pm_values::Txt;

/// Files that are begun by name and then read, one at a time.
///
/// Counts are of 64 bits and stay at their greatest value.
pub trait Files {
    // the bytes of each file by its name, where that is told; no call changes them
    ghost held: { Self → Option Held };

    // the bytes left of the file that was begun last, where that is told; none before any
    ghost rest: { Self → Option (List ℕ) };

    // how many begins and reads failed, and how many begins found no file
    ghost faults: { Self → ℕ };

    ghost absences: { Self → ℕ };

    // the name that was begun last; empty before any
    ghost last: { Self → List ℕ };

    ghost stand: { Self → Stand };

    // how many bytes the reads gave since the last begin
    ghost taken: { Self → ℕ };

    /// Begins the file of this name at its first byte. It answers whether there is such a file, or fails.
    fn begin(&mut self, name: Txt) -> Result<bool, IoFault>
        ensures held { held self.new ≡ held self.old }
        ensures last { last self.new ≡ name }
        ensures stand { stand self.new ≡ stand_of result }
        ensures taken { taken self.new ≡ 0 }

        ensures found { IfOk result (λ found. IfSome (held self.old)
            (λ held. found ≡ is_some (held name))) }
        ensures rest { LeftAtBegin (held self.old) name result (rest self.new) }

        ensures absent { result ≡ Ok false → Rose (absences self.old) (absences self.new) }
        ensures failed { OnErr result (Rose (faults self.old) (faults self.new)) }
        ensures absences { absences self.old ≤ absences self.new }
        ensures faults { faults self.old ≤ faults self.new };

    /// Puts the next bytes of the file into the front of `buf` and answers their number, which may be less than
    /// was asked. At a `buf` that is not empty, 0 is the end of the file.
    fn read(&mut self, buf: &mut [u8]) -> Result<usize, IoFault>
        requires { taken self.old + length buf.old ≤ 2 ^ 64 - 1 }
        ensures held { held self.new ≡ held self.old }
        ensures last { last self.new ≡ last self.old }
        ensures amount { IfOk result (λ n. n ≤ length buf.new) }
        ensures taken { MatchResult result (λ n. taken self.new ≡ taken self.old + n)
            (λ _. taken self.new ≡ taken self.old) }
        ensures stand { MatchResult result (λ _. stand self.new ≡ stand self.old)
            (λ _. stand self.new ≡ Stand.Broken) }

        ensures bytes { IfOk result (λ n. Takes (rest self.old) (rest self.new) (take n buf.new)) }
        ensures end { IfOk result (λ n. IfSome (rest self.old)
            (λ left. 0 < length buf.new → (n ≡ 0) ↔ (left ≡ []))) }
        ensures kept { OnErr result (rest self.new ≡ rest self.old) }

        ensures failed { OnErr result (Rose (faults self.old) (faults self.new)) }
        ensures absences { absences self.old ≤ absences self.new }
        ensures faults { faults self.old ≤ faults self.new };
}
