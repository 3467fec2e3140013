ghost use Rattle.std.specs.Prelude.{◌≡◌, ◌+◌, ◌-◌, ◌^◌, ◌≤◌, IfOk};
ghost use Rattle.pm_io.specs.Counts.{counted};
ghost use Rattle.pm_io.specs.Log.{fresh, after_begin, after_read};

use crate::fault::IoFault;
use crate::stand::Stand;
use pm_values::Txt;

/// What files keep of the calls that they were given.
#[derive(Debug, Drop)]
pub struct ReadLog {
    /// The name that was begun last.
    pub last: Option<Txt>,
    pub stand: Stand,
    /// The number of bytes that the reads gave since the last begin.
    pub taken: u64,
    pub faults: u64,
    pub absences: u64,
}

impl ReadLog {
    pub fn new() -> Self
        ensures { result ≡ fresh }
    {
        ReadLog {
            last: None,
            stand: Stand::Fresh,
            taken: 0,
            faults: 0,
            absences: 0,
        }
    }

    /// Notes a begin of this name with this answer.
    pub fn note_begin(&mut self, name: Txt, answer: Result<bool, IoFault>)
        ensures after { self.new ≡ after_begin self.old name answer }
        ensures faults { self.old.faults ≤ self.new.faults }
        ensures absences { self.old.absences ≤ self.new.absences }
    {
        self.last = Some(name);
        self.taken = 0;
        match answer {
            Ok(true) => self.stand = Stand::Open,
            Ok(false) => {
                self.stand = Stand::Absent;
                self.absences = self.absences.saturating_add(1);
            }
            Err(IoFault::Failed) => self.note_fault(),
        }
    }

    /// Notes a read with this answer.
    pub fn note_read(&mut self, answer: Result<usize, IoFault>)
        requires { IfOk answer (λ n. self.old.taken + n ≤ 2 ^ 64 - 1) }
        ensures after { self.new ≡ after_read self.old answer }
        ensures faults { self.old.faults ≤ self.new.faults }
    {
        match answer {
            Ok(n) => self.taken += n as u64,
            Err(IoFault::Failed) => self.note_fault(),
        }
    }

    fn note_fault(&mut self)
        ensures faults { self.old.faults ≤ self.new.faults }
        ensures after { self.new ≡ record self.old { stand = Stand.Broken; faults = counted self.old.faults } }
    {
        self.stand = Stand::Broken;
        self.faults = self.faults.saturating_add(1);
    }
}
