ghost use Rattle.std.specs.Prelude.{◌≡◌, ◌↔◌, ℕ, ◌+◌, ◌-◌, ◌^◌, ◌<◌, ◌≤◌, [], ◌∷◌, length, take, drop, min, unwrap_or, is_some, Some, Ok, IfOk, OnOk, OnErr};

use crate::fault::IoFault;
use crate::files::Files;
use crate::mem_files::MemFiles;
use pm_values::Txt;
use std::alloc::{AllocError, Global};
use std::marker::Model;

/// Files in memory that never fail. They tell all.
#[derive(Debug, Drop)]
pub struct SureFiles {
    files: MemFiles,
}

impl Model for SureFiles {
    ghost use Rattle.std.specs.Prelude.{◌≡◌, []};
    ghost use Rattle.pm_io.specs.MemState.{MemState};

    ghost Value = { MemState };

    ghost view = { λ s. s.files };

    ghost invariant = { λ s. s.files.fails ≡ [] };
}

impl SureFiles {
    ghost use Rattle.pm_io.specs.MemState.{no_files, with_file};

    /// No files.
    pub fn new(alloc: Global) -> Self
        ensures { result ≡ no_files }
    {
        SureFiles {
            files: MemFiles::new(alloc),
        }
    }

    /// Gives the file of this name these bytes from now on. A file that was begun is still read as it was.
    pub fn put(&mut self, name: &Txt, bytes: &[u8]) -> Result<(), AllocError>
        ensures ok { OnOk result (self.new ≡ with_file self.old name.now bytes.now) }
        ensures err { OnErr result (self.new ≡ self.old) }
    {
        self.files.put(name, bytes)
    }
}

impl Files for SureFiles {
    ghost use Rattle.pm_io.specs.MemState.{files_after_begin, files_after_read, held_of};

    ghost held = { λ s. Some (held_of s.files) };

    ghost rest = { λ s. Some s.left };

    ghost faults = { λ _. 0 };

    ghost absences = { λ s. s.log.absences };

    ghost last = { λ s. unwrap_or s.log.last [] };

    ghost stand = { λ s. s.log.stand };

    ghost taken = { λ s. s.log.taken };

    fn begin(&mut self, name: Txt) -> Result<bool, IoFault>
        ensures answer { result ≡ Ok (is_some (held_of self.old.files name)) }
        ensures after { self.new ≡ files_after_begin self.old name result }
        ensures absences { self.old.log.absences ≤ self.new.log.absences }
    {
        self.files.begin(name)
    }

    fn read(&mut self, buf: &mut [u8]) -> Result<usize, IoFault>
        requires { self.old.log.taken + length buf.old ≤ 2 ^ 64 - 1 }
        ensures answer { result ≡ Ok (min (length buf.old) (min self.old.most (length self.old.left))) }
        ensures after { self.new ≡ files_after_read self.old result }
        ensures bytes { IfOk result (λ n. take n buf.new ≡ take n self.old.left) }
        ensures end { IfOk result (λ n. 0 < length buf.new → (n ≡ 0) ↔ (self.old.left ≡ [])) }
    {
        self.files.read(buf)
    }
}
