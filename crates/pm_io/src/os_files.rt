ghost use Rattle.std.specs.Prelude.{◌≡◌, ℕ, ◌+◌, ◌-◌, ◌^◌, ◌≤◌, [], length, unwrap_or, None, IfOk};

use crate::fault::IoFault;
use crate::files::Files;
use crate::log::ReadLog;
use pm_values::Txt;
use std::io::{ErrorKind, Read};
use std::marker::Model;
use std::{fs, rt};

/// The files of the operating system. A name is a path from the current folder. They tell no content.
#[derive(Drop)]
pub struct OsFiles<'a, R: rt::Files> {
    runtime: &'a R,
    file: Option<R::File>,
    log: ReadLog,
}

impl<'a, R: rt::Files> Model for OsFiles<'a, R> {
    ghost use Rattle.pm_io.specs.declared.log.ReadLog.{ReadLog};

    ghost Value = { ReadLog };

    ghost view = { λ f. f.log };
}

impl<'a, R: rt::Files> OsFiles<'a, R> {
    ghost use Rattle.pm_io.specs.Log.{fresh};

    /// Nothing is begun yet.
    pub fn new(runtime: &'a R) -> Self
        ensures { result ≡ fresh }
    {
        OsFiles {
            runtime,
            file: None,
            log: ReadLog::new(),
        }
    }

    /// Opens a file, but for the log.
    fn open(&mut self, name: &Txt) -> Result<bool, IoFault>
        ensures { self.new ≡ self.old }
    {
        self.file = None;
        match fs::open(self.runtime, name.as_str()) {
            Ok(file) => {
                self.file = Some(file);
                Ok(true)
            }
            Err(error) if is_absence(error.kind()) => Ok(false),
            Err(_) => Err(IoFault::Failed),
        }
    }
}

/// Whether there is no such file: none of the name, or the path leads through something that is no folder.
fn is_absence(kind: ErrorKind) -> bool {
    matches!(kind, ErrorKind::NotFound | ErrorKind::NotADirectory)
}

/// Reads once, and again where a signal came before the first byte.
fn read_some<R: Read>(reader: &mut R, buf: &mut [u8]) -> Result<usize, IoFault>
    ensures { IfOk result (λ n. n ≤ length buf.new) }
{
    for _ in 0..u64::MAX {
        match reader.read(buf) {
            Ok(n) => return Ok(n),
            Err(error) if error.kind() == ErrorKind::Interrupted => {}
            Err(_) => return Err(IoFault::Failed),
        }
    }
    Err(IoFault::Failed)
}

impl<'a, R: rt::Files> Files for OsFiles<'a, R> {
    ghost held = { λ _. None };

    ghost rest = { λ _. None };

    ghost faults = { λ f. f.faults };

    ghost absences = { λ f. f.absences };

    ghost last = { λ f. unwrap_or f.last [] };

    ghost stand = { λ f. f.stand };

    ghost taken = { λ f. f.taken };

    fn begin(&mut self, name: Txt) -> Result<bool, IoFault> {
        let answer = self.open(&name);
        self.log.note_begin(name, answer);
        answer
    }

    fn read(&mut self, buf: &mut [u8]) -> Result<usize, IoFault> {
        let answer = match &mut self.file {
            Some(file) => read_some(file, buf),
            None => Ok(0),
        };
        self.log.note_read(answer);
        answer
    }
}
