ghost use Rattle.std.specs.Prelude.{◌≡◌, ◌↔◌, ℕ, ◌+◌, ◌-◌, ◌^◌, ◌<◌, ◌≤◌, [], ◌∷◌, ◌++◌, length, take, drop, min, unwrap_or, is_some, Some, None, IfOk, IfSome, IfNone, OnOk, OnErr};
ghost use Rattle.pm_io.specs.MemState.{held_of, bytes_at};

use crate::fault::IoFault;
use crate::files::Files;
use crate::log::ReadLog;
use crate::mem_file::MemFile;
use pm_values::{Bytes, Txt};
use std::alloc::{AllocError, Global};
use std::marker::Model;

/// Files in memory, which fail where they are told to. They tell all.
#[derive(Debug, Drop)]
pub struct MemFiles {
    alloc: Global,
    /// The newest first, which hides older files of its name.
    files: Vec<MemFile>,
    fails: Vec<u64>,
    most: usize,
    calls: u64,
    /// The place among `files` of the file that was begun, and the number of its bytes that were read.
    begun: Option<usize>,
    at: usize,
    log: ReadLog,
}

impl Model for MemFiles {
    ghost use Rattle.std.specs.Prelude.{◌≤◌};
    ghost use Rattle.pm_io.specs.MemState.{MemState, left_of, IsPlace};

    ghost Value = { MemState };

    ghost view = { λ m. record {
      files = m.files.items;
      fails = m.fails.items;
      most = m.most;
      calls = m.calls;
      left = left_of m.files.items m.begun m.at;
      log = m.log;
    } };

    ghost invariant = { λ m. (1 ≤ m.most) × IsPlace m.files.items m.begun m.at };
}

impl MemFiles {
    ghost use Rattle.pm_io.specs.Counts.{counted};
    ghost use Rattle.pm_io.specs.MemState.{no_files, with_file, is_named, begin_answer, read_answer, left_begun, amount_of, held_of};

    /// No files, and no call that fails.
    pub fn new(alloc: Global) -> Self
        ensures { result ≡ no_files }
    {
        MemFiles {
            alloc,
            files: Vec::new(alloc),
            fails: Vec::new(alloc),
            most: usize::MAX,
            calls: 0,
            begun: None,
            at: 0,
            log: ReadLog::new(),
        }
    }

    /// Gives the file of this name these bytes from now on. A file that was begun is still read as it was.
    pub fn put(&mut self, name: &Txt, bytes: &[u8]) -> Result<(), AllocError>
        ensures ok { OnOk result (self.new ≡ with_file self.old name.now bytes.now) }
        ensures err { OnErr result (self.new ≡ self.old) }
    {
        let name = name.copy(self.alloc)?;
        let bytes = Bytes::from_slice(self.alloc, bytes)?;
        self.files.insert(0, MemFile { name, bytes })?;
        if let Some(place) = self.begun {
            self.begun = Some(place + 1);
        }
        Ok(())
    }

    /// Makes the begin or read with this number fail, counted together from 1.
    pub fn fail_at(&mut self, call: u64) -> Result<(), AllocError>
        ensures ok { OnOk result (self.new ≡ record self.old { fails = self.old.fails ++ call ∷ [] }) }
        ensures err { OnErr result (self.new ≡ self.old) }
    {
        self.fails.push(call)?;
        Ok(())
    }

    /// Lets no read give more than `most` bytes.
    pub fn piece(&mut self, most: usize)
        requires { 1 ≤ most }
        ensures { self.new ≡ record self.old { most = most } }
    {
        self.most = most;
    }

    /// Counts a call, and answers whether it fails.
    fn next_call_fails(&mut self) -> bool
        ensures call { self.new ≡ record self.old { calls = counted self.old.calls } }
        ensures fails { result ≡ is_named self.old.fails (counted self.old.calls) }
    {
        self.calls = self.calls.saturating_add(1);
        self.fails.contains(&self.calls)
    }

    /// Begins a file, but for the log.
    fn try_begin(&mut self, name: &Txt) -> Result<bool, IoFault>
        ensures answer { result ≡ begin_answer self.old name.now }
        ensures after { self.new ≡ record self.old {
          calls = counted self.old.calls;
          left = left_begun self.old.files name.now result;
        } }
    {
        if self.next_call_fails() {
            self.begun = None;
            return Err(IoFault::Failed);
        }
        self.begun = place_of(self.files.as_slice(), name.bytes());
        self.at = 0;
        Ok(self.begun.is_some())
    }

    /// Reads from the begun file, but for the log.
    fn try_read(&mut self, buf: &mut [u8]) -> Result<usize, IoFault>
        ensures answer { result ≡ read_answer self.old (length buf.old) }
        ensures after { self.new ≡ record self.old {
          calls = counted self.old.calls;
          left = drop (amount_of result) self.old.left;
        } }
        ensures bytes { IfOk result (λ n. take n buf.new ≡ take n self.old.left) }
        ensures end { IfOk result (λ n. 0 < length buf.new → (n ≡ 0) ↔ (self.old.left ≡ [])) }
    {
        if self.next_call_fails() {
            return Err(IoFault::Failed);
        }
        Ok(self.take(buf))
    }

    /// Reads the next bytes of the begun file.
    fn take(&mut self, buf: &mut [u8]) -> usize
        ensures amount { result ≡ min (length buf.old) (min self.old.most (length self.old.left)) }
        ensures after { self.new ≡ record self.old { left = drop result self.old.left } }
        ensures bytes { take result buf.new ≡ take result self.old.left }
        ensures end { 0 < length buf.new → (result ≡ 0) ↔ (self.old.left ≡ []) }
    {
        let Some(place) = self.begun else { return 0 };
        let bytes = self.files[place].bytes.as_slice();
        let n = copy_front(&bytes[self.at..], self.most, buf);
        self.at += n;
        n
    }
}

/// The place of the newest file of this name.
fn place_of(files: &[MemFile], name: &[u8]) -> Option<usize>
    ensures none { IfNone result (held_of files.now name.now ≡ None) }
    ensures within { IfSome result (λ place. place < length files.now) }
    ensures found { IfSome result (λ place. held_of files.now name.now ≡ Some (bytes_at files.now place)) }
{
    for (place, file) in files.iter().enumerate() {
        if file.name.bytes() == name {
            return Some(place);
        }
    }
    None
}

/// Copies as many bytes as there are and fit, but at most `most`, and answers their number.
fn copy_front(bytes: &[u8], most: usize, buf: &mut [u8]) -> usize
    ensures amount { result ≡ min (length buf.old) (min most (length bytes.now)) }
    ensures bytes { take result buf.new ≡ take result bytes.now }
{
    let n = buf.len().min(most.min(bytes.len()));
    buf[..n].copy_from_slice(&bytes[..n]);
    n
}

impl Files for MemFiles {
    ghost use Rattle.pm_io.specs.MemState.{begin_answer, read_answer, files_after_begin, files_after_read, held_of};

    ghost held = { λ m. Some (held_of m.files) };

    ghost rest = { λ m. Some m.left };

    ghost faults = { λ m. m.log.faults };

    ghost absences = { λ m. m.log.absences };

    ghost last = { λ m. unwrap_or m.log.last [] };

    ghost stand = { λ m. m.log.stand };

    ghost taken = { λ m. m.log.taken };

    fn begin(&mut self, name: Txt) -> Result<bool, IoFault>
        ensures answer { result ≡ begin_answer self.old name }
        ensures after { self.new ≡ files_after_begin self.old name result }
        ensures faults { self.old.log.faults ≤ self.new.log.faults }
        ensures absences { self.old.log.absences ≤ self.new.log.absences }
    {
        let answer = self.try_begin(&name);
        self.log.note_begin(name, answer);
        answer
    }

    fn read(&mut self, buf: &mut [u8]) -> Result<usize, IoFault>
        requires { self.old.log.taken + length buf.old ≤ 2 ^ 64 - 1 }
        ensures answer { result ≡ read_answer self.old (length buf.old) }
        ensures after { self.new ≡ files_after_read self.old result }
        ensures faults { self.old.log.faults ≤ self.new.log.faults }
        ensures bytes { IfOk result (λ n. take n buf.new ≡ take n self.old.left) }
        ensures end { IfOk result (λ n. 0 < length buf.new → (n ≡ 0) ↔ (self.old.left ≡ [])) }
    {
        let answer = self.try_read(buf);
        self.log.note_read(answer);
        answer
    }
}
