ghost use Rattle.std.specs.Prelude.{◌≡◌, ℕ, ◌-◌, ◌^◌, ◌<◌, ◌≤◌, [], ◌∷◌, ◌++◌, length, take, false, true, Some, Err, IfOk, OnOk, OnErr};

use crate::fault::IoFault;
use crate::sink::Sink;
use std::alloc::{AllocError, Global};
use std::marker::Model;

/// A sink in memory that takes so many bytes and fails where it is told to. It tells all.
#[derive(Debug, Drop)]
pub struct MemSink {
    bytes: Vec<u8>,
    room: usize,
    fails: Vec<u64>,
    finish_fails: bool,
    most: usize,
    writes: u64,
    finished: bool,
    faults: u64,
}

impl Model for MemSink {
    ghost use Rattle.std.specs.Prelude.{◌≤◌, vec_len, vec_capacity};
    ghost use Rattle.pm_io.specs.SinkState.{SinkState};

    ghost Value = { SinkState };

    ghost view = { λ s. record {
      written = s.bytes.items;
      room = s.room;
      fails = s.fails.items;
      finish_fails = s.finish_fails;
      most = s.most;
      writes = s.writes;
      finished = s.finished;
      faults = s.faults;
    } };

    ghost invariant = { λ s. (1 ≤ s.most) × (vec_len s.bytes ≤ s.room) × (s.room ≤ vec_capacity s.bytes) };
}

impl MemSink {
    ghost use Rattle.pm_io.specs.Counts.{counted};
    ghost use Rattle.pm_io.specs.SinkState.{empty_sink};

    /// A sink with room for so many bytes, which it reserves.
    pub fn new(alloc: Global, room: u64) -> Result<Self, AllocError>
        ensures { IfOk result (λ sink. sink ≡ empty_sink room) }
    {
        let room = room as usize;
        Ok(MemSink {
            bytes: Vec::with_capacity(alloc, room)?,
            room,
            fails: Vec::new(alloc),
            finish_fails: false,
            most: usize::MAX,
            writes: 0,
            finished: false,
            faults: 0,
        })
    }

    /// Makes the write with this number fail, counted from 1.
    pub fn fail_at(&mut self, write: u64) -> Result<(), AllocError>
        ensures ok { OnOk result (self.new ≡ record self.old { fails = self.old.fails ++ write ∷ [] }) }
        ensures err { OnErr result (self.new ≡ self.old) }
    {
        self.fails.push(write)?;
        Ok(())
    }

    /// Makes each finish fail.
    pub fn fail_finish(&mut self)
        ensures { self.new ≡ record self.old { finish_fails = true } }
    {
        self.finish_fails = true;
    }

    /// Lets no write take more than `most` bytes.
    pub fn piece(&mut self, most: usize)
        requires { 1 ≤ most }
        ensures { self.new ≡ record self.old { most = most } }
    {
        self.most = most;
    }

    /// The bytes that were written.
    pub fn bytes(&self) -> &[u8]
        ensures { result.now ≡ self.now.written }
    {
        self.bytes.as_slice()
    }

    fn note_fault(&mut self)
        ensures after { self.new ≡ record self.old { faults = counted self.old.faults } }
        ensures faults { self.old.faults ≤ self.new.faults }
    {
        self.faults = self.faults.saturating_add(1);
    }
}

impl Sink for MemSink {
    ghost use Rattle.pm_io.specs.SinkState.{write_answer, finish_answer, after_write, after_finish};

    ghost written = { λ s. Some s.written };

    ghost finished = { λ s. Some s.finished };

    ghost faults = { λ s. s.faults };

    fn write(&mut self, piece: &[u8]) -> Result<usize, IoFault>
        requires { 0 < length piece.now }
        ensures answer { result ≡ write_answer self.old (length piece.now) }
        ensures after { self.new ≡ after_write self.old piece.now result }
        ensures some { IfOk result (λ n. 0 < n) }
        ensures faults { self.old.faults ≤ self.new.faults }
    {
        self.writes = self.writes.saturating_add(1);
        let left = self.room - self.bytes.len();
        if left == 0 || self.fails.contains(&self.writes) {
            self.note_fault();
            return Err(IoFault::Failed);
        }
        let n = piece.len().min(self.most.min(left));
        self.bytes.extend_from_slice(&piece[..n]).unwrap();
        self.finished = false;
        Ok(n)
    }

    fn finish(&mut self) -> Result<(), IoFault>
        ensures answer { result ≡ finish_answer self.old }
        ensures after { self.new ≡ after_finish self.old result }
        ensures faults { self.old.faults ≤ self.new.faults }
    {
        if self.finish_fails {
            self.note_fault();
            return Err(IoFault::Failed);
        }
        self.finished = true;
        Ok(())
    }
}
