ghost use Rattle.std.specs.Prelude.{◌≡◌, ◌+◌, ◌<◌, ◌≤◌, None};

use crate::fault::IoFault;
use crate::outlet::Outlet;
use crate::sink::Sink;
use std::io::Write;
use std::marker::Model;

/// A writer of the operating system, as standard output. It tells no content.
///
/// What is written is gathered and passed on in the call that finds 64 KiB gathered, with the end of each progress line
/// (a line that begins with `P `), and by `finish`. A fault is answered by the call that met it. What was gathered before
/// stays for the next call; it is lost where the sink goes without a `finish`.
#[derive(Drop)]
pub struct OsSink<W: Write + Drop> {
    outlet: Outlet<W>,
    faults: u64,
}

impl<W: Write + Drop> Model for OsSink<W> {
    ghost use Rattle.std.specs.Prelude.{ℕ};

    // how many calls failed
    ghost Value = { ℕ };

    ghost view = { λ s. s.faults };
}

impl<W: Write + Drop> OsSink<W> {
    ghost use Rattle.pm_io.specs.Counts.{counted};

    /// Nothing failed yet.
    pub fn new(writer: W) -> Self
        ensures { result ≡ 0 }
    {
        OsSink {
            outlet: Outlet::new(writer),
            faults: 0,
        }
    }

    fn note_fault(&mut self)
        ensures after { self.new ≡ counted self.old }
        ensures faults { self.old ≤ self.new }
    {
        self.faults = self.faults.saturating_add(1);
    }
}

impl<W: Write + Drop> Sink for OsSink<W> {
    ghost written = { λ _. None };

    ghost finished = { λ _. None };

    ghost faults = { λ faults. faults };

    fn write(&mut self, piece: &[u8]) -> Result<usize, IoFault> {
        let answer = self.outlet.write(piece);
        if answer.is_err() {
            self.note_fault();
        }
        answer
    }

    fn finish(&mut self) -> Result<(), IoFault> {
        let answer = self.outlet.finish();
        if answer.is_err() {
            self.note_fault();
        }
        answer
    }
}
