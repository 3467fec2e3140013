ghost use Rattle.std.specs.Prelude.{◌≡◌, ℕ, ◌+◌, ◌<◌, ◌≤◌, List, [], length, take, IfOk, OnOk, OnErr};
ghost use Rattle.std.specs.Io.KnownBytes.{Keeps, Appends, WriteAppends};

use crate::fault::IoFault;
use crate::line_start::LineStart;
use arrayvec::ArrayVec;
use memchr::memchr;
use std::io::{ErrorKind, Write};
use std::marker::Model;

/// The most bytes that are gathered.
const CAPACITY: usize = 65536;

/// A writer, and the bytes that are gathered for it.
///
/// A line that begins with `P ` is a progress line: its end is passed on at once.
#[derive(Drop)]
pub struct Outlet<W: Write + Drop> {
    writer: W,
    gathered: ArrayVec<u8, CAPACITY>,
    /// How many of those gathered the writer has already: some only after a fault.
    passed: usize,
    line: LineStart,
}

impl<W: Write + Drop> Model for Outlet<W> {
    ghost use Rattle.std.specs.Prelude.{◌≤◌, drop};
    ghost use Rattle.std.specs.Io.KnownBytes.{append_known};
    ghost use Rattle.arrayvec.specs.ArrayVec.{array_vec_len};
    ghost use Rattle.pm_io.specs.OutletState.{OutletState};

    ghost Value = { OutletState };

    ghost view = { λ o. record {
      taken = append_known (W.contents o.writer) (drop o.passed o.gathered.items);
      waiting = array_vec_len o.gathered;
      line = o.line;
    } };

    ghost invariant = { λ o. o.passed ≤ array_vec_len o.gathered };
}

impl<W: Write + Drop> Outlet<W> {
    ghost use Rattle.pm_io.specs.declared.line_start.LineStart.TheVariants.{Empty};
    ghost use Rattle.pm_io.specs.LineStart.{start_of, line_after, EndsProgress};

    /// Nothing is gathered yet.
    pub fn new(writer: W) -> Self
        ensures bytes { Keeps (W.contents writer) result.taken }
        ensures waiting { result.waiting ≡ 0 }
        ensures line { result.line ≡ start_of [] }
    {
        Outlet {
            writer,
            gathered: ArrayVec::new(),
            passed: 0,
            line: LineStart::Empty,
        }
    }

    /// Takes at least one byte from the front of `piece`, and answers how many. After an error it took nothing.
    pub fn write(&mut self, piece: &[u8]) -> Result<usize, IoFault>
        requires { 0 < length piece.now }
        ensures some { IfOk result (λ n. 0 < n) }
        ensures amount { IfOk result (λ n. n ≤ length piece.now) }
        ensures bytes { WriteAppends self.old.taken self.new.taken result piece.now }
        ensures line { IfOk result (λ n. (line : List ℕ) → self.old.line ≡ start_of line
            → self.new.line ≡ start_of (line_after line (take n piece.now))) }
        ensures same_line { OnErr result (self.new.line ≡ self.old.line) }
        ensures shown { IfOk result (λ n. (line : List ℕ) (m : ℕ) → self.old.line ≡ start_of line → m ≤ n
            → EndsProgress line (take m piece.now) → self.new.waiting ≡ 0) }
    {
        if self.gathered.is_full() {
            self.pass_on()?;
        }
        let front = &piece[..piece.len().min(self.gathered.remaining_capacity())];
        let mut line = self.line;
        let mut at = 0;
        while let Some(n) = memchr(b'\n', &front[at..]) {
            let feed = at + n;
            if line.after_part(&front[at..feed]).is_progress() {
                return self.pass_line(&front[..feed + 1]);
            }
            line = LineStart::Empty;
            at = feed + 1;
        }
        self.line = line.after_part(&front[at..]);
        self.gather(front);
        Ok(front.len())
    }

    /// Passes on all that was gathered, and has the writer do so too.
    pub fn finish(&mut self) -> Result<(), IoFault>
        ensures bytes { Keeps self.old.taken self.new.taken }
        ensures line { self.new.line ≡ self.old.line }
        ensures passed { OnOk result (self.new.waiting ≡ 0) }
    {
        self.pass_on()?;
        match self.writer.flush() {
            Ok(()) => Ok(()),
            Err(_) => Err(IoFault::Failed),
        }
    }

    /// Passes on what was gathered. What a fault keeps back stays gathered.
    fn pass_on(&mut self) -> Result<(), IoFault>
        ensures bytes { Keeps self.old.taken self.new.taken }
        ensures line { self.new.line ≡ self.old.line }
        ensures passed { OnOk result (self.new.waiting ≡ 0) }
    {
        while self.passed < self.gathered.len() {
            self.passed += write_some(&mut self.writer, &self.gathered[self.passed..])?;
        }
        self.gathered.clear();
        self.passed = 0;
        Ok(())
    }

    /// Passes on what was gathered and then the end of a progress line, or a first part of that end.
    fn pass_line(&mut self, end: &[u8]) -> Result<usize, IoFault>
        requires some { 0 < length end.now }
        requires feed { (line : List ℕ) → self.old.line ≡ start_of line → start_of (line_after line end.now) ≡ Empty }
        ensures some { IfOk result (λ n. 0 < n) }
        ensures amount { IfOk result (λ n. n ≤ length end.now) }
        ensures bytes { WriteAppends self.old.taken self.new.taken result end.now }
        ensures line { IfOk result (λ n. (line : List ℕ) → self.old.line ≡ start_of line
            → self.new.line ≡ start_of (line_after line (take n end.now))) }
        ensures same_line { OnErr result (self.new.line ≡ self.old.line) }
        ensures passed { OnOk result (self.new.waiting ≡ 0) }
    {
        self.pass_on()?;
        let n = write_some(&mut self.writer, end)?;
        self.line = if n == end.len() {
            LineStart::Empty
        } else {
            self.line.after_all(&end[..n])
        };
        Ok(n)
    }

    /// Gathers bytes for which there is room.
    fn gather(&mut self, bytes: &[u8])
        requires { self.old.waiting + length bytes.now ≤ 65536 }
        ensures bytes { Appends self.old.taken self.new.taken bytes.now }
        ensures line { self.new.line ≡ self.old.line }
    {
        self.gathered.try_extend_from_slice(bytes).unwrap();
    }
}

/// Writes once, and again where a signal came before the first byte. A write that takes nothing failed.
fn write_some<W: Write>(writer: &mut W, piece: &[u8]) -> Result<usize, IoFault>
    ensures some { IfOk result (λ n. 0 < n) }
    ensures amount { IfOk result (λ n. n ≤ length piece.now) }
    ensures bytes { WriteAppends (W.contents writer.old) (W.contents writer.new) result piece.now }
{
    for _ in 0..u64::MAX {
        match writer.write(piece) {
            Ok(0) => return Err(IoFault::Failed),
            Ok(n) => return Ok(n),
            Err(error) if error.kind() == ErrorKind::Interrupted => {}
            Err(_) => return Err(IoFault::Failed),
        }
    }
    Err(IoFault::Failed)
}
