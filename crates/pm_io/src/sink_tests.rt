use crate::{IoFault, OsSink, Sink, write_whole};
use std::alloc::Global;
use std::io;
use std::io::{ErrorKind, Write};
use std::test::Fail;

/// Takes one byte a call, and every third call is interrupted. It fails once when it has `fails` bytes, with an error or
/// by taking nothing.
#[derive(Drop)]
struct Slow {
    got: Vec<u8>,
    calls: u64,
    fails: Option<usize>,
    takes_nothing: bool,
    flush_fails: bool,
}

impl Slow {
    fn new(alloc: Global) -> Self {
        Slow {
            got: Vec::new(alloc),
            calls: 0,
            fails: None,
            takes_nothing: false,
            flush_fails: false,
        }
    }
}

impl Write for Slow {
    fn write(&mut self, piece: &[u8]) -> io::Result<usize> {
        self.calls = self.calls.wrapping_add(1);
        if self.calls % 3 == 0 {
            return Err(io::Error::from(ErrorKind::Interrupted));
        }
        if self.fails == Some(self.got.len()) {
            self.fails = None;
            if self.takes_nothing {
                return Ok(0);
            }
            return Err(io::Error::from(ErrorKind::BrokenPipe));
        }
        let n = piece.len().min(1);
        self.got.extend_from_slice(&piece[..n])?;
        Ok(n)
    }

    fn flush(&mut self) -> io::Result<()> {
        if self.flush_fails {
            return Err(io::Error::from(ErrorKind::BrokenPipe));
        }
        Ok(())
    }
}

#[test]
fn progress_lines_are_seen_at_once(rt: HostRuntime) -> Result<(), Fail> {
    // What is written, and what of it is seen before the sink is finished.
    let cases = [
        (["R 1\n", "R 2\n", ""], ""),
        (["R 1\n", "P 2\n", "R 3\n"], "R 1\nP 2\n"),
        (["P 1\nR 2\n", "P 3\nR 4\n", ""], "P 1\nR 2\nP 3\n"),
        (["P", " 1", ""], ""),
        (["P", " 1", "\nR 2\n"], "P 1\n"),
        (["P\n", " P 1\n", "PP 2\nR P 3\n"], ""),
    ];
    for (pieces, seen) in cases {
        for finished in [false, true] {
            let mut writer = Slow::new(rt.alloc());
            let mut sink = OsSink::new(&mut writer);
            let mut all = Vec::new(rt.alloc());
            for piece in pieces {
                write_whole(&mut sink, piece.as_bytes())?;
                all.extend_from_slice(piece.as_bytes())?;
            }
            if finished {
                sink.finish()?;
            }
            let want = if finished {
                all.as_slice()
            } else {
                seen.as_bytes()
            };
            assert_eq!(rt; writer.got.as_slice(), want, "{seen}");
        }
    }
    Ok(())
}

#[test]
fn a_full_buffer_is_passed_on(rt: HostRuntime) -> Result<(), Fail> {
    let text = "0123456789\n".repeat(rt.alloc(), 6000)?;
    let mut writer = Slow::new(rt.alloc());
    let mut sink = OsSink::new(&mut writer);
    write_whole(&mut sink, text.as_str().as_bytes())?;
    assert_eq!(rt; writer.got.as_slice(), &text.as_str().as_bytes()[..65536]);
    Ok(())
}

#[test]
fn a_call_that_failed_took_nothing(rt: HostRuntime) -> Result<(), Fail> {
    // The writer fails once, at each byte; the call that met the fault is made again.
    for fails in 0..12 {
        for takes_nothing in [false, true] {
            let mut writer = Slow::new(rt.alloc());
            writer.fails = Some(fails);
            writer.takes_nothing = takes_nothing;
            let mut sink = OsSink::new(&mut writer);
            let mut faults: u64 = 0;
            for piece in ["R 1\n", "P 2\n", "R 3\n"] {
                let mut rest = piece.as_bytes();
                for _ in 0..8 {
                    if !rest.is_empty() {
                        match sink.write(rest) {
                            Ok(n) => rest = &rest[n..],
                            Err(IoFault::Failed) => faults = faults.saturating_add(1),
                        }
                    }
                }
            }
            assert_eq!(rt; faults, if fails < 8 { 1 } else { 0 }, "{fails}");
            assert_eq!(rt; sink.finish().is_err(), fails >= 8, "{fails}");
            assert_eq!(rt; sink.finish(), Ok(()), "{fails}");
            assert_eq!(rt;
                writer.got.as_slice(),
                b"R 1\nP 2\nR 3\n".as_slice(),
                "{fails}"
            );
        }
    }
    Ok(())
}

#[test]
fn a_flush_fails(rt: HostRuntime) -> Result<(), Fail> {
    let mut writer = Slow::new(rt.alloc());
    writer.flush_fails = true;
    let mut sink = OsSink::new(&mut writer);
    write_whole(&mut sink, b"R 1\n")?;
    assert_eq!(rt; sink.finish(), Err(IoFault::Failed));
    assert_eq!(rt; writer.got.as_slice(), b"R 1\n".as_slice());
    Ok(())
}
