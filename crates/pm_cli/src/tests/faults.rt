//! Each read and each write refused in turn, and when the output is finished.
ghost use Rattle.std.specs.Prelude.{None};

use super::{ITEMS, QUERY, WHOLE, command, ones_command, shop, shop_command};
use crate::{Role, Status};
use pm_io::{IoFault, MemSink, Sink};
use std::alloc::{AllocError, Global};
use std::marker::Sync;
use std::test::Fail;
use std::thread::Threads;

/// A sink whose write with this number fails, counted from 1, and which counts how often it is finished.
#[derive(Drop)]
struct Counting {
    bytes: Vec<u8>,
    fails: u64,
    writes: u64,
    finish_fails: bool,
    finishes: u64,
    faults: u64,
}

impl Counting {
    fn new(alloc: Global, fails: u64, finish_fails: bool) -> Self {
        Counting {
            bytes: Vec::new(alloc),
            fails,
            writes: 0,
            finish_fails,
            finishes: 0,
            faults: 0,
        }
    }
}

impl Sink for Counting {
    ghost written = { λ _. None };

    ghost finished = { λ _. None };

    ghost faults = { λ s. s.faults };

    fn write(&mut self, piece: &[u8]) -> Result<usize, IoFault> {
        self.writes = self.writes.saturating_add(1);
        if self.writes == self.fails || self.bytes.extend_from_slice(piece).is_err() {
            self.faults = self.faults.saturating_add(1);
            return Err(IoFault::Failed);
        }
        Ok(piece.len())
    }

    fn finish(&mut self) -> Result<(), IoFault> {
        self.finishes = self.finishes.saturating_add(1);
        if self.finish_fails {
            self.faults = self.faults.saturating_add(1);
            return Err(IoFault::Failed);
        }
        Ok(())
    }
}

/// The words, the write that fails, and whether finishing fails; then the code of the status, how often the output is finished,
/// and what is written.
const ENDS: [(&str, u64, bool, u8, u64, &str); 7] = [
    ("run s q", 0, false, 0, 1, WHOLE),
    ("run s q", 0, true, 8, 1, WHOLE),
    ("run s q", 2, false, 8, 0, "N 1 project 2\n"),
    ("run s q --every 0", 0, false, 1, 1, "! 1 usage\n"),
    ("run s q --every 0", 0, true, 1, 1, "! 1 usage\n"),
    ("run s q --every 0", 1, false, 1, 1, ""),
    ("run s x", 1, true, 6, 1, ""),
];

#[test]
fn the_output_is_finished_once(rt: HostRuntime) -> Result<(), Fail> {
    let alloc: Global = rt.alloc();
    for (words, fails, finish_fails, code, finishes, text) in ENDS {
        let mut out = Counting::new(alloc, fails, finish_fails);
        let status = shop_command(&rt, alloc, words, QUERY, ITEMS, &mut out)?;
        assert_eq!(rt; status.code(), code, "{words} {fails}");
        assert_eq!(rt; out.finishes, finishes, "{words} {fails}");
        assert_eq!(rt; out.bytes.as_slice(), text.as_bytes(), "{words} {fails}");
    }
    Ok(())
}

#[test]
fn each_write_fails_in_turn(rt: HostRuntime) -> Result<(), Fail> {
    let alloc: Global = rt.alloc();
    let mut done: u64 = 0;
    for write in 1..60 {
        let mut out = Counting::new(alloc, write, false);
        let status = shop_command(&rt, alloc, "run s q", QUERY, ITEMS, &mut out)?;
        assert!(rt; WHOLE.as_bytes().starts_with(out.bytes.as_slice()));
        if status == Status::Done {
            assert_eq!(rt; out.bytes.len(), WHOLE.len());
            assert!(rt; out.writes < write);
            done = done.saturating_add(1);
        } else {
            assert_eq!(rt; status, Status::WriteFault);
            assert_eq!(rt; out.writes, write);
            assert_eq!(rt; done, 0);
        }
    }
    assert!(rt; done > 0);
    Ok(())
}

/// The files in the order in which they are read, with their roles and the lines of their faults.
const READ: [(Role, &str); 4] = [
    (Role::Schema, "! 7 read s\n"),
    (Role::Query, "! 7 read q\n"),
    (Role::Table(1), "! 7 read sale.csv\n"),
    (Role::Table(0), "! 7 read item.csv\n"),
];

/// A run of the shop's query by reads of 16 bytes, of which the call with this number fails.
fn read_with_fault<R: Threads + Sync>(
    rt: &R,
    alloc: Global,
    call: u64,
    out: &mut Counting,
) -> Result<Status, AllocError> {
    let mut files = shop(alloc, QUERY, ITEMS)?;
    files.fail_at(call)?;
    files.piece(16);
    let status = command(rt, alloc, "run s q", &mut files, out);
    drop(files);
    status
}

#[test]
fn each_read_fails_in_turn(rt: HostRuntime) -> Result<(), Fail> {
    let alloc: Global = rt.alloc();
    let mut calls: [u64; 5] = [0; 5];
    for call in 1..60 {
        let mut out = Counting::new(alloc, 0, false);
        let status = read_with_fault(&rt, alloc, call, &mut out)?;
        let mut place: usize = 4;
        for (at, (role, line)) in READ.iter().enumerate() {
            if status == (Status::ReadFault { role: *role }) {
                assert_eq!(rt; out.bytes.as_slice(), line.as_bytes(), "{call}");
                assert_eq!(rt; out.finishes, 1, "{call}");
                place = at;
            }
        }
        if place == 4 {
            assert_eq!(rt; status, Status::Done, "{call}");
            assert_eq!(rt; out.bytes.as_slice(), WHOLE.as_bytes(), "{call}");
        }
        if let Some(count) = calls.get_mut(place) {
            *count = count.saturating_add(1);
        }
    }
    // Of each file a begin, a read of each 16 bytes, and one that finds the end.
    assert_eq!(rt; calls, [13, 7, 5, 5, 29]);
    Ok(())
}

/// The whole work is more than two million million events; the sink stops the run after some thousand.
#[test]
fn a_long_run_writes_as_it_goes(rt: HostRuntime) -> Result<(), Fail> {
    let alloc: Global = rt.alloc();
    let query =
        "SELECT a.x FROM n a JOIN n b ON a.x = b.x JOIN n c ON b.x = c.x JOIN n d ON c.x = d.x";
    let mut out = MemSink::new(alloc, 1_000_000)?;
    out.fail_at(5000)?;
    let words = "run s q --join hash";
    let status = ones_command(&rt, alloc, words, query, 1000, &mut out)?;
    assert_eq!(rt; status, Status::WriteFault);
    let lines = out.bytes().iter().filter(|byte| **byte == b'\n').count();
    assert_eq!(rt; lines, 4999);
    let last =
        "P work=4328 lo=8000 hi=2001001004000 dne=3001/4000 safe=4328/126522756 pmax=4328/8000 pct=0.00..54.10\n";
    assert!(rt; out.bytes().ends_with(last.as_bytes()));
    Ok(())
}
