//! Tables loaded by one worker and by more, with ample memory, and two parts that are typed at once.
ghost use Rattle.std.specs.Prelude.{◌≤◌};

use pm_load::load;
use pm_tables::DataBad;
use pm_values::{ColumnDecl, Gate, Items, Kind, OpenGate, References, Table, TableDecl, Txt};
use std::alloc::{AllocError, Global};
use std::marker::Sync;
use std::sync::atomic::{AtomicU64, Ordering};
use std::test::Fail;
use std::thread::Threads;

/// Counts the entries of two parts, and notes where one saw no entry of the other.
#[derive(Drop)]
struct Meeting {
    first: AtomicU64,
    second: AtomicU64,
    missed: AtomicU64,
}

fn meet(mine: &AtomicU64, other: &AtomicU64, missed: &AtomicU64) {
    let count = mine.fetch_add(1, Ordering::SeqCst).wrapping_add(1);
    for _ in 0..2_000_000_000u32 {
        if other.load(Ordering::SeqCst) >= count {
            return;
        }
    }
    missed.fetch_add(1, Ordering::SeqCst);
}

impl Gate for Meeting {
    fn enter(&self, part: u32) {
        if part == 0 {
            meet(&self.first, &self.second, &self.missed);
        } else {
            meet(&self.second, &self.first, &self.missed);
        }
    }
}

/// A table of one column of numbers without NULL.
fn declared(alloc: Global) -> Result<TableDecl, AllocError> {
    let mut columns = Items::new(alloc);
    columns.push(ColumnDecl {
        name: Txt::new(alloc, "a")?,
        kind: Kind::Int,
        nullable: false,
    })?;
    let name = Txt::new(alloc, "t")?;
    let file = Txt::new(alloc, "t.csv")?;
    Ok(TableDecl::new(name, file, columns, None, None, References::new(alloc)))
}

/// A file of 1,000 records, in which those with these numbers are no numbers.
fn file(alloc: Global, faulty: &[u32]) -> Result<String, AllocError> {
    let mut text = String::from_str(alloc, "a\n")?;
    for number in 1..=1000u32 {
        text.push_str(if faulty.contains(&number) {
            "x\n"
        } else {
            "7\n"
        })?;
    }
    Ok(text)
}

/// How many rows the table has, or the first fault.
fn answer(alloc: Global, loaded: Result<Table, DataBad>) -> Result<String, AllocError> {
    let text = match &loaded {
        Ok(table) => format!(in alloc; "{}", table.rows().len()),
        Err(fault) => format!(in alloc; "{fault:?}"),
    };
    drop(loaded);
    text
}

/// What so many workers answer to a file in which these records are no numbers, where a table has no more than these rows.
fn loaded<R: Threads + Sync, G: Gate>(
    rt: &R,
    alloc: Global,
    faulty: &[u32],
    workers: u32,
    most: u32,
    gate: &G,
) -> Result<String, AllocError>
    requires some { 1 ≤ workers }
    requires few { workers ≤ 64 }
    requires most { most ≤ 1000 }
{
    let text = file(alloc, faulty)?;
    let decl = declared(alloc)?;
    answer(
        alloc,
        load(rt, alloc, decl, text.as_bytes(), workers, most, gate),
    )
}

/// What so many workers answer to a sound file, to one with two faulty records, and to one with a record too many.
fn answers<R: Threads + Sync>(rt: &R, alloc: Global, workers: u32) -> Result<String, AllocError>
    requires some { 1 ≤ workers }
    requires few { workers ≤ 64 }
{
    let mut text = loaded(rt, alloc, &[], workers, 1000, &OpenGate)?;
    text.push_str(" ")?;
    text.push_str(loaded(rt, alloc, &[3, 998], workers, 1000, &OpenGate)?.as_str())?;
    text.push_str(" ")?;
    text.push_str(loaded(rt, alloc, &[], workers, 999, &OpenGate)?.as_str())?;
    Ok(text)
}

#[test]
fn workers_load_the_same(rt: HostRuntime) -> Result<(), Fail> {
    let alloc = rt.alloc();
    let expected = "1000 Field(3, 1) TooManyRows";
    assert!(rt; answers(&rt, alloc, 1)?.as_str() == expected);
    assert!(rt; answers(&rt, alloc, 2)?.as_str() == expected);
    assert!(rt; answers(&rt, alloc, 64)?.as_str() == expected);
    Ok(())
}

#[test]
fn two_at_once(rt: HostRuntime) -> Result<(), Fail> {
    let alloc = rt.alloc();
    let gate = Meeting {
        first: AtomicU64::new(0),
        second: AtomicU64::new(0),
        missed: AtomicU64::new(0),
    };
    assert!(rt; loaded(&rt, alloc, &[], 2, 1000, &gate)?.as_str() == "1000");
    assert!(rt; gate.first.load(Ordering::SeqCst) == 1 && gate.second.load(Ordering::SeqCst) == 1);
    assert!(rt; gate.missed.load(Ordering::SeqCst) == 0);
    Ok(())
}
