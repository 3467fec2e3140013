//! Files that are no tables, settings at their ends, wide tables, and two commands beside each other.
ghost use Rattle.std.specs.Thread.{IsSync};

use super::{EXPLAINED, ITEMS, QUERY, ROWS, WHOLE, command, put, shop, shop_command, words_of};
use crate::{Status, monitor_main};
use pm_io::{MemFiles, MemSink};
use pm_values::Gate;
use std::alloc::{AllocError, Global};
use std::marker::Sync;
use std::sync::atomic::{AtomicU64, Ordering};
use std::test::Fail;
use std::thread::{Threads, join};

/// What a command over the shop's files writes, with its status.
fn written<R: Threads + Sync>(
    rt: &R,
    alloc: Global,
    words: &str,
    query: &str,
    items: &str,
) -> Result<(Status, MemSink), AllocError> {
    let mut out = MemSink::new(alloc, 4096)?;
    let status = shop_command(rt, alloc, words, query, items, &mut out)?;
    Ok((status, out))
}

const NO_ROWS: &str =
    "N 1 project 2\nN 2 hash 3 5 unique=right\nN 3 filter 4\nN 4 scan sale s\nN 5 scan item i\nH id,price\nE rows=0 work=7\n";

const MARKED: &str =
    "N 1 project 2\nN 2 hash 3 5 unique=right\nN 3 filter 4\nN 4 scan sale s\nN 5 scan item i\nH id,price\n\
R 2,-0.10\nR 4,1.00\nE rows=2 work=13\n";

/// The file of the items, and what is written.
const ITEM_FILES: [(&str, &str); 13] = [
    ("code,price\n", NO_ROWS),
    ("\u{feff}code,price\r\n\"tea\",+1\r\n\r\nrice,-0.10", MARKED),
    ("", "! 6 nofile item.csv\n"),
    ("\n", "! 5 noheader item\n"),
    ("code\n", "! 5 header item 2\n"),
    ("code,prise\n", "! 5 header item 2\n"),
    ("code,price,x\n", "! 5 header item 3\n"),
    ("code,price\ntea\n", "! 5 width item 1\n"),
    ("code,price\ntea,1\noil,1,2\n", "! 5 width item 2\n"),
    ("code,price\n\"tea,1\n", "! 5 width item 1\n"),
    ("code,price\ntea,2.505\n", "! 5 field item 1 2\n"),
    ("code,price\ntea,x\noil\n", "! 5 field item 1 2\n"),
    (
        "code,price\ntea,92233720368547758.08\n",
        "! 5 field item 1 2\n",
    ),
];

#[test]
fn files_that_are_no_tables_are_refused(rt: HostRuntime) -> Result<(), Fail> {
    for (items, text) in ITEM_FILES {
        let words = "run s q --progress off";
        let (_, out) = written(&rt, rt.alloc(), words, QUERY, items)?;
        assert_eq!(rt; out.bytes(), text.as_bytes(), "{items}");
    }
    Ok(())
}

const LAST_LINE_ALONE: &str =
    "N 1 project 2\nN 2 hash 3 5 unique=right\nN 3 filter 4\nN 4 scan sale s\nN 5 scan item i\nH id,price\n\
R 2,1.20\nR 4,2.50\nP work=14 lo=14 hi=14 dne=7/7 safe=14/14 pmax=14/14 pct=100.00..100.00\nE rows=2 work=14\n";

const NOTHING_TO_DO: &str = "N 1 project 2\nN 2 scan item item\nH code\nE rows=0 work=0\n";

/// The words, the query, the file of the items, and the status' code and what is written.
const SETTINGS: [(&str, &str, &str, u8, &str); 12] = [
    ("run s q --every 14", QUERY, ITEMS, 0, LAST_LINE_ALONE),
    ("run s q --every 15", QUERY, ITEMS, 0, LAST_LINE_ALONE),
    (
        "run s q --every 18446744073709551615",
        QUERY,
        ITEMS,
        0,
        LAST_LINE_ALONE,
    ),
    (
        "run s q --every 18446744073709551616",
        QUERY,
        ITEMS,
        1,
        "! 1 usage\n",
    ),
    ("run s q --progress off --every 3", QUERY, ITEMS, 0, ROWS),
    ("run s q --progress no", QUERY, ITEMS, 1, "! 1 usage\n"),
    ("explain s q --every 3", QUERY, ITEMS, 1, "! 1 usage\n"),
    (
        "run s q",
        "SELECT code FROM item",
        "code,price\n",
        0,
        NOTHING_TO_DO,
    ),
    ("run s q", "-- nothing\n", ITEMS, 3, "! 3 expected 11\n"),
    ("run s q", ";", ITEMS, 3, "! 3 expected 0\n"),
    (
        "run s q",
        "SELECT code FROM item;;",
        ITEMS,
        3,
        "! 3 expected 22\n",
    ),
    ("run s q", "", ITEMS, 6, "! 6 nofile q\n"),
];

#[test]
fn settings_at_their_ends(rt: HostRuntime) -> Result<(), Fail> {
    for (words, query, items, code, text) in SETTINGS {
        let (status, out) = written(&rt, rt.alloc(), words, query, items)?;
        assert_eq!(rt; status.code(), code, "{words} {query}");
        assert_eq!(rt; out.bytes(), text.as_bytes(), "{words} {query}");
    }
    Ok(())
}

/// So many words with their numbers, and a comma between two.
fn numbered(alloc: Global, before: &str, count: u32, behind: &str) -> Result<String, AllocError> {
    let mut text = format!(in alloc; "{before}1{behind}")?;
    for number in 2..=count {
        text.push_str(format!(in alloc; ",{before}{number}{behind}")?.as_str())?;
    }
    Ok(text)
}

/// The schema of a table of so many columns.
fn wide_schema(alloc: Global, columns: u32) -> Result<String, AllocError> {
    let declared = numbered(alloc, "c", columns, " INT")?;
    format!(in alloc; "TABLE wide FROM 'wide.csv' ({declared});")
}

/// The file of such a table, of one row.
fn wide_table(alloc: Global, columns: u32) -> Result<String, AllocError> {
    let mut text = numbered(alloc, "c", columns, "")?;
    text.push_str("\n")?;
    text.push_str(numbered(alloc, "", columns, "")?.as_str())?;
    text.push_str("\n")?;
    Ok(text)
}

fn wide_files(alloc: Global, columns: u32) -> Result<MemFiles, AllocError> {
    let query = "SELECT c1, c64 FROM wide WHERE c64 > c1";
    let mut files = MemFiles::new(alloc);
    put(
        alloc,
        &mut files,
        "s",
        wide_schema(alloc, columns)?.as_str(),
    )?;
    put(alloc, &mut files, "q", query)?;
    put(
        alloc,
        &mut files,
        "wide.csv",
        wide_table(alloc, columns)?.as_str(),
    )?;
    Ok(files)
}

/// Writes what a run over such a table writes.
fn write_wide<R: Threads + Sync>(
    rt: &R,
    alloc: Global,
    columns: u32,
    out: &mut MemSink,
) -> Result<Status, AllocError> {
    let mut files = wide_files(alloc, columns)?;
    let status = command(rt, alloc, "run s q --progress off", &mut files, out);
    drop(files);
    status
}

#[test]
fn a_table_has_64_columns_at_most(rt: HostRuntime) -> Result<(), Fail> {
    let alloc: Global = rt.alloc();
    let wide =
        "N 1 project 2\nN 2 filter 3\nN 3 scan wide wide\nH c1,c64\nR 1,64\nE rows=1 work=3\n";
    for (columns, text) in [(64, wide), (65, "! 2 toomany 531\n")] {
        let mut out = MemSink::new(alloc, 4096)?;
        write_wide(&rt, alloc, columns, &mut out)?;
        assert_eq!(rt; out.bytes(), text.as_bytes());
    }
    Ok(())
}

/// What the command of these words over these files writes.
fn written_over<R: Threads + Sync>(
    rt: &R,
    alloc: Global,
    words: &str,
    files: &mut MemFiles,
) -> Result<MemSink, AllocError> {
    let mut out = MemSink::new(alloc, 4096)?;
    command(rt, alloc, words, files, &mut out)?;
    Ok(out)
}

#[test]
fn commands_one_after_another(rt: HostRuntime) -> Result<(), Fail> {
    let alloc: Global = rt.alloc();
    let mut files = shop(alloc, QUERY, ITEMS)?;
    for (words, text) in [
        ("run s q", WHOLE),
        ("explain s q", EXPLAINED),
        ("run s q", WHOLE),
    ] {
        let out = written_over(&rt, alloc, words, &mut files)?;
        assert_eq!(rt; out.bytes(), text.as_bytes());
    }
    Ok(())
}

/// Two commands at once, each over files of its own and into a sink of its own.
fn both<R: Threads + Sync>(rt: &R, alloc: Global) -> Result<(MemSink, MemSink), AllocError> {
    let (run, explain) = join(
        rt,
        || -> Result<(Status, MemSink), AllocError>
            requires { IsSync R.row }
        { written(rt, alloc, "run s q --workers 2", QUERY, ITEMS) },
        || -> Result<(Status, MemSink), AllocError>
            requires { IsSync R.row }
        { written(rt, alloc, "explain s q --workers 2", QUERY, ITEMS) },
    );
    Ok((run?.1, explain?.1))
}

#[test]
fn commands_at_once(rt: HostRuntime) -> Result<(), Fail> {
    for _ in 0..20 {
        let (run, explain) = both(&rt, rt.alloc())?;
        assert_eq!(rt; run.bytes(), WHOLE.as_bytes());
        assert_eq!(rt; explain.bytes(), EXPLAINED.as_bytes());
    }
    Ok(())
}

/// Counts the entries of two parts, and notes where one saw no entry of the other.
#[derive(Drop)]
struct Meeting {
    first: AtomicU64,
    second: AtomicU64,
    missed: AtomicU64,
}

fn meet(mine: &AtomicU64, other: &AtomicU64, missed: &AtomicU64) {
    let count = mine.fetch_add(1, Ordering::SeqCst).wrapping_add(1);
    for _ in 0..2_000_000_000u32 {
        if other.load(Ordering::SeqCst) >= count {
            return;
        }
    }
    missed.fetch_add(1, Ordering::SeqCst);
}

impl Gate for Meeting {
    fn enter(&self, part: u32) {
        if part == 0 {
            meet(&self.first, &self.second, &self.missed);
        } else {
            meet(&self.second, &self.first, &self.missed);
        }
    }
}

/// Runs a statement over the shop's files by two workers, past this gate.
fn run_past<R: Threads + Sync>(
    rt: &R,
    alloc: Global,
    gate: &Meeting,
) -> Result<Status, AllocError> {
    let mut files = shop(alloc, "SELECT id FROM sale", ITEMS)?;
    let mut out = MemSink::new(alloc, 4096)?;
    let words = words_of(alloc, "run s q --workers 2")?;
    Ok(monitor_main(rt, alloc, words.as_slice(), &mut files, &mut out, gate))
}

#[test]
fn two_parts_are_typed_at_once(rt: HostRuntime) -> Result<(), Fail> {
    let gate = Meeting {
        first: AtomicU64::new(0),
        second: AtomicU64::new(0),
        missed: AtomicU64::new(0),
    };
    assert_eq!(rt; run_past(&rt, rt.alloc(), &gate)?, Status::Done);
    assert!(rt; gate.first.load(Ordering::SeqCst) == 1 && gate.second.load(Ordering::SeqCst) == 1);
    assert!(rt; gate.missed.load(Ordering::SeqCst) == 0);
    Ok(())
}
