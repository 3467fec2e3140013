//! Runs by turns, with ample memory, compared with whole runs and with texts that an independent model of the definitions gave.
ghost use Rattle.std.specs.Prelude.{◌≡◌, ◌≤◌, map, IfOk, IfSome};
ghost use Rattle.pm_work.specs.Fits.{Fits};
ghost use Rattle.pm_flows.specs.Indexes.{index_of};
ghost use Rattle.pm_flows.specs.KeyColumns.{join_columns};
ghost use Rattle.pm_run.specs.RunState.{CanTurn};
ghost use Rattle.pm_commands.specs.Certified.{IsReady};

use pm_commands::{Prepared, prepare};
use pm_flows::{Indexes, KeyColumns, key_columns, seek_indexes};
use pm_io::{MemFiles, MemSink};
use pm_lines::LineBad;
use pm_plan::{Plan, Whole};
use pm_run::{Run, Turn, run_all};
use pm_values::{Db, OpenGate, Txt};
use std::alloc::{AllocError, Global};
use std::marker::Sync;
use std::process::Abort;
use std::test::Fail;
use std::thread::Threads;

const SCHEMA: &str =
    "TABLE cust FROM 'cust.csv' (id INT NOT NULL, name TEXT NOT NULL, KEY (id), ORDER (id));\n\
TABLE ord FROM 'ord.csv' (id INT NOT NULL, cust INT, amt NUM(2), KEY (id), ORDER (cust));\n\
TABLE visit FROM 'visit.csv' (cust INT NOT NULL);\n";

const FILES: [(&str, &str); 3] = [
    ("cust.csv", "id,name\n1,Ann\n2,Bob\n4,Dan\n"),
    ("ord.csv", "id,cust,amt\n7,1,2.50\n8,1,\n5,2,10\n6,3,0.25\n"),
    ("visit.csv", "cust\n"),
];

const ORDERS: &str = "SELECT o.id, c.name FROM ord o JOIN cust c ON o.cust = c.id";

const GROUPS: &str =
    "SELECT c.name, COUNT(*), SUM(o.amt) FROM cust c LEFT JOIN ord o ON c.id = o.cust GROUP BY c.name ORDER BY c.name DESC";

const VISITS: &str = "SELECT o.id, v.cust FROM ord o JOIN visit v ON o.cust = v.cust";

const MERGED: &str =
    "N 1 project 2\nN 2 merge 3 4 unique=right\nN 3 scan ord o\nN 4 scan cust c\nH id,name\n\
P work=1 lo=7 hi=15 dne=1/7 safe=1/10 pmax=1/7 pct=6.66..14.29\n\
P work=2 lo=9 hi=15 dne=2/7 safe=2/11 pmax=2/9 pct=13.33..22.23\n\
P work=3 lo=9 hi=15 dne=3/7 safe=3/11 pmax=3/9 pct=20.00..33.34\n\
P work=4 lo=9 hi=15 dne=3/7 safe=4/11 pmax=4/9 pct=26.66..44.45\nR 7,Ann\n\
P work=5 lo=9 hi=15 dne=3/7 safe=5/11 pmax=5/9 pct=33.33..55.56\n\
P work=6 lo=11 hi=15 dne=4/7 safe=6/12 pmax=6/11 pct=40.00..54.55\n\
P work=7 lo=11 hi=15 dne=4/7 safe=7/12 pmax=7/11 pct=46.66..63.64\nR 8,Ann\n\
P work=8 lo=11 hi=15 dne=4/7 safe=8/12 pmax=8/11 pct=53.33..72.73\n\
P work=9 lo=13 hi=15 dne=5/7 safe=9/13 pmax=9/13 pct=60.00..69.24\n\
P work=10 lo=13 hi=15 dne=6/7 safe=10/13 pmax=10/13 pct=66.66..76.93\n\
P work=11 lo=13 hi=15 dne=6/7 safe=11/13 pmax=11/13 pct=73.33..84.62\nR 5,Bob\n\
P work=12 lo=13 hi=15 dne=6/7 safe=12/13 pmax=12/13 pct=80.00..92.31\n\
P work=13 lo=13 hi=13 dne=7/7 safe=13/13 pmax=13/13 pct=100.00..100.00\nE rows=3 work=13\n";

const HASHED: &str =
    "N 1 project 2\nN 2 hash 3 4 unique=right\nN 3 scan ord o\nN 4 scan cust c\nH id,name\n\
P work=5 lo=9 hi=15 dne=4/7 safe=5/11 pmax=5/9 pct=33.33..55.56\nR 7,Ann\nR 8,Ann\n\
P work=10 lo=13 hi=15 dne=6/7 safe=10/13 pmax=10/13 pct=66.66..76.93\nR 5,Bob\n\
P work=13 lo=13 hi=13 dne=7/7 safe=13/13 pmax=13/13 pct=100.00..100.00\nE rows=3 work=13\n";

const LOOKED_UP: &str =
    "N 1 project 2\nN 2 index 3 4\nN 3 scan ord o\nN 4 seek cust c unique=right\nH id,name\nR 7,Ann\nR 8,Ann\nR 5,Bob\n\
P work=13 lo=13 hi=13 dne=4/4 safe=13/13 pmax=13/13 pct=100.00..100.00\nE rows=3 work=13\n";

const GROUPED: &str =
    "N 1 project 2\nN 2 sort 3\nN 3 group 4\nN 4 lefthash 5 6 unique=left\nN 5 scan cust c\nN 6 scan ord o\n\
H name,COUNT(*),SUM(o.amt)\nP work=5 lo=14 hi=31 dne=5/19 safe=5/20 pmax=5/14 pct=16.12..35.72\n\
P work=10 lo=17 hi=20 dne=7/13 safe=10/18 pmax=10/17 pct=50.00..58.83\n\
P work=15 lo=20 hi=20 dne=11/13 safe=15/20 pmax=15/20 pct=75.00..75.00\nR Dan,1,\nR Bob,1,10.00\nR Ann,2,2.50\n\
P work=20 lo=20 hi=20 dne=13/13 safe=20/20 pmax=20/20 pct=100.00..100.00\nE rows=3 work=20\n";

const NO_BUILD: &str =
    "N 1 project 2\nN 2 hash 3 4 unique=none\nN 3 scan ord o\nN 4 scan visit v\nH id,cust\n\
P work=1 lo=4 hi=4 dne=1/4 safe=1/4 pmax=1/4 pct=25.00..25.00\n\
P work=2 lo=4 hi=4 dne=2/4 safe=2/4 pmax=2/4 pct=50.00..50.00\n\
P work=3 lo=4 hi=4 dne=3/4 safe=3/4 pmax=3/4 pct=75.00..75.00\n\
P work=4 lo=4 hi=4 dne=4/4 safe=4/4 pmax=4/4 pct=100.00..100.00\nE rows=0 work=4\n";

const COLUMNS: &str =
    "N 1 project 2\nN 2 scan ord ord\nH id,amt,cust\nR 7,2.50,1\nR 8,,1\nR 5,10.00,2\nR 6,0.25,3\nE rows=4 work=8\n";

const EMPTY: &str = "N 1 project 2\nN 2 scan visit visit\nH cust\nE rows=0 work=0\n";

/// A statement, the choice of its joins, after how many events a progress line comes, with 0 for none, and the text of its run.
fn cases() -> [(&'static str, &'static str, u64, &'static str); 7] {
    [
        (ORDERS, "merge", 1, MERGED),
        (ORDERS, "hash", 5, HASHED),
        (ORDERS, "index", 100, LOOKED_UP),
        (GROUPS, "auto", 5, GROUPED),
        (VISITS, "hash", 1, NO_BUILD),
        ("SELECT id, amt, cust FROM ord", "auto", 0, COLUMNS),
        ("SELECT cust FROM visit", "auto", 1, EMPTY),
    ]
}

/// A progress line after each so many events, or none for 0.
fn each(events: u64) -> Option<u64>
    ensures { IfSome result (λ n. 1 ≤ n) }
{
    if events == 0 { None } else { Some(events) }
}

/// Gives the file of this name this text.
fn put(alloc: Global, files: &mut MemFiles, name: &str, text: &str) -> Result<(), AllocError> {
    let name = Txt::new(alloc, name)?;
    files.put(&name, text.as_bytes())
}

/// The files of the schema and of the statement, and those of tables.
fn files_of(
    alloc: Global,
    schema: &str,
    query: &str,
    tables: &[(&str, &str)],
) -> Result<MemFiles, AllocError> {
    let mut files = MemFiles::new(alloc);
    put(alloc, &mut files, "s", schema)?;
    put(alloc, &mut files, "q", query)?;
    for (name, text) in tables {
        put(alloc, &mut files, name, text)?;
    }
    Ok(files)
}

/// The words of a run whose joins are of this choice.
fn words_of(alloc: Global, join: &str) -> Result<Vec<Txt>, AllocError> {
    let mut words = Vec::new(alloc);
    for word in ["run", "s", "q", "--join", join] {
        words.push(Txt::new(alloc, word)?)?;
    }
    Ok(words)
}

/// The plan and the tables of the statement, whose joins are of this choice.
fn planned<R: Threads + Sync + Abort>(
    rt: &R,
    alloc: Global,
    files: &mut MemFiles,
    join: &str,
) -> Result<Prepared, AllocError>
    ensures { IfOk result IsReady }
{
    let words = words_of(alloc, join)?;
    let prepared = prepare(rt, alloc, words.as_slice(), files, &OpenGate);
    drop(words);
    match prepared {
        Ok(prepared) => Ok(prepared),
        Err(stop) => panic!(rt; "{stop:?}"),
    }
}

/// The plan of a statement over the shop's tables.
fn prepared_for<R: Threads + Sync + Abort>(
    rt: &R,
    alloc: Global,
    query: &str,
    join: &str,
) -> Result<Prepared, AllocError>
    ensures { IfOk result IsReady }
{
    let mut files = files_of(alloc, SCHEMA, query, &FILES)?;
    let prepared = planned(rt, alloc, &mut files, join);
    drop(files);
    prepared
}

/// Where a run stands: its events, the rows that the root handed out, and the work done with the bounds of the whole work.
type Stand = (u128, u128, Whole);

/// After how many events a progress line comes, with 0 for none, and how many turns are taken at most.
type Turns = (u64, u32);

/// Takes turns of a run one by one, and writes into this sink: where the run stands then.
fn turned(
    rt: &impl Abort,
    alloc: Global,
    prepared: &Prepared,
    turns: Turns,
    sink: &mut MemSink,
) -> Result<Stand, AllocError>
    requires { IsReady prepared.now }
{
    let plan = &prepared.plan;
    let db = &prepared.request.db;
    let keys = key_columns(alloc, plan)?;
    let indexes = seek_indexes(alloc, plan, db, &keys)?;
    let stand = turned_over(rt, alloc, plan, db, &keys, &indexes, turns, sink);
    drop(indexes);
    drop(keys);
    match stand {
        Ok(stand) => Ok(stand),
        Err(fault) => panic!(rt; "{fault:?}"),
    }
}

/// The same, with the columns of the plan's keys and its indexes.
fn turned_over(
    rt: &impl Abort,
    alloc: Global,
    plan: &Plan,
    db: &Db,
    keys: &KeyColumns,
    indexes: &Indexes<'_>,
    turns: Turns,
    sink: &mut MemSink,
) -> Result<Stand, LineBad>
    requires fits { Fits plan.now db.now }
    requires keys { keys.now ≡ map join_columns plan.now.nodes }
    requires indexes { indexes.now ≡ map (index_of db.now) plan.now.nodes }
{
    let (every, count) = turns;
    let mut run = Run::begin(alloc, plan, db, keys, indexes, each(every))?;
    let stand = match run.head(sink) {
        Ok(()) => take_turns(rt, &mut run, count, sink),
        Err(fault) => Err(fault),
    };
    drop(run);
    stand
}

/// Takes so many turns of a run that has taken none, or all that are left: where it stands then.
fn take_turns(
    rt: &impl Abort,
    run: &mut Run<'_>,
    count: u32,
    sink: &mut MemSink,
) -> Result<Stand, LineBad>
    requires { CanTurn run.old.stage }
{
    'turns: for taken in 0..count {
        assert_eq!(rt; run.events(), u128::from(taken));
        match run.turn(sink)? {
            Turn::Went => {}
            Turn::Ended => break 'turns,
        }
    }
    Ok((run.events(), run.rows(), run.whole()))
}

/// Writes a whole run into this sink.
fn write_at_once(
    rt: &impl Abort,
    alloc: Global,
    prepared: &Prepared,
    every: u64,
    sink: &mut MemSink,
)
    requires { IsReady prepared.now }
{
    let db = &prepared.request.db;
    match run_all(alloc, &prepared.plan, db, each(every), sink) {
        Ok(()) => {}
        Err(fault) => panic!(rt; "{fault:?}"),
    }
}

/// Compares what the turns of a run write with a text.
fn compare_text(
    rt: &impl Abort,
    alloc: Global,
    prepared: &Prepared,
    every: u64,
    text: &str,
    query: &str,
) -> Result<(), AllocError>
    requires { IsReady prepared.now }
{
    let mut sink = MemSink::new(alloc, 1_000_000)?;
    turned(rt, alloc, prepared, (every, 1000), &mut sink)?;
    assert_eq!(rt; sink.bytes(), text.as_bytes(), "{query}");
    Ok(())
}

/// Compares what the turns of a run write with what a whole run writes.
fn compare_whole(
    rt: &impl Abort,
    alloc: Global,
    prepared: &Prepared,
    every: u64,
    query: &str,
) -> Result<(), AllocError>
    requires { IsReady prepared.now }
{
    let mut sink = MemSink::new(alloc, 1_000_000)?;
    turned(rt, alloc, prepared, (every, 1000), &mut sink)?;
    let mut whole = MemSink::new(alloc, 1_000_000)?;
    write_at_once(rt, alloc, prepared, every, &mut whole);
    assert_eq!(rt; sink.bytes(), whole.bytes(), "{query}");
    Ok(())
}

/// The same with progress lines after so many events, or without.
fn compare_each_whole(
    rt: &impl Abort,
    alloc: Global,
    prepared: &Prepared,
    query: &str,
) -> Result<(), AllocError>
    requires { IsReady prepared.now }
{
    for every in [0, 1, 2, 5, 100] {
        compare_whole(rt, alloc, prepared, every, query)?;
    }
    Ok(())
}

#[test]
fn turns_write_what_whole_runs_write(rt: HostRuntime) -> Result<(), Fail> {
    let alloc: Global = rt.alloc();
    for (query, join, shown, text) in cases() {
        let prepared = prepared_for(&rt, alloc, query, join)?;
        let compared = compare_text(&rt, alloc, &prepared, shown, text, query);
        let each_compared = compare_each_whole(&rt, alloc, &prepared, query);
        drop(prepared);
        compared?;
        each_compared?;
    }
    Ok(())
}

/// Where a run of the orders stands after so many turns.
fn stand_of<R: Threads + Sync + Abort>(
    rt: &R,
    alloc: Global,
    join: &str,
    turns: Turns,
) -> Result<Stand, AllocError> {
    let mut sink = MemSink::new(alloc, 1_000_000)?;
    let prepared = prepared_for(rt, alloc, ORDERS, join)?;
    let stand = turned(rt, alloc, &prepared, turns, &mut sink);
    drop(prepared);
    stand
}

#[test]
fn runs_tell_where_they_stand(rt: HostRuntime) -> Result<(), Fail> {
    let alloc: Global = rt.alloc();
    for (join, count, rows, lo, hi) in [
        ("merge", 1, 0, 7, 15),
        ("merge", 7, 1, 11, 15),
        ("merge", 20, 3, 13, 13),
        ("hash", 1, 0, 7, 15),
        ("hash", 7, 1, 11, 15),
        ("index", 1, 0, 5, 16),
        ("index", 7, 1, 10, 16),
    ] {
        let work = u128::from(count.min(13u32));
        let whole = Whole { work, lo, hi };
        for every in [0, 1, 5] {
            let stand = stand_of(&rt, alloc, join, (every, count))?;
            assert_eq!(rt; stand, (work, rows, whole), "{join}");
        }
    }
    Ok(())
}

/// So many texts with a comma between them, each a number from 0 between these pieces.
fn listed(alloc: Global, before: &str, after: &str, count: u32) -> Result<String, AllocError> {
    let mut text = String::new(alloc);
    for number in 0..count {
        if number > 0 {
            text.push_str(",")?;
        }
        text.push_str(format!(in alloc; "{before}{number}{after}")?.as_str())?;
    }
    Ok(text)
}

fn wide_schema(alloc: Global) -> Result<String, AllocError> {
    let columns = listed(alloc, "c", " INT", 64)?;
    format!(in alloc; "TABLE wide FROM 'wide.csv' ({columns});")
}

fn wide_query(alloc: Global) -> Result<String, AllocError> {
    let names = listed(alloc, "c", "", 64)?;
    format!(in alloc; "SELECT {names} FROM wide")
}

/// Two lines of which one has the names of the columns and the other the values of a row, each with a text before it.
fn wide_lines(alloc: Global, names: &str, values: &str) -> Result<String, AllocError> {
    let mut lines = String::from_str(alloc, names)?;
    lines.push_str(listed(alloc, "c", "", 64)?.as_str())?;
    lines.push_str(values)?;
    lines.push_str(listed(alloc, "", "", 64)?.as_str())?;
    lines.push_str("\n")?;
    Ok(lines)
}

fn wide_files(alloc: Global) -> Result<MemFiles, AllocError> {
    let mut files = MemFiles::new(alloc);
    put(alloc, &mut files, "s", wide_schema(alloc)?.as_str())?;
    put(alloc, &mut files, "q", wide_query(alloc)?.as_str())?;
    put(
        alloc,
        &mut files,
        "wide.csv",
        wide_lines(alloc, "", "\n")?.as_str(),
    )?;
    Ok(files)
}

fn wide_prepared<R: Threads + Sync + Abort>(rt: &R, alloc: Global) -> Result<Prepared, AllocError>
    ensures { IfOk result IsReady }
{
    let mut files = wide_files(alloc)?;
    let prepared = planned(rt, alloc, &mut files, "auto");
    drop(files);
    prepared
}

/// What a run of the wide table writes.
fn wide_text(alloc: Global) -> Result<String, AllocError> {
    let mut text = wide_lines(alloc, "N 1 project 2\nN 2 scan wide wide\nH ", "\nR ")?;
    text.push_str("E rows=1 work=2\n")?;
    Ok(text)
}

#[test]
fn a_row_has_64_columns(rt: HostRuntime) -> Result<(), Fail> {
    let alloc: Global = rt.alloc();
    let text = wide_text(alloc)?;
    let prepared = wide_prepared(&rt, alloc)?;
    let compared = compare_text(&rt, alloc, &prepared, 0, text.as_str(), "64 columns");
    drop(prepared);
    compared?;
    Ok(())
}

const CHAINED: &str =
    "SELECT z.n FROM one w JOIN one x ON x.n = w.n JOIN one y ON y.n = x.n JOIN one z ON z.n = y.n";

const CHAIN: &str =
    "N 1 project 2\nN 2 hash 3 8 unique=none\nN 3 hash 4 7 unique=none\nN 4 hash 5 6 unique=none\n\
N 5 scan one w\nN 6 scan one x\nN 7 scan one y\nN 8 scan one z\nH n\n";

/// The plan of joins of a thousand equal rows with themselves.
fn chained<R: Threads + Sync + Abort>(rt: &R, alloc: Global) -> Result<Prepared, AllocError>
    ensures { IfOk result IsReady }
{
    let schema = "TABLE one FROM 'one.csv' (n INT NOT NULL);";
    let mut records = String::from_str(alloc, "n\n")?;
    records.push_str("1\n".repeat(alloc, 1000)?.as_str())?;
    let mut files = files_of(alloc, schema, CHAINED, &[("one.csv", records.as_str())])?;
    let prepared = planned(rt, alloc, &mut files, "hash");
    drop(files);
    prepared
}

/// What such a run writes first, with a progress line after 5000 events.
fn chain_text(alloc: Global) -> Result<String, AllocError> {
    let mut text = String::from_str(alloc, CHAIN)?;
    text.push_str("R 1\n".repeat(alloc, 998)?.as_str())?;
    text.push_str("P work=5000 lo=8000 hi=2001001004000 ")?;
    Ok(text)
}

/// Compares where such a run stands after 5000 turns, and what it wrote where a progress line comes then.
fn compare_chained(
    rt: &impl Abort,
    alloc: Global,
    prepared: &Prepared,
    every: u64,
) -> Result<(), AllocError>
    requires { IsReady prepared.now }
{
    let mut sink = MemSink::new(alloc, 1_000_000)?;
    let stand = turned(rt, alloc, prepared, (every, 5000), &mut sink)?;
    let whole = Whole {
        work: 5000,
        lo: 8000,
        hi: 2_001_001_004_000,
    };
    assert_eq!(rt; stand, (5000, 998, whole));
    if every == 5000 {
        let text = chain_text(alloc)?;
        assert!(rt; sink.bytes().starts_with(text.as_bytes()));
    }
    Ok(())
}

/// The same with progress lines after so many events, or without.
fn compare_each_chained(
    rt: &impl Abort,
    alloc: Global,
    prepared: &Prepared,
) -> Result<(), AllocError>
    requires { IsReady prepared.now }
{
    for every in [0, 1, 5000] {
        compare_chained(rt, alloc, prepared, every)?;
    }
    Ok(())
}

/// Four times a thousand equal rows are joined, so the whole work is of two million million events. The first turns take
/// their events and no more.
#[test]
fn turns_of_a_long_run_take_their_events_alone(rt: HostRuntime) -> Result<(), Fail> {
    let alloc: Global = rt.alloc();
    let prepared = chained(&rt, alloc)?;
    let compared = compare_each_chained(&rt, alloc, &prepared);
    drop(prepared);
    compared?;
    Ok(())
}
