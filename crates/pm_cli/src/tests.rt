mod edges;
mod faults;

use crate::{Status, monitor_main};
use pm_io::{MemFiles, MemSink, Sink};
use pm_values::{OpenGate, Txt};
use std::alloc::{AllocError, Global};
use std::marker::Sync;
use std::test::Fail;
use std::thread::Threads;

const SCHEMA: &str = "TABLE item FROM 'item.csv' (code TEXT NOT NULL, price NUM(2), KEY (code));\n\
TABLE sale FROM 'sale.csv' (id INT NOT NULL, code TEXT NOT NULL, n INT NOT NULL, KEY (id));\n";

const QUERY: &str = "SELECT s.id, i.price FROM sale s JOIN item i ON s.code = i.code WHERE s.n > 2";

const ITEMS: &str = "code,price\ntea,2.50\nrice,1.20\noil,\n";

const SALES: &str = "id,code,n\n1,tea,2\n2,rice,9\n3,salt,4\n4,tea,3\n";

/// What `run` writes of the query.
const WHOLE: &str =
    "N 1 project 2\nN 2 hash 3 5 unique=right\nN 3 filter 4\nN 4 scan sale s\nN 5 scan item i\nH id,price\n\
P work=1 lo=7 hi=19 dne=1/7 safe=1/11 pmax=1/7 pct=5.26..14.29\n\
P work=2 lo=7 hi=19 dne=2/7 safe=2/11 pmax=2/7 pct=10.52..28.58\n\
P work=3 lo=7 hi=19 dne=3/7 safe=3/11 pmax=3/7 pct=15.78..42.86\n\
P work=4 lo=7 hi=16 dne=4/7 safe=4/10 pmax=4/7 pct=25.00..57.15\n\
P work=5 lo=8 hi=16 dne=5/7 safe=5/11 pmax=5/8 pct=31.25..62.50\n\
P work=6 lo=10 hi=16 dne=5/7 safe=6/12 pmax=6/10 pct=37.50..60.00\n\
P work=7 lo=10 hi=16 dne=5/7 safe=7/12 pmax=7/10 pct=43.75..70.00\n\
R 2,1.20\n\
P work=8 lo=10 hi=16 dne=5/7 safe=8/12 pmax=8/10 pct=50.00..80.00\n\
P work=9 lo=11 hi=16 dne=6/7 safe=9/13 pmax=9/11 pct=56.25..81.82\n\
P work=10 lo=11 hi=14 dne=6/7 safe=10/12 pmax=10/11 pct=71.42..90.91\n\
P work=11 lo=12 hi=14 dne=7/7 safe=11/12 pmax=11/12 pct=78.57..91.67\n\
P work=12 lo=14 hi=14 dne=7/7 safe=12/14 pmax=12/14 pct=85.71..85.72\n\
P work=13 lo=14 hi=14 dne=7/7 safe=13/14 pmax=13/14 pct=92.85..92.86\n\
R 4,2.50\n\
P work=14 lo=14 hi=14 dne=7/7 safe=14/14 pmax=14/14 pct=100.00..100.00\n\
E rows=2 work=14\n";

const EXPLAINED: &str =
    "N 1 project 2\nN 2 hash 3 5 unique=right\nN 3 filter 4\nN 4 scan sale s\nN 5 scan item i\n\
B 1 lo=0 hi=4 pipe=1 driver=no\nB 2 lo=0 hi=4 pipe=1 driver=no\nB 3 lo=0 hi=4 pipe=1 driver=no\n\
B 4 lo=4 hi=4 pipe=1 driver=yes\nB 5 lo=3 hi=3 pipe=2 driver=yes\nF lo=7 hi=19\n";

const ROWS: &str =
    "N 1 project 2\nN 2 hash 3 5 unique=right\nN 3 filter 4\nN 4 scan sale s\nN 5 scan item i\nH id,price\n\
R 2,1.20\nR 4,2.50\nE rows=2 work=14\n";

const LOOKED_UP: &str =
    "N 1 project 2\nN 2 index 3 5\nN 3 filter 4\nN 4 scan sale s\nN 5 seek item i unique=right\nH id,price\n\
R 2,1.20\nR 4,2.50\nE rows=2 work=13\n";

const GROUPED: &str =
    "SELECT i.code, COUNT(*), SUM(s.n) FROM item i LEFT JOIN sale s ON i.code = s.code GROUP BY i.code ORDER BY i.code DESC";

const GROUPS: &str =
    "N 1 project 2\nN 2 sort 3\nN 3 group 4\nN 4 lefthash 5 6 unique=left\nN 5 scan item i\nN 6 scan sale s\n\
H code,COUNT(*),SUM(s.n)\nR tea,2,5\nR rice,1,9\nR oil,1,\nE rows=3 work=20\n";

const DEMO: &str =
    "N 1 project 2\nN 2 sort 3\nN 3 group 4\nN 4 hash 5 7 unique=right\nN 5 filter 6\nN 6 scan ord o\nN 7 scan cust c\n\
H region,n,total\nP work=10 lo=10 hi=10 dne=10/10 safe=10/10 pmax=10/10 pct=100.00..100.00\nE rows=0 work=10\n";

/// Gives the file of this name this text; without text it is absent.
fn put(alloc: Global, files: &mut MemFiles, name: &str, text: &str) -> Result<(), AllocError> {
    if text.is_empty() {
        return Ok(());
    }
    let name = Txt::new(alloc, name)?;
    files.put(&name, text.as_bytes())
}

/// The shop's files, with this text of the query and this one of the items.
fn shop(alloc: Global, query: &str, items: &str) -> Result<MemFiles, AllocError> {
    let mut files = MemFiles::new(alloc);
    put(alloc, &mut files, "s", SCHEMA)?;
    put(alloc, &mut files, "q", query)?;
    put(alloc, &mut files, "item.csv", items)?;
    put(alloc, &mut files, "sale.csv", SALES)?;
    Ok(files)
}

/// Words parted by blanks.
fn words_of(alloc: Global, words: &str) -> Result<Vec<Txt>, AllocError> {
    let mut list = Vec::new(alloc);
    for word in words.split_whitespace() {
        list.push(Txt::new(alloc, word)?)?;
    }
    Ok(list)
}

/// The command of these words, parted by blanks.
fn command<R: Threads + Sync, S: Sink>(
    rt: &R,
    alloc: Global,
    words: &str,
    files: &mut MemFiles,
    out: &mut S,
) -> Result<Status, AllocError> {
    let list = words_of(alloc, words)?;
    Ok(monitor_main(rt, alloc, list.as_slice(), files, out, &OpenGate))
}

/// The command of these words over the shop's files.
fn shop_command<R: Threads + Sync, S: Sink>(
    rt: &R,
    alloc: Global,
    words: &str,
    query: &str,
    items: &str,
    out: &mut S,
) -> Result<Status, AllocError> {
    let mut files = shop(alloc, query, items)?;
    let status = command(rt, alloc, words, &mut files, out);
    drop(files);
    status
}

/// The words, the query, the file of the items, and the status' code and what is written.
const COMMANDS: [(&str, &str, &str, u8, &str); 19] = [
    ("run s q", QUERY, ITEMS, 0, WHOLE),
    ("explain s q", QUERY, ITEMS, 0, EXPLAINED),
    ("run s q --progress off --workers 8", QUERY, ITEMS, 0, ROWS),
    (
        "run s q --join=index --progress=off",
        QUERY,
        ITEMS,
        0,
        LOOKED_UP,
    ),
    ("run s q --progress off", GROUPED, ITEMS, 0, GROUPS),
    ("demo 2 --workers=2", "", "", 0, DEMO),
    ("", QUERY, ITEMS, 1, "! 1 usage\n"),
    ("walk s q", QUERY, ITEMS, 1, "! 1 usage\n"),
    ("run s", QUERY, ITEMS, 1, "! 1 usage\n"),
    ("run s q --every 0", QUERY, ITEMS, 1, "! 1 usage\n"),
    (
        "run s q --every 1 --every 2",
        QUERY,
        ITEMS,
        1,
        "! 1 usage\n",
    ),
    ("explain s q --workers 65", QUERY, ITEMS, 1, "! 1 usage\n"),
    ("demo 0", QUERY, ITEMS, 1, "! 1 usage\n"),
    ("run q q", QUERY, ITEMS, 2, "! 2 expected 0\n"),
    ("run s q", "SELECT id FROM", ITEMS, 3, "! 3 expected 14\n"),
    (
        "run s q",
        "SELECT id FROM shop",
        ITEMS,
        4,
        "! 4 notable 15\n",
    ),
    (
        "run s q",
        QUERY,
        "code,price\ntea,1\noil,2\ntea,3\n",
        5,
        "! 5 doublekey item 1 3\n",
    ),
    ("run s q --workers 8", QUERY, "", 6, "! 6 nofile item.csv\n"),
    ("explain nowhere q", QUERY, ITEMS, 6, "! 6 nofile nowhere\n"),
];

#[test]
fn commands_write_their_text(rt: HostRuntime) -> Result<(), Fail> {
    let alloc: Global = rt.alloc();
    for (words, query, items, code, text) in COMMANDS {
        let mut out = MemSink::new(alloc, 4096)?;
        let status = shop_command(&rt, alloc, words, query, items, &mut out)?;
        assert_eq!(rt; status.code(), code, "{words}");
        assert_eq!(rt; out.bytes(), text.as_bytes(), "{words}");
    }
    Ok(())
}

/// The files of a statement over a table of one column with so many rows of ones.
fn ones(alloc: Global, query: &str, rows: usize) -> Result<MemFiles, AllocError> {
    let mut table = String::from_str(alloc, "x\n")?;
    table.push_str("1\n".repeat(alloc, rows)?.as_str())?;
    let mut files = MemFiles::new(alloc);
    put(
        alloc,
        &mut files,
        "s",
        "TABLE n FROM 'n.csv' (x INT NOT NULL);",
    )?;
    put(alloc, &mut files, "q", query)?;
    put(alloc, &mut files, "n.csv", table.as_str())?;
    Ok(files)
}

/// The command of these words over such files.
fn ones_command<R: Threads + Sync, S: Sink>(
    rt: &R,
    alloc: Global,
    words: &str,
    query: &str,
    rows: usize,
    out: &mut S,
) -> Result<Status, AllocError> {
    let mut files = ones(alloc, query, rows)?;
    let status = command(rt, alloc, words, &mut files, out);
    drop(files);
    status
}

// Eight sources of so many keyless rows.
#[test]
fn wide_plans_are_refused(rt: HostRuntime) -> Result<(), Fail> {
    let alloc: Global = rt.alloc();
    let query =
        "SELECT a.x FROM n a JOIN n b ON a.x = b.x JOIN n c ON a.x = c.x JOIN n d ON a.x = d.x \
JOIN n e ON a.x = e.x JOIN n f ON a.x = f.x JOIN n g ON a.x = g.x JOIN n h ON a.x = h.x";
    let mut out = MemSink::new(alloc, 4096)?;
    let status = ones_command(&rt, alloc, "run s q", query, 20_000, &mut out)?;
    assert_eq!(rt; status.code(), 9);
    let line = "! 9 toowide 51201280064003200160008000400160000\n";
    assert_eq!(rt; out.bytes(), line.as_bytes());
    Ok(())
}
