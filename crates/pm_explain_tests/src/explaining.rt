//! What `explain` writes of a statement over some small tables.
use pm_commands::{prepare, write};
use pm_io::{MemFiles, MemSink};
use pm_values::{OpenGate, Txt};
use std::alloc::{AllocError, Global};
use std::marker::Sync;
use std::thread::Threads;

const SCHEMA: &str =
    "TABLE one FROM 'one' (id INT NOT NULL, n INT NOT NULL, KEY (id), ORDER (id));\n\
TABLE seven FROM 'seven' (id INT NOT NULL, n INT NOT NULL, KEY (id));\n\
TABLE eight FROM 'eight' (id INT NOT NULL, n INT NOT NULL, KEY (id));\n\
TABLE paired FROM 'paired' (id INT NOT NULL, n INT NOT NULL, KEY (id, n));\n\
TABLE steps FROM 'steps' (a INT NOT NULL, b INT NOT NULL, c INT, ORDER (a, b, c));\n\
TABLE stairs FROM 'stairs' (a INT NOT NULL, b INT NOT NULL, c INT, KEY (a, b), ORDER (a, b));\n\
TABLE cust FROM 'cust' (id INT NOT NULL, name TEXT NOT NULL, region TEXT, KEY (id));\n\
TABLE sale FROM 'sale' (id INT NOT NULL, cust INT NOT NULL, amt INT, KEY (id), REFERENCES (cust) TO cust (id));\n";

/// The tables with their headers, and how many rows they have.
const TABLES: [(&str, &str, u32); 8] = [
    ("one", "id,n", 1),
    ("seven", "id,n", 7),
    ("eight", "id,n", 8),
    ("paired", "id,n", 8),
    ("steps", "a,b,c", 5),
    ("stairs", "a,b,c", 4),
    ("cust", "id,name,region", 3),
    ("sale", "id,cust,amt", 3),
];

/// A record that has this number in each column.
fn record(alloc: Global, header: &str, number: u32) -> Result<String, AllocError> {
    let mut text = String::new(alloc);
    for (column, _) in header.split(',').enumerate() {
        let comma = if column == 0 { "" } else { "," };
        text.push_str(format!(in alloc; "{comma}{number}")?.as_str())?;
    }
    text.push_str("\n")?;
    Ok(text)
}

/// A file of so many rows, of which each has its number in each column.
fn file(alloc: Global, header: &str, rows: u32) -> Result<String, AllocError> {
    let mut text = format!(in alloc; "{header}\n")?;
    for row in 1..=rows {
        text.push_str(record(alloc, header, row)?.as_str())?;
    }
    Ok(text)
}

/// Gives the file of this name this text.
fn put(alloc: Global, files: &mut MemFiles, name: &str, text: &str) -> Result<(), AllocError> {
    let name = Txt::new(alloc, name)?;
    files.put(&name, text.as_bytes())
}

fn files(alloc: Global, query: &str) -> Result<MemFiles, AllocError> {
    let mut files = MemFiles::new(alloc);
    put(alloc, &mut files, "s", SCHEMA)?;
    put(alloc, &mut files, "q", query)?;
    for (name, header, rows) in TABLES {
        put(alloc, &mut files, name, file(alloc, header, rows)?.as_str())?;
    }
    Ok(files)
}

/// The words of an `explain` with this choice of joins.
fn words_of(alloc: Global, join: &str) -> Result<Vec<Txt>, AllocError> {
    let mut words = Vec::new(alloc);
    for word in ["explain", "s", "q", "--join", join] {
        words.push(Txt::new(alloc, word)?)?;
    }
    Ok(words)
}

/// Writes what `explain` writes of a query with this choice of joins, and nothing where it is refused.
fn explain<R: Threads + Sync>(
    rt: &R,
    alloc: Global,
    join: &str,
    query: &str,
    out: &mut MemSink,
) -> Result<(), AllocError> {
    let words = words_of(alloc, join)?;
    let mut files = files(alloc, query)?;
    let prepared = prepare(rt, alloc, words.as_slice(), &mut files, &OpenGate);
    if let Ok(prepared) = &prepared {
        write(alloc, prepared, out).ok();
    }
    drop(prepared);
    drop(files);
    drop(words);
    Ok(())
}

/// What `explain` writes of a query with this choice of joins, and nothing where it is refused.
pub(crate) fn explained<R: Threads + Sync>(
    rt: &R,
    alloc: Global,
    join: &str,
    query: &str,
) -> Result<MemSink, AllocError> {
    let mut out = MemSink::new(alloc, 4096)?;
    explain(rt, alloc, join, query, &mut out)?;
    Ok(out)
}
