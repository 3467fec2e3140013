//! Requests from files in memory, with ample memory: what each of some files calls for.
use pm_io::MemFiles;
use pm_requests::{Refusal, Role, load};
use pm_values::{OpenGate, Txt};
use std::alloc::{AllocError, Global};
use std::marker::Sync;
use std::test::Fail;
use std::thread::Threads;

const SCHEMA: &str =
    "TABLE cust FROM 'c' (id INT NOT NULL, name TEXT, KEY (id));\nTABLE ord FROM 'o' (id INT NOT NULL, cust INT NOT NULL, REFERENCES (cust) TO cust (id));\n";

const QUERY: &str = "SELECT name FROM ord o JOIN cust c ON o.cust = c.id";

const CUST: &str = "id,name\n1,Ann\n2,Bob\n";

const ORD: &str = "id,cust\n10,1\n11,1\n12,2\n";

/// The files of the schema and the query, of cust and of ord; one without text is absent.
type Texts<'a> = (&'a str, &'a str, &'a str, &'a str);

fn files_of(alloc: Global, texts: Texts) -> Result<MemFiles, AllocError> {
    let (schema, query, cust, ord) = texts;
    let mut files = MemFiles::new(alloc);
    for (name, text) in [("s", schema), ("q", query), ("c", cust), ("o", ord)] {
        put(alloc, &mut files, name, text)?;
    }
    Ok(files)
}

/// Gives the file of this name this text; without text it is absent.
fn put(alloc: Global, files: &mut MemFiles, name: &str, text: &str) -> Result<(), AllocError> {
    if text.is_empty() {
        return Ok(());
    }
    let name = Txt::new(alloc, name)?;
    files.put(&name, text.as_bytes())
}

/// The number of a file: the schema's, the query's, and those of the tables in the order of the schema.
fn number_of(role: Role) -> u64 {
    match role {
        Role::Schema => 0,
        Role::Query => 1,
        Role::Table(place) => 2 + u64::from(place),
    }
}

/// What is refused, by the code of its line, and where: the byte, the number of the file, or the table's place.
fn place_of(refusal: &Refusal) -> (u8, u64) {
    match refusal {
        Refusal::Schema(fault) => (2, fault.at),
        Refusal::Query(fault) => (3, fault.at),
        Refusal::Binding(fault) => (4, fault.at),
        Refusal::Table { table, .. } => (5, u64::from(*table)),
        Refusal::NoFile { role, .. } => (6, number_of(*role)),
        Refusal::ReadFault { role, .. } => (7, number_of(*role)),
        Refusal::NoMemory => (10, 0),
    }
}

/// What the files give by two workers: 0 with the number of tables, or what is refused.
fn answer<R: Threads + Sync>(
    rt: &R,
    alloc: Global,
    files: &mut MemFiles,
) -> Result<(u8, u64), AllocError> {
    let schema = Txt::new(alloc, "s")?;
    let query = Txt::new(alloc, "q")?;
    Ok(loaded(rt, alloc, &schema, &query, files))
}

/// The same of files with these names of the schema and the query.
fn loaded<R: Threads + Sync>(
    rt: &R,
    alloc: Global,
    schema: &Txt,
    query: &Txt,
    files: &mut MemFiles,
) -> (u8, u64) {
    let request = load(rt, alloc, schema, query, 2, files, &OpenGate);
    let found = match &request {
        Ok(request) => (0, request.db.len() as u64),
        Err(refusal) => place_of(refusal),
    };
    drop(request);
    found
}

/// What these texts give, of which each read has one byte.
fn answer_by_bytes<R: Threads + Sync>(
    rt: &R,
    alloc: Global,
    texts: Texts,
) -> Result<(u8, u64), AllocError> {
    let mut files = files_of(alloc, texts)?;
    files.piece(1);
    let found = answer(rt, alloc, &mut files);
    drop(files);
    found
}

#[test]
fn the_first_refusal_in_order_is_given(rt: HostRuntime) -> Result<(), Fail> {
    let alloc = rt.alloc();
    for (texts, found) in [
        ((SCHEMA, QUERY, CUST, ORD), (0, 2)),
        ((SCHEMA, "SELECT id FROM cust", CUST, ""), (0, 1)),
        (("", "", "", ""), (6, 0)),
        (("TABLE", "", "", ""), (2, 5)),
        ((SCHEMA, "", "", ""), (6, 1)),
        ((SCHEMA, "SELECT id", "", ""), (3, 9)),
        ((SCHEMA, "SELECT id FROM nope", "", ""), (4, 15)),
        ((SCHEMA, QUERY, "", ""), (6, 3)),
        ((SCHEMA, QUERY, "id\n", ""), (6, 3)),
        ((SCHEMA, QUERY, "", "id\n"), (5, 1)),
        ((SCHEMA, QUERY, "id\n", ORD), (5, 0)),
        ((SCHEMA, QUERY, "id,name\n2,Bob\n", ORD), (5, 1)),
    ] {
        assert_eq!(rt; answer_by_bytes(&rt, alloc, texts)?, found);
    }
    Ok(())
}

/// What the shop's files give where the call with this number fails.
fn answer_with_fault<R: Threads + Sync>(
    rt: &R,
    alloc: Global,
    call: u64,
) -> Result<(u8, u64), AllocError> {
    let mut files = files_of(alloc, (SCHEMA, QUERY, CUST, ORD))?;
    files.fail_at(call)?;
    answer(rt, alloc, &mut files)
}

#[test]
fn a_fault_is_that_of_the_file_being_read(rt: HostRuntime) -> Result<(), Fail> {
    let alloc = rt.alloc();
    for (call, file) in [(1, 0), (3, 0), (4, 1), (7, 3), (9, 3), (10, 2), (12, 2)] {
        assert_eq!(rt; answer_with_fault(&rt, alloc, call)?, (7, file));
    }
    Ok(())
}
