//! Queries, and what reading them answers, at each limit of the lists and of depth.
use pm_lexer::{Tokens, lex};
use pm_syntax::parse;
use pm_values::Txt;
use std::alloc::{AllocError, Global};
use std::test::Fail;

// What reading a query answers, as one line.
fn answer(alloc: Global, query: &str) -> Result<String, AllocError> {
    let text = Txt::new(alloc, query)?;
    match lex(alloc, &text) {
        Ok(tokens) => read(alloc, &tokens),
        Err(_) => String::from_str(alloc, "no tokens"),
    }
}

// What reading the tokens of a query answers.
fn read(alloc: Global, tokens: &Tokens) -> Result<String, AllocError> {
    match parse(alloc, tokens).err() {
        Some(e) => format!(in alloc; "{e:?}"),
        None => String::from_str(alloc, "read"),
    }
}

// A piece so many times after a front.
fn repeated(alloc: Global, front: &str, piece: &str, times: u32) -> Result<String, AllocError> {
    let mut text = String::from_str(alloc, front)?;
    for _ in 0..times {
        text.push_str(piece)?;
    }
    Ok(text)
}

// What reading a query answers that ends in a piece so many times.
fn answer_to_repeated(
    alloc: Global,
    front: &str,
    piece: &str,
    times: u32,
) -> Result<String, AllocError> {
    let query = repeated(alloc, front, piece, times)?;
    answer(alloc, query.as_str())
}

#[test]
fn queries_are_read_or_refused(rt: HostRuntime) -> Result<(), Fail> {
    let table = [
        (
            "select distinct a.x as \"from\", count(*) n from t a inner join u on a.x=u.y left outer join v on (u.z is not null or not u.w in (1,-02.50)) order by n desc;",
            "",
            0,
            "read",
        ),
        ("SELECT a FROM t LEFT JOIN u ON a = b", "", 0, "read"),
        ("SELECT a FROM t LEFT u", "", 0, "Expected(21)"),
        ("SELECT a FROM t OUTER JOIN u", "", 0, "Expected(16)"),
        ("SELECT a FROM t LEFT JOIN u, v", "", 0, "Expected(27)"),
        ("select id from cust limit 2", "", 0, "Expected(20)"),
        ("SELECT a FROM t WHERE COUNT(*) = 1", "", 0, "Expected(27)"),
        (
            "SELECT a FROM t WHERE a = 123456789012345678901234.567890",
            "",
            0,
            "read",
        ),
        ("SELECT a FROM t WHERE a IN (1", ",1", 256, "TooMany(540)"),
        ("SELECT a FROM t WHERE ", "NOT ", 33, "TooDeep(150)"),
        ("SELECT a FROM t WHERE ", "(", 65000, "TooDeep(54)"),
        ("SELECT a FROM t", " LEFT JOIN t ON a = b", 63, "read"),
        (
            "SELECT a FROM t",
            " LEFT JOIN t ON a = b",
            64,
            "TooMany(1349)",
        ),
        ("SELECT a FROM t ORDER BY a", ",a", 63, "read"),
        ("SELECT a FROM t GROUP BY a", ",a", 64, "TooMany(153)"),
    ];
    for (front, piece, times, want) in table {
        let found = answer_to_repeated(rt.alloc(), front, piece, times)?;
        assert_eq!(rt; found.as_str(), want, "{front} {times}");
    }
    Ok(())
}
