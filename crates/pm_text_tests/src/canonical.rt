//! Queries and their canonical texts, each read back, up to the longest.
use pm_canonical::print;
use pm_lexer::{Tokens, lex};
use pm_syntax::parse;
use pm_values::Txt;
use std::alloc::{AllocError, Global};
use std::process::Abort;
use std::test::Fail;

// The canonical text of a query; empty where it has none.
fn canonical(alloc: Global, query: &str) -> Result<Txt, AllocError> {
    let text = Txt::new(alloc, query)?;
    match lex(alloc, &text) {
        Ok(tokens) => canonical_of(alloc, &tokens),
        Err(_) => Txt::new(alloc, ""),
    }
}

// The canonical text of the query of these tokens; empty where it has none.
fn canonical_of(alloc: Global, tokens: &Tokens) -> Result<Txt, AllocError> {
    match parse(alloc, tokens) {
        Ok(select) => {
            let text = print(alloc, &select);
            drop(select);
            text
        }
        Err(_) => Txt::new(alloc, ""),
    }
}

// The canonical text of a query's canonical text.
fn canonical_again(alloc: Global, query: &str) -> Result<Txt, AllocError> {
    let text = canonical(alloc, query)?;
    canonical(alloc, text.as_str())
}

// Compares the canonical text of a query, and that of this text, with what is wanted.
fn compare(rt: &impl Abort, alloc: Global, query: &str, want: &str) -> Result<(), AllocError> {
    assert_eq!(rt; canonical(alloc, query)?.as_str(), want);
    assert_eq!(rt; canonical_again(alloc, query)?.as_str(), want);
    Ok(())
}

// A query of 65,536 bytes that is its own canonical text.
fn longest(alloc: Global) -> Result<String, AllocError> {
    let mut query = String::from_str(alloc, "SELECT a FROM t WHERE a IN ('")?;
    query.push_str("x".repeat(alloc, 65505)?.as_str())?;
    query.push_str("')")?;
    Ok(query)
}

// Queries and their canonical texts.
const CASES: [(&str, &str); 3] = [
    (
        "select distinct a.x as \"from\", count(*) n from t a inner join u on a.x=u.y and (u.z is not null or not u.w in (1,-02.50)) order by n desc;",
        "SELECT DISTINCT a.x AS \"from\", COUNT(*) AS n FROM t AS a JOIN u ON a.x = u.y AND (u.z IS NOT NULL OR NOT u.w IN (1, -2.50)) ORDER BY n DESC",
    ),
    (
        "SELECT x FROM t, u join v on 1=1 left outer join w x on NOT (a=1 AND a!='it''s') GROUP BY a HAVING SUM(t.b) NOT BETWEEN - .5 AND -0",
        "",
    ),
    (
        "SELECT x FROM t, u join v on 1=1 left outer join w x on NOT (a=1 AND a!='it''s') GROUP BY a HAVING SUM(t.b) NOT BETWEEN - 0.5 AND -0",
        "SELECT x FROM t, u JOIN v ON 1 = 1 LEFT JOIN w AS x ON NOT (a = 1 AND a <> 'it''s') GROUP BY a HAVING SUM(t.b) NOT BETWEEN -0.5 AND 0",
    ),
];

#[test]
fn canonical_text_is_its_own(rt: HostRuntime) -> Result<(), Fail> {
    for (query, want) in CASES {
        compare(&rt, rt.alloc(), query, want)?;
    }
    let long = longest(rt.alloc())?;
    compare(&rt, rt.alloc(), long.as_str(), long.as_str())?;
    Ok(())
}
