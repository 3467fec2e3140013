//! Statements over a schema, and what they are bound to.
ghost use Rattle.std.specs.Prelude.{◌≤◌, length};

use pm_binder::{BindBad, bind};
use pm_lexer::{Tokens, lex};
use pm_schema::{Schema, read_schema};
use pm_syntax::{Select, parse};
use pm_values::Txt;
use std::alloc::{AllocError, Global};
use std::test::Fail;

const SHOP: &str =
    "TABLE cust FROM 'c' (id INT NOT NULL, name TEXT, KEY (id)); TABLE ord FROM 'o' (id INT NOT NULL, cust INT NOT NULL, amt INT NOT NULL, KEY (id));";

/// How many conjuncts and outputs the query has that a text is bound to, or the refusal; None where it is no statement.
type Outcome = Option<Result<(usize, usize), BindBad>>;

// What a text is bound to over the shop's tables.
fn answer(alloc: Global, text: &str) -> Result<Outcome, AllocError> {
    let text = Txt::new(alloc, text)?;
    match lex(alloc, &text) {
        Ok(tokens) => read_and_bound(alloc, &tokens),
        Err(_) => Ok(None),
    }
}

// What the statement of these tokens is bound to.
fn read_and_bound(alloc: Global, tokens: &Tokens) -> Result<Outcome, AllocError> {
    let select = parse(alloc, tokens);
    let outcome = match &select {
        Ok(select) => over_shop(alloc, select),
        Err(_) => Ok(None),
    };
    drop(select);
    outcome
}

// What a statement is bound to over the shop's tables.
fn over_shop(alloc: Global, select: &Select) -> Result<Outcome, AllocError> {
    let text = Txt::new(alloc, SHOP)?;
    match lex(alloc, &text) {
        Ok(tokens) => over_schema(alloc, select, &tokens),
        Err(_) => Ok(None),
    }
}

// What a statement is bound to over the schema of these tokens.
fn over_schema(alloc: Global, select: &Select, tokens: &Tokens) -> Result<Outcome, AllocError> {
    let schema = read_schema(alloc, tokens);
    let outcome = match &schema {
        Ok(schema) if schema.len() <= 64 => Ok(Some(bound(alloc, select, schema))),
        _ => Ok(None),
    };
    drop(schema);
    outcome
}

// How many conjuncts and outputs the query of a statement has, or the refusal.
fn bound(alloc: Global, select: &Select, schema: &Schema) -> Result<(usize, usize), BindBad>
    requires { length schema.now ≤ 64 }
{
    let query = bind(alloc, select, schema);
    let counts = match &query {
        Ok(query) => Ok((query.conjuncts.len(), query.outputs.len())),
        Err(bad) => Err(*bad),
    };
    drop(query);
    counts
}

#[test]
fn statements_are_bound(rt: HostRuntime) -> Result<(), Fail> {
    let cases = [
        (
            "SELECT c.name, SUM(o.amt) FROM ord o JOIN cust c ON o.cust = c.id AND (o.amt > 1 AND o.id > 2) GROUP BY c.name HAVING COUNT(*) > 1",
            Ok((3, 2)),
        ),
        (
            "SELECT DISTINCT c.name FROM cust c LEFT JOIN ord o ON o.cust = c.id WHERE o.amt NOT IN (7, NULL) ORDER BY c.name",
            Ok((2, 1)),
        ),
        ("SELECT * FROM ord", Ok((0, 3))),
        ("SELECT id FROM nope", Err(BindBad::NoTable(15))),
    ];
    for (text, want) in cases {
        assert_eq!(rt; answer(rt.alloc(), text)?, Some(want), "{text}");
    }
    Ok(())
}
