//! Texts of schemas and their answers.
use pm_lexer::{Tokens, lex};
use pm_schema::{SchemaBad, read_schema};
use pm_values::Txt;
use std::alloc::{AllocError, Global};
use std::test::Fail;

// How many tables a text declares, or its refusal. Its own refusals by the lexer have no place here.
fn answer(alloc: Global, text: &str) -> Result<Result<usize, SchemaBad>, AllocError> {
    let text = Txt::new(alloc, text)?;
    match lex(alloc, &text) {
        Ok(tokens) => Ok(read(alloc, &tokens)),
        Err(_) => Ok(Err(SchemaBad::Memory)),
    }
}

// How many tables tokens declare, or their refusal.
fn read(alloc: Global, tokens: &Tokens) -> Result<usize, SchemaBad> {
    read_schema(alloc, tokens).map(|schema| schema.len())
}

#[test]
fn schemas_are_read(rt: HostRuntime) -> Result<(), Fail> {
    let cases = [
        (
            "TABLE t FROM 't.csv' (a INT, KEY (a));",
            Err(SchemaBad::NullKey(34)),
        ),
        ("", Err(SchemaBad::Expected(0))),
        ("TABLE t FROM 'f' (key INT NOT NULL, KEY (key));", Ok(1)),
        ("TABLE t FROM 'f' (a NUM(7));", Err(SchemaBad::Expected(24))),
        (
            "TABLE t FROM 'f' (a INT, ORDER (b, a, a));",
            Err(SchemaBad::KeyColumn(32)),
        ),
        (
            "TABLE t FROM 'f' (a INT); TABLE t FROM 'g' (a INT);",
            Err(SchemaBad::DoubleTable(32)),
        ),
        (
            "TABLE t FROM 'f' (a INT, ORDER (a,a,a,a,a,a,a,a,a));",
            Err(SchemaBad::TooMany(48)),
        ),
        (
            "TABLE t FROM 't.csv' (a INT NOT NULL, REFERENCES (a) TO u (a));",
            Err(SchemaBad::RefTable(56)),
        ),
    ];
    for (text, want) in cases {
        assert_eq!(rt; answer(rt.alloc(), text)?, want, "{text}");
    }
    Ok(())
}

// A schema of so many tables, of so many columns c0, c1, .. NOT NULL with KEY on the last, each with so many references
// to itself.
fn wide(
    alloc: Global,
    tables: usize,
    columns: usize,
    references: usize,
) -> Result<String, AllocError> {
    let mut text = String::new(alloc);
    for t in 0..tables {
        text.push_str(table(alloc, t, columns, references)?.as_str())?;
    }
    Ok(text)
}

// The table with this number of such a schema.
fn table(
    alloc: Global,
    number: usize,
    columns: usize,
    references: usize,
) -> Result<String, AllocError> {
    let last = columns.saturating_sub(1);
    let mut text = format!(in alloc; "TABLE t{number} FROM 'f' (")?;
    text.push_str(declared(alloc, columns)?.as_str())?;
    text.push_str(format!(in alloc; "KEY (c{last})")?.as_str())?;
    let clause = format!(in alloc; ", REFERENCES (c{last}) TO t{number} (c{last})")?;
    text.push_str(clause.repeat(alloc, references)?.as_str())?;
    text.push_str(");")?;
    Ok(text)
}

// The declarations of so many columns, with a comma behind each.
fn declared(alloc: Global, columns: usize) -> Result<String, AllocError> {
    let mut text = String::new(alloc);
    for c in 0..columns {
        text.push_str(format!(in alloc; "c{c} INT NOT NULL, ")?.as_str())?;
    }
    Ok(text)
}

#[test]
fn the_largest_schema_is_read(rt: HostRuntime) -> Result<(), Fail> {
    let largest = wide(rt.alloc(), 64, 64, 8)?;
    assert_eq!(rt; answer(rt.alloc(), largest.as_str())?, Ok(64));
    let ninth = wide(rt.alloc(), 1, 1, 9)?;
    assert_eq!(rt;
        answer(rt.alloc(), ninth.as_str())?,
        Err(SchemaBad::TooMany(270))
    );
    Ok(())
}
