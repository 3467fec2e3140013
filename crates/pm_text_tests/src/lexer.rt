//! Texts and their tokens, the words and signs one by one, and each call that takes memory at a size that matters.
use pm_lexer::{Symbol, Tokens, content, lex, put_name, put_quoted};
use pm_values::Txt;
use std::alloc::{AllocError, Global};
use std::process::Abort;
use std::test::Fail;

// The symbols and the places of a text's tokens, or why it has none.
fn symbols(alloc: Global, text: &str) -> Result<String, AllocError> {
    let text = Txt::new(alloc, text)?;
    match lex(alloc, &text) {
        Ok(tokens) => line(alloc, &tokens),
        Err(e) => format!(in alloc; "{e:?}"),
    }
}

fn line(alloc: Global, tokens: &Tokens) -> Result<String, AllocError> {
    let mut line = String::new(alloc);
    for token in tokens.as_slice() {
        let at = token.at;
        let symbol = Symbol::of(token);
        let piece = format!(in alloc; "{symbol:?} {at};")?;
        line.push_str(piece.as_str())?;
    }
    Ok(line)
}

#[test]
fn texts_have_these_tokens(rt: HostRuntime) -> Result<(), Fail> {
    let table = [
        (
            "SELECT distinct From JOIN INNER LEFT RIGHT FULL OUTER CROSS NATURAL USING ON WHERE GROUP",
            "Select 0;Distinct 7;From 16;Join 21;Inner 26;Left 32;Right 37;Full 43;Outer 48;Cross 54;Natural 60;Using 68;On 74;Where 77;Group 83;End 88;",
        ),
        (
            "BY HAVING ORDER ASC DESC AND OR NOT IS NULL IN BETWEEN AS LIMIT OFFSET UNION",
            "By 0;Having 3;Order 10;Asc 16;Desc 20;And 25;Or 29;Not 32;Is 36;Null 39;In 44;Between 47;As 55;Limit 58;Offset 64;Union 71;End 76;",
        ),
        (
            "(),.;*-=<>!=< <=> >=",
            "Open 0;Close 1;Comma 2;Point 3;Semicolon 4;Star 5;Minus 6;Equal 7;Unequal 8;Unequal 10;Less 12;AtMost 14;Greater 16;AtLeast 18;End 20;",
        ),
        (
            "1AND 2.50<=5.'it''s'--end",
            "Number 0;And 1;Number 5;AtMost 9;Number 11;Point 12;Text 13;End 25;",
        ),
        ("table_1\"a\"\"b\"--\n-", "Name 0;Name 7;Minus 16;End 17;"),
        ("SELECT name FROM t WHERE n = 'Bob", "OpenText(29)"),
        ("'''x", "OpenText(0)"),
        ("a ! b", "BadChar(2)"),
        ("a \"\"", "BadChar(2)"),
        ("\"a\tb\"", "BadChar(2)"),
        ("123456789012345678901234.567890", "Number 0;End 31;"),
        ("1234567890123456789012345.567890", "LongNumber(0)"),
        ("x 1.1234567", "LongNumber(2)"),
        (
            "\"a2345678901234567890123456789012345678901234567890123456789012345\"",
            "LongName(0)",
        ),
    ];
    for (text, want) in table {
        assert_eq!(rt; symbols(rt.alloc(), text)?.as_str(), want, "{text}");
    }
    Ok(())
}

// A text token of 65,536 bytes, whose text is of quotes.
fn quotes(alloc: Global) -> Result<String, AllocError> {
    let mut text = String::from_str(alloc, "'")?;
    text.push_str("''".repeat(alloc, 32767)?.as_str())?;
    text.push_str("'")?;
    Ok(text)
}

// The text of a text's one token.
fn text_of(rt: &impl Abort, alloc: Global, whole: &str) -> Result<Txt, Fail> {
    let text = Txt::new(alloc, whole)?;
    let tokens = lex(alloc, &text).ok().ok_or("no tokens")?;
    assert_eq!(rt; tokens.len(), 2);
    Ok(content(alloc, tokens.at(0))?)
}

// The text of a text's one token of 32,767 bytes, written again.
fn rewritten(rt: &impl Abort, alloc: Global, whole: &str) -> Result<String, Fail> {
    let inner = text_of(rt, alloc, whole)?;
    assert_eq!(rt; inner.bytes().len(), 32767);
    let mut written = String::new(alloc);
    put_quoted(&mut written, '\'', inner.as_str())?;
    Ok(written)
}

#[test]
fn the_longest_text_is_read_and_written(rt: HostRuntime) -> Result<(), Fail> {
    let whole = quotes(rt.alloc())?;
    let mut written = rewritten(&rt, rt.alloc(), whole.as_str())?;
    assert_eq!(rt; written.as_str(), whole.as_str());
    let word = Txt::new(rt.alloc(), "union")?;
    put_name(&mut written, &word)?;
    assert_eq!(rt; written.as_str().len(), 65536 + 7);
    Ok(())
}
