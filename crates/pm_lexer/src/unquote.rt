//! What a quoted token stands for.
ghost use Rattle.std.specs.Prelude.{◌≡◌, ◌<◌, ◌≤◌, ◌^◌, ◌++◌, take, drop, length, IfOk, MatchOption};
ghost use Rattle.pm_lexer.specs.Pieces.{inside, after_quote, single_quotes, content_of, NoneBefore, IsFirst};

use crate::token::{Token, TokenKind};
use pm_values::Txt;
use std::alloc::{AllocError, Global};

/// The name that a name's token stands for, or the text of a text's token: without the outer quotes, and each doubled
/// quote once. The slice of another token.
pub fn content(alloc: Global, token: &Token) -> Result<Txt, AllocError>
    ensures { IfOk result (λ content. content ≡ content_of token.now) }
{
    match token.kind {
        TokenKind::Quoted => single_quotes(alloc, b'"', inside(b'"', token.slice.as_str())),
        TokenKind::Text => single_quotes(alloc, b'\'', inside(b'\'', token.slice.as_str())),
        _ => token.slice.copy(alloc),
    }
}

// What stands between these quotes, where they enclose the text.
#[tactic(auto, using(crate::proofs::QuoteEnds::boundary_after_first, crate::proofs::QuoteEnds::boundary_before_last))]
fn inside(quote: u8, text: &str) -> &str
    requires { quote < 128 }
    ensures { result.now ≡ inside quote text.now }
{
    let bytes = text.as_bytes();
    if bytes.len() >= 2 && bytes[0] == quote && bytes[bytes.len() - 1] == quote {
        let (rest, _) = text.split_at(bytes.len() - 1);
        let (_, rest) = rest.split_at(1);
        return rest;
    }
    text
}

// The text with each doubled quote once.
#[tactic(auto, using(crate::proofs::QuoteEnds::boundary_after_quote))]
fn single_quotes(alloc: Global, quote: u8, text: &str) -> Result<Txt, AllocError>
    requires { quote < 128 }
    ensures { IfOk result (λ single. single ≡ single_quotes quote text.now) }
{
    let mut single = String::new(alloc);
    let mut rest = text;
    'pieces: loop {
        match quote_at(quote, rest.as_bytes()) {
            None => {
                single.push_str(rest)?;
                return Txt::new(alloc, single.as_str());
            }
            Some(at) => {
                let (piece, after) = rest.split_at(at + 1);
                single.push_str(piece)?;
                rest = after_quote(quote, after);
            }
        }
    }
}

// The place of the first quote.
pub(crate) fn quote_at(quote: u8, bytes: &[u8]) -> Option<usize>
    ensures { MatchOption result (NoneBefore quote bytes.now (length bytes.now)) (λ i. IsFirst quote bytes.now i) }
{
    for (i, b) in bytes.iter().enumerate() {
        if *b == quote {
            return Some(i);
        }
    }
    None
}

// What stands after a quote, where one comes next.
#[tactic(auto, using(crate::proofs::QuoteEnds::boundary_after_first))]
fn after_quote(quote: u8, text: &str) -> &str
    requires { quote < 128 }
    ensures { result.now ≡ after_quote quote text.now }
{
    let bytes = text.as_bytes();
    if !bytes.is_empty() && bytes[0] == quote {
        let (_, rest) = text.split_at(1);
        return rest;
    }
    text
}
