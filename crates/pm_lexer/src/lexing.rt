//! The tokens of a text.
ghost use Rattle.std.specs.Prelude.{◌≡◌, ◌≢◌, Ok, Err, IfOk, IfErr, OnOk, All, ◌<◌, ◌+◌, ◌^◌, length, drop};
ghost use Rattle.pm_lexer.specs.Tokens.{tokens_of, tokens_after, all_before, IsShortNumber};
ghost use Rattle.pm_lexer.specs.Head.{IsCut};

use crate::fault::LexBad;
use crate::head::{Head, head_of};
use crate::token::{Token, TokenKind, Tokens};
use pm_values::Txt;
use std::alloc::Global;

/// The tokens of a text: exactly where it has tokens, and else the refusal with the least place.
///
/// At each place the longest token is taken; blanks and comments, from `--` to the end of the line, stand between
/// tokens. A quote right before a quote is a doubled one, and never the closing one. The time is linear in the text.
/// The rules are this project's own, after the lexical rules of SQL.
pub fn lex(alloc: Global, text: &Txt) -> Result<Tokens, LexBad>
    ensures tokens { IfOk result (λ tokens. tokens_of text.now ≡ Ok tokens) }
    ensures refused { IfErr result (λ e. e ≢ LexBad.Memory → tokens_of text.now ≡ Err e) }
    ensures short_numbers { IfOk result (λ tokens. All IsShortNumber tokens) }
{
    let mut tokens = Tokens::new(alloc);
    let mut rest = text.as_str();
    let mut at: u64 = 0;
    while !rest.is_empty() {
        let len = step(alloc, &mut tokens, rest, at)?;
        let (_, after) = rest.split_at(len);
        rest = after;
        at += len as u64;
    }
    let slice = Txt::new(alloc, "")?;
    let kind = TokenKind::End;
    tokens.push(Token { kind, slice, at })?;
    Ok(tokens)
}

// Takes what stands at the head of the rest, and gives its length.
fn step(alloc: Global, tokens: &mut Tokens, rest: &str, at: u64) -> Result<usize, LexBad>
    requires some { 0 < length rest.now }
    requires room { at + length rest.now < 2 ^ 63 }
    requires short { All IsShortNumber tokens.old }
    ensures cut { IfOk result (λ n. IsCut rest.now n) }
    ensures walked { IfOk result (λ n. all_before tokens.old (tokens_after 0 at rest.now) ≡ all_before tokens.new (tokens_after 0 (at + n) (drop n rest.now))) }
    ensures short_numbers { OnOk result (All IsShortNumber tokens.new) }
    ensures refused { IfErr result (λ e. e ≢ LexBad.Memory → tokens_after 0 at rest.now ≡ Err e) }
{
    match head_of(rest, at)? {
        Head::Gap(len) => Ok(len),
        Head::Piece(kind, len) => {
            let (piece, _) = rest.split_at(len);
            let slice = Txt::new(alloc, piece)?;
            tokens.push(Token { kind, slice, at })?;
            Ok(len)
        }
    }
}
