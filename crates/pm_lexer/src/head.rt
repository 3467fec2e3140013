//! What stands at the head of a text.
ghost use Rattle.std.specs.Prelude.{◌≡◌, ◌+◌, ◌<◌, ◌≤◌, ◌^◌, ◌&&◌, length, take, drop, slice_index, IfSome, MatchOption, None, Some, position, IfOk};
ghost use Rattle.std.specs.List.{prefix_len};
ghost use Rattle.std.specs.Char.{is_ascii_control, is_ascii_digit};
ghost use Rattle.pm_lexer.specs.Byte.{is_blank, is_letter, is_word, is_inline};
ghost use Rattle.pm_lexer.specs.Pieces.{decimals, whole_len, decimals_len, number_len, quotation, single_quotes};
ghost use Rattle.pm_lexer.specs.Head.{name_at, number_at, named_at, quoted_at, text_at, sign_at, head_of, Cuts};

use crate::fault::LexBad;
use crate::symbol::Symbol;
use crate::token::TokenKind;

/// The most bytes of a name, its quotes not counted and a doubled quote counted once.
pub const NAME_BYTES: usize = 64;

/// The most digits of a number.
pub const DIGITS: usize = 30;

/// The most digits of a number after its point.
pub const DECIMALS: usize = 6;

/// What stands at the head of a text: a blank or a comment, or a token, of so many bytes.
#[derive(Clone, Copy, Debug, PartialEq, Eq)]
pub enum Head {
    Gap(usize),
    Piece(TokenKind, usize),
}

fn is_blank(b: u8) -> bool
    ensures { result ≡ is_blank b }
{
    b == b' ' || b == b'\t' || b == b'\r' || b == b'\n'
}

pub(crate) fn is_letter(b: u8) -> bool
    ensures { result ≡ is_letter b }
{
    b.is_ascii_alphabetic() || b == b'_'
}

pub(crate) fn is_word(b: u8) -> bool
    ensures { result ≡ is_word b }
{
    is_letter(b) || b.is_ascii_digit()
}

fn word_len(text: &[u8]) -> usize
    ensures run { result ≡ prefix_len is_word text.now }
    ensures within { result ≤ length text.now }
{
    text.iter().take_while(|b| is_word(**b)).count()
}

fn line_len(text: &[u8]) -> usize
    ensures run { result ≡ prefix_len is_inline text.now }
    ensures within { result ≤ length text.now }
{
    text.iter().take_while(|b| **b != b'\n').count()
}

fn digits_len(text: &[u8]) -> usize
    ensures run { result ≡ prefix_len is_ascii_digit text.now }
    ensures within { result ≤ length text.now }
{
    text.iter().take_while(|b| b.is_ascii_digit()).count()
}

// The digits after a point.
fn decimals(text: &[u8]) -> usize
    ensures run { result ≡ decimals text.now }
    ensures within { result ≤ length text.now }
{
    match text {
        [b'.', rest @ ..] => digits_len(rest),
        _ => 0,
    }
}

/// How many digits stand after the point of the number that the text begins with.
pub fn decimals_len(text: &[u8]) -> usize
    ensures run { result ≡ decimals_len text.now }
    ensures within { result ≤ length text.now }
{
    let (_, rest) = text.split_at(digits_len(text));
    decimals(rest)
}

// How many bytes stand before the closing quote.
fn quotation(quote: u8, text: &[u8]) -> Option<usize>
    ensures closed { result ≡ quotation quote text.now }
    ensures within { IfSome result (λ n. n < length text.now) }
{
    let mut at = 0;
    while at < text.len() {
        if text[at] == quote {
            if at + 1 == text.len() || text[at + 1] != quote {
                return Some(at);
            }
            at += 2;
        } else {
            at += 1;
        }
    }
    None
}

// The bytes that stand between quotes, with each doubled quote counted once.
fn single_quotes_len(quote: u8, text: &[u8]) -> usize
    ensures { result ≡ length (single_quotes quote text.now) }
{
    let mut at = 0;
    let mut count = 0;
    while at < text.len() {
        if text[at] == quote && at + 1 < text.len() && text[at + 1] == quote {
            at += 2;
        } else {
            at += 1;
        }
        count += 1;
    }
    count
}

#[tactic(auto, unfolding(crate::specs::Head::name_at))]
fn name(text: &[u8], at: u64) -> Result<Head, LexBad>
    ensures { result ≡ name_at at text.now }
{
    let len = word_len(text);
    if len > NAME_BYTES {
        return Err(LexBad::LongName(at));
    }
    let (word, _) = text.split_at(len);
    let kind = if Symbol::reserved_word(word).is_some() {
        TokenKind::Reserved
    } else {
        TokenKind::Name
    };
    Ok(Head::Piece(kind, len))
}

#[tactic(auto, unfolding(crate::specs::Head::number_at))]
fn number(text: &[u8], at: u64) -> Result<Head, LexBad>
    ensures { result ≡ number_at at text.now }
{
    let whole = digits_len(text);
    let decimals = decimals_len(text);
    if decimals > DECIMALS || whole > DIGITS || whole + decimals > DIGITS {
        return Err(LexBad::LongNumber(at));
    }
    let len = if decimals == 0 {
        whole
    } else {
        whole + 1 + decimals
    };
    Ok(Head::Piece(TokenKind::Number, len))
}

// The first control character.
fn control(name: &[u8]) -> Option<usize>
    ensures first { result ≡ position is_ascii_control name.now }
    ensures within { IfSome result (λ i. i < length name.now) }
{
    name.iter().position(|b| b.is_ascii_control())
}

// A name that stands between quotes, of which the first is at this place.
#[tactic(auto, unfolding(crate::specs::Head::named_at))]
fn named(name: &[u8], at: u64) -> Result<Head, LexBad>
    requires { at + length name.now + 2 < 2 ^ 64 }
    ensures { result ≡ named_at at name.now }
{
    if name.is_empty() {
        return Err(LexBad::BadChar(at));
    }
    if single_quotes_len(b'"', name) > NAME_BYTES {
        return Err(LexBad::LongName(at));
    }
    match control(name) {
        Some(i) => Err(LexBad::BadChar(at + 1 + i as u64)),
        None => Ok(Head::Piece(TokenKind::Quoted, name.len() + 2)),
    }
}

// A quoted name, by what stands after its first quote.
fn quoted(rest: &[u8], at: u64) -> Result<Head, LexBad>
    requires { at + length rest.now + 1 < 2 ^ 63 }
    ensures { result ≡ quoted_at at rest.now }
{
    let Some(len) = quotation(b'"', rest) else {
        return Err(LexBad::OpenText(at));
    };
    let (name, _) = rest.split_at(len);
    named(name, at)
}

fn text_token(rest: &[u8], at: u64) -> Result<Head, LexBad>
    ensures { result ≡ text_at at rest.now }
{
    match quotation(b'\'', rest) {
        None => Err(LexBad::OpenText(at)),
        Some(len) => Ok(Head::Piece(TokenKind::Text, len + 2)),
    }
}

#[tactic(auto, unfolding(crate::specs::Head::sign_at))]
fn sign(text: &[u8], at: u64) -> Result<Head, LexBad>
    requires { 0 < length text.now }
    ensures { result ≡ sign_at at text.now }
{
    if text.len() >= 2 {
        let (two, _) = text.split_at(2);
        if Symbol::sign_of(two).is_some() {
            return Ok(Head::Piece(TokenKind::Sign, 2));
        }
    }
    let (one, _) = text.split_at(1);
    if Symbol::sign_of(one).is_some() {
        return Ok(Head::Piece(TokenKind::Sign, 1));
    }
    Err(LexBad::BadChar(at))
}

/// What stands at the head of a text that is not empty, its first byte being at this place.
#[tactic(auto, using(crate::proofs::Boundary::head_cuts))]
pub fn head_of(text: &str, at: u64) -> Result<Head, LexBad>
    requires some { 0 < length text.now }
    requires room { at + length text.now < 2 ^ 63 }
    ensures head { result ≡ head_of at text.now }
    ensures cuts { Cuts text.now result }
{
    head_of_bytes(text.as_bytes(), at)
}

#[tactic(auto, unfolding(crate::specs::Head::head_of))]
fn head_of_bytes(text: &[u8], at: u64) -> Result<Head, LexBad>
    requires some { 0 < length text.now }
    requires room { at + length text.now < 2 ^ 63 }
    ensures { result ≡ head_of at text.now }
{
    match text {
        [] => Err(LexBad::BadChar(at)),
        [b, rest @ ..] => {
            if is_blank(*b) {
                Ok(Head::Gap(1))
            } else if text.starts_with(b"--") {
                Ok(Head::Gap(line_len(text)))
            } else if is_letter(*b) {
                name(text, at)
            } else if b.is_ascii_digit() {
                number(text, at)
            } else if *b == b'"' {
                quoted(rest, at)
            } else if *b == b'\'' {
                text_token(rest, at)
            } else {
                sign(text, at)
            }
        }
    }
}
