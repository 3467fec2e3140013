//! Tokens.
use pm_values::{Items, Txt};

/// What a token is.
///
/// `Reserved` is a reserved word of the language, in any case of its letters. `End` stands once, at the text's end.
#[derive(Clone, Copy, Debug, PartialEq, Eq)]
pub enum TokenKind {
    Name,
    Reserved,
    Quoted,
    Number,
    Text,
    Sign,
    End,
}

/// A token of a text: its kind, its bytes as they stand in the text, quotes included, and its place, a byte offset
/// from 0. The end token has no bytes and stands at the text's length.
#[derive(Debug, Drop)]
pub struct Token {
    pub kind: TokenKind,
    pub slice: Txt,
    pub at: u64,
}

/// The tokens of a text, in order.
pub type Tokens = Items<Token>;
