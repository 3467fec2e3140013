//! What a grammar sees of a token: the reserved words, the signs, and the other kinds.
ghost use Rattle.std.specs.Prelude.{◌≡◌, codes};
ghost use Rattle.std.specs.Str.{str_eq_ignore_ascii_case};
ghost use Rattle.pm_lexer.specs.Symbol.{spelling, reserved_word, canonical_sign, sign_of, symbol_at, symbol_of};
ghost use Rattle.pm_lexer.specs.declared.token.TokenKind.TheVariants as kind;

use crate::token::{Token, TokenKind};

/// What a grammar sees of a token: a reserved word, a sign, or one of the other kinds of token. A plain and a quoted
/// name are both a `Name`. `Other` is no token of a text.
#[derive(Clone, Copy, Debug, PartialEq, Eq)]
pub enum Symbol {
    Select,
    Distinct,
    From,
    Join,
    Inner,
    Left,
    Right,
    Full,
    Outer,
    Cross,
    Natural,
    Using,
    On,
    Where,
    Group,
    By,
    Having,
    Order,
    Asc,
    Desc,
    And,
    Or,
    Not,
    Is,
    Null,
    In,
    Between,
    As,
    Limit,
    Offset,
    Union,
    Open,
    Close,
    Comma,
    Point,
    Semicolon,
    Star,
    Minus,
    Equal,
    Unequal,
    Less,
    AtMost,
    Greater,
    AtLeast,
    Name,
    Number,
    Text,
    End,
    Other,
}

/// The most bytes that a number has: 30 digits and a point.
pub const NUMBER_BYTES: usize = 31;

/// The reserved words.
pub const RESERVED: [Symbol; 31] = [
    Symbol::Select,
    Symbol::Distinct,
    Symbol::From,
    Symbol::Join,
    Symbol::Inner,
    Symbol::Left,
    Symbol::Right,
    Symbol::Full,
    Symbol::Outer,
    Symbol::Cross,
    Symbol::Natural,
    Symbol::Using,
    Symbol::On,
    Symbol::Where,
    Symbol::Group,
    Symbol::By,
    Symbol::Having,
    Symbol::Order,
    Symbol::Asc,
    Symbol::Desc,
    Symbol::And,
    Symbol::Or,
    Symbol::Not,
    Symbol::Is,
    Symbol::Null,
    Symbol::In,
    Symbol::Between,
    Symbol::As,
    Symbol::Limit,
    Symbol::Offset,
    Symbol::Union,
];

/// The signs. `!=` is the other spelling of `Unequal`.
pub const SIGNS: [Symbol; 13] = [
    Symbol::Open,
    Symbol::Close,
    Symbol::Comma,
    Symbol::Point,
    Symbol::Semicolon,
    Symbol::Star,
    Symbol::Minus,
    Symbol::Equal,
    Symbol::Unequal,
    Symbol::Less,
    Symbol::AtMost,
    Symbol::Greater,
    Symbol::AtLeast,
];

impl Symbol {
    /// The word in capitals or the sign, as canonical text has it; empty for the other kinds of token.
    pub fn spelling(self) -> &'static str
        ensures { result.now ≡ spelling self }
    {
        match self {
            Symbol::Select => "SELECT",
            Symbol::Distinct => "DISTINCT",
            Symbol::From => "FROM",
            Symbol::Join => "JOIN",
            Symbol::Inner => "INNER",
            Symbol::Left => "LEFT",
            Symbol::Right => "RIGHT",
            Symbol::Full => "FULL",
            Symbol::Outer => "OUTER",
            Symbol::Cross => "CROSS",
            Symbol::Natural => "NATURAL",
            Symbol::Using => "USING",
            Symbol::On => "ON",
            Symbol::Where => "WHERE",
            Symbol::Group => "GROUP",
            Symbol::By => "BY",
            Symbol::Having => "HAVING",
            Symbol::Order => "ORDER",
            Symbol::Asc => "ASC",
            Symbol::Desc => "DESC",
            Symbol::And => "AND",
            Symbol::Or => "OR",
            Symbol::Not => "NOT",
            Symbol::Is => "IS",
            Symbol::Null => "NULL",
            Symbol::In => "IN",
            Symbol::Between => "BETWEEN",
            Symbol::As => "AS",
            Symbol::Limit => "LIMIT",
            Symbol::Offset => "OFFSET",
            Symbol::Union => "UNION",
            Symbol::Open => "(",
            Symbol::Close => ")",
            Symbol::Comma => ",",
            Symbol::Point => ".",
            Symbol::Semicolon => ";",
            Symbol::Star => "*",
            Symbol::Minus => "-",
            Symbol::Equal => "=",
            Symbol::Unequal => "<>",
            Symbol::Less => "<",
            Symbol::AtMost => "<=",
            Symbol::Greater => ">",
            Symbol::AtLeast => ">=",
            Symbol::Name | Symbol::Number | Symbol::Text | Symbol::End | Symbol::Other => "",
        }
    }

    /// The reserved word that these bytes spell, with ASCII case put aside.
    #[tactic(auto, unfolding(crate::specs::Symbol::reserved_word))]
    pub fn reserved_word(bytes: &[u8]) -> Option<Symbol>
        ensures { result ≡ reserved_word bytes.now }
    {
        RESERVED
            .iter()
            .copied()
            .find(|word| spells(bytes, word.spelling()))
    }

    /// The sign that these bytes are.
    pub fn sign_of(bytes: &[u8]) -> Option<Symbol>
        ensures { result ≡ sign_of bytes.now }
    {
        if bytes == b"!=".as_slice() {
            return Some(Symbol::Unequal);
        }
        canonical_sign(bytes)
    }

    /// What a grammar sees of a token.
    #[tactic(auto, unfolding(crate::specs::Symbol::symbol_of))]
    pub fn of(token: &Token) -> Symbol
        ensures { result ≡ symbol_of token.now }
    {
        match token.kind {
            TokenKind::Name | TokenKind::Quoted => Symbol::Name,
            TokenKind::Number => of_number(token.slice.bytes()),
            TokenKind::Text => Symbol::Text,
            TokenKind::End => Symbol::End,
            TokenKind::Reserved => Symbol::reserved_word(token.slice.bytes()).unwrap_or(
                Symbol::Other,
            ),
            TokenKind::Sign => Symbol::sign_of(token.slice.bytes()).unwrap_or(Symbol::Other),
        }
    }
}

fn of_number(bytes: &[u8]) -> Symbol
    ensures { result ≡ symbol_at kind.Number bytes.now }
{
    if bytes.len() <= NUMBER_BYTES {
        Symbol::Number
    } else {
        Symbol::Other
    }
}

// Whether the bytes are this text, with ASCII case put aside.
fn spells(bytes: &[u8], text: &str) -> bool
    ensures { result ≡ str_eq_ignore_ascii_case bytes.now text.now }
{
    bytes.eq_ignore_ascii_case(text.as_bytes())
}

// The sign that is spelt like this in canonical text.
#[tactic(auto, unfolding(crate::specs::Symbol::canonical_sign))]
fn canonical_sign(bytes: &[u8]) -> Option<Symbol>
    ensures { result ≡ canonical_sign bytes.now }
{
    SIGNS
        .iter()
        .copied()
        .find(|sign| bytes == sign.spelling().as_bytes())
}
