//! The words and the other terminals of the grammar of schemas.
ghost use Rattle.std.specs.Prelude.{◌≡◌};
ghost use Rattle.std.specs.Str.{str_eq_ignore_ascii_case};
ghost use Rattle.pm_schema.specs.Terminals.{word_of, word_named, clause_word_of, spells_scale, is_scale_digit, is_clause, is_found};

use pm_grammar::Terminal;
use pm_lexer::{Symbol, Token, TokenKind};

/// A word that is known by its position, in any case of its letters.
#[derive(Clone, Copy, Debug, PartialEq, Eq)]
pub enum Word {
    Table,
    Key,
    References,
    To,
    Int,
    Num,
    Text,
}

/// A terminal of the grammar that is no symbol and no word: a word that begins a clause, which it does before a
/// parenthesis; REFERENCES where no column may stand; any name; the digit of a scale.
#[derive(Clone, Copy, Debug, PartialEq, Eq)]
pub enum SchemaTerminal {
    Clause(Word),
    References,
    Name,
    Scale,
}

impl Terminal for Word {
    ghost use Rattle.pm_schema.specs.Terminals.{is_word};

    ghost accepts = { is_word };

    fn accepts(self, token: &Token) -> bool {
        is_found(self, plain_word(token))
    }
}

impl Terminal for SchemaTerminal {
    ghost use Rattle.pm_schema.specs.Terminals.{stands};

    ghost accepts = { stands };

    fn accepts(self, token: &Token) -> bool {
        match self {
            SchemaTerminal::Clause(word) => is_clause(word, token),
            SchemaTerminal::References => {
                is_clause(Word::References, token) || Word::References.accepts(token)
            }
            SchemaTerminal::Name => {
                Symbol::Name.accepts(token)
                    || is_clause(Word::Key, token)
                    || is_clause(Word::References, token)
            }
            SchemaTerminal::Scale => is_scale(token),
        }
    }
}

// The word that a plain name is.
fn plain_word(token: &Token) -> Option<Word>
    ensures { result ≡ word_of token.now }
{
    match token.kind {
        TokenKind::Name => word_named(token.slice.bytes()),
        _ => None,
    }
}

// The word that a reserved word is.
fn clause_word(token: &Token) -> Option<Word>
    ensures { result ≡ clause_word_of token.now }
{
    match token.kind {
        TokenKind::Reserved => word_named(token.slice.bytes()),
        _ => None,
    }
}

// Whether a token begins the clause of this word.
fn is_clause(word: Word, token: &Token) -> bool
    ensures { result ≡ is_clause word token.now }
{
    Symbol::Other.accepts(token) && is_found(word, clause_word(token))
}

// Whether this word was found.
#[tactic(auto, unfolding(crate::specs::Terminals::same_word))]
fn is_found(word: Word, found: Option<Word>) -> bool
    ensures { result ≡ is_found word found }
{
    match found {
        Some(found) => found == word,
        None => false,
    }
}

#[tactic(auto, unfolding(crate::specs::Terminals::word_named))]
fn word_named(slice: &[u8]) -> Option<Word>
    ensures { result ≡ word_named slice.now }
{
    if spells(slice, "TABLE") {
        Some(Word::Table)
    } else if spells(slice, "KEY") {
        Some(Word::Key)
    } else if spells(slice, "REFERENCES") {
        Some(Word::References)
    } else if spells(slice, "TO") {
        Some(Word::To)
    } else if spells(slice, "INT") {
        Some(Word::Int)
    } else if spells(slice, "NUM") {
        Some(Word::Num)
    } else if spells(slice, "TEXT") {
        Some(Word::Text)
    } else {
        None
    }
}

// Whether the bytes are this text, with ASCII case put aside.
fn spells(bytes: &[u8], text: &str) -> bool
    ensures { result ≡ str_eq_ignore_ascii_case bytes.now text.now }
{
    bytes.eq_ignore_ascii_case(text.as_bytes())
}

// Whether a token is one digit from 1 to 6.
fn is_scale(token: &Token) -> bool
    ensures { result ≡ spells_scale token.now.kind token.now.slice }
{
    match token.kind {
        TokenKind::Number => is_scale_digit(token.slice.bytes()),
        _ => false,
    }
}

fn is_scale_digit(slice: &[u8]) -> bool
    ensures { result ≡ is_scale_digit slice.now }
{
    match slice {
        [digit] => *digit >= b'1' && *digit <= b'6',
        _ => false,
    }
}
