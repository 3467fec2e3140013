//! Terminals of the grammar that are more than one symbol, and what single tokens stand for.
ghost use Rattle.std.specs.Prelude.{◌≡◌};
ghost use Rattle.std.specs.Str.{str_eq_ignore_ascii_case};
ghost use Rattle.pm_syntax.specs.Terminals.{func_named, func_of, comparison_of};

use crate::tree::Func;
use pm_grammar::Terminal;
use pm_lexer::{Symbol, Token, TokenKind};
use pm_values::Comparison;

/// A sign of a comparison.
#[derive(Clone, Copy)]
pub(crate) struct ComparisonSign;

impl Terminal for ComparisonSign {
    ghost use Rattle.pm_syntax.specs.Terminals.{compares};

    ghost accepts = { λ _. compares };

    fn accepts(self, token: &Token) -> bool {
        comparison(token).is_some()
    }
}

/// A token that begins a literal.
#[derive(Clone, Copy)]
pub(crate) struct LiteralStart;

impl Terminal for LiteralStart {
    ghost use Rattle.pm_syntax.specs.Terminals.{begins_literal};

    ghost accepts = { λ _. begins_literal };

    fn accepts(self, token: &Token) -> bool {
        Symbol::Minus.accepts(token)
            || Symbol::Text.accepts(token)
            || Symbol::Null.accepts(token)
            || Symbol::Number.accepts(token)
    }
}

/// A token that begins a test.
#[derive(Clone, Copy)]
pub(crate) struct TestStart;

impl Terminal for TestStart {
    ghost use Rattle.pm_syntax.specs.Terminals.{begins_test};

    ghost accepts = { λ _. begins_test };

    fn accepts(self, token: &Token) -> bool {
        Symbol::Name.accepts(token) || LiteralStart.accepts(token)
    }
}

/// A token that begins a part of a condition one level deeper: NOT or an open parenthesis.
#[derive(Clone, Copy)]
pub(crate) struct Opening;

impl Terminal for Opening {
    ghost use Rattle.pm_syntax.specs.Terminals.{opens};

    ghost accepts = { λ _. opens };

    fn accepts(self, token: &Token) -> bool {
        Symbol::Not.accepts(token) || Symbol::Open.accepts(token)
    }
}

/// A token that begins what joins a further source.
#[derive(Clone, Copy)]
pub(crate) struct LinkStart;

impl Terminal for LinkStart {
    ghost use Rattle.pm_syntax.specs.Terminals.{begins_link};

    ghost accepts = { λ _. begins_link };

    fn accepts(self, token: &Token) -> bool {
        Symbol::Comma.accepts(token)
            || Symbol::Join.accepts(token)
            || Symbol::Inner.accepts(token)
            || Symbol::Left.accepts(token)
    }
}

// The function that a plain name names.
pub(crate) fn func(token: &Token) -> Option<Func>
    ensures { result ≡ func_of token.now }
{
    match token.kind {
        TokenKind::Name => func_named(token.slice.bytes()),
        _ => None,
    }
}

#[tactic(auto, unfolding(crate::specs::Terminals::func_named))]
fn func_named(word: &[u8]) -> Option<Func>
    ensures { result ≡ func_named word.now }
{
    if spells(word, "COUNT") {
        Some(Func::Count)
    } else if spells(word, "SUM") {
        Some(Func::Sum)
    } else if spells(word, "MIN") {
        Some(Func::Min)
    } else if spells(word, "MAX") {
        Some(Func::Max)
    } else {
        None
    }
}

// Whether the bytes are this text, with ASCII case put aside.
fn spells(bytes: &[u8], text: &str) -> bool
    ensures { result ≡ str_eq_ignore_ascii_case bytes.now text.now }
{
    bytes.eq_ignore_ascii_case(text.as_bytes())
}

// The comparison of a sign.
pub(crate) fn comparison(token: &Token) -> Option<Comparison>
    ensures { result ≡ comparison_of token.now }
{
    match Symbol::of(token) {
        Symbol::Equal => Some(Comparison::Equal),
        Symbol::Unequal => Some(Comparison::Unequal),
        Symbol::Less => Some(Comparison::Less),
        Symbol::AtMost => Some(Comparison::AtMost),
        Symbol::Greater => Some(Comparison::Greater),
        Symbol::AtLeast => Some(Comparison::AtLeast),
        _ => None,
    }
}
