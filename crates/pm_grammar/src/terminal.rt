//! Terminals: single tokens, and what comes next.
ghost use Rattle.std.specs.Prelude.{◌≡◌, true, false, drop, MatchOption};
ghost use Rattle.std.specs.Option.{option_copied};
ghost use Rattle.pm_grammar.specs.Reading.{sees, token_at, optional_at, place_of};
ghost use Rattle.pm_grammar.specs.Outcome.{Gives};

use crate::fault::SynBad;
use pm_lexer::{Symbol, Token};

/// A terminal of a grammar: a test of single tokens.
pub trait Terminal: Copy {
    ghost use Rattle.std.specs.Prelude.{◌≡◌, Bool};
    ghost use Rattle.pm_lexer.specs.declared.token.Token.{Token};

    /// Whether a token is this terminal.
    ghost accepts: { Self → Token → Bool };

    /// Whether a token is this terminal.
    fn accepts(self, token: &Token) -> bool
        ensures { result ≡ accepts self token.now };
}

impl Terminal for Symbol {
    ghost use Rattle.pm_lexer.specs.Symbol.{is};

    ghost accepts = { is };

    #[tactic(auto, unfolding(pm_lexer::specs::Symbol::same_symbol))]
    fn accepts(self, token: &Token) -> bool {
        Symbol::of(token) == self
    }
}

/// The place where the tokens go on; 0 where none is left.
pub fn place(tokens: &[Token]) -> u64
    ensures { result ≡ place_of tokens.now }
{
    match tokens {
        [] => 0,
        [token, ..] => token.at,
    }
}

/// Whether this terminal comes next.
pub fn sees<T: Terminal>(terminal: T, tokens: &[Token]) -> bool
    ensures { result ≡ sees (T.accepts terminal) tokens.now }
{
    match tokens {
        [] => false,
        [token, ..] => terminal.accepts(token),
    }
}

/// What follows this terminal, if it comes next.
pub fn strip_terminal<T: Terminal>(terminal: T, tokens: &[Token]) -> Option<&[Token]>
    ensures { MatchOption result (sees (T.accepts terminal) tokens.now ≡ false) (λ rest. (sees (T.accepts terminal) tokens.now ≡ true) × (rest.now ≡ drop 1 tokens.now)) }
{
    match tokens {
        [token, rest @ ..] if terminal.accepts(token) => Some(rest),
        _ => None,
    }
}

/// The token of this terminal, and what follows it; else `Expected` at the place where the tokens go on.
pub fn token<T: Terminal>(terminal: T, tokens: &[Token]) -> Result<(&Token, &[Token]), SynBad>
    ensures { Gives (λ x. (x.0.now, x.1.now)) result (token_at (T.accepts terminal) tokens.now) }
{
    match tokens {
        [] => Err(SynBad::Expected(0)),
        [token, rest @ ..] => {
            if terminal.accepts(token) {
                Ok((token, rest))
            } else {
                Err(SynBad::Expected(token.at))
            }
        }
    }
}

/// The token of this terminal, if it comes next, and what follows.
pub fn optional<T: Terminal>(terminal: T, tokens: &[Token]) -> (Option<&Token>, &[Token])
    ensures { (option_copied result.0, result.1.now) ≡ optional_at (T.accepts terminal) tokens.now }
{
    match tokens {
        [token, rest @ ..] if terminal.accepts(token) => (Some(token), rest),
        _ => (None, tokens),
    }
}
