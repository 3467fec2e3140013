//! Names with their places.
ghost use Rattle.std.specs.Prelude.{◌≡◌, IfOk, IfErr};
ghost use Rattle.pm_grammar.specs.Reading.{named, name_at};
ghost use Rattle.pm_grammar.specs.Outcome.{Gives};

use crate::fault::SynBad;
use crate::terminal::{Terminal, token};
use pm_lexer::{Token, content};
use pm_values::{Items, Txt};
use std::alloc::Global;

/// A name without its outer quotes, each doubled quote once, and its place, a byte offset from 0.
#[derive(Debug, Drop)]
pub struct PlacedName {
    pub text: Txt,
    pub at: u64,
}

/// A list of names.
pub type PlacedNames = Items<PlacedName>;

/// The name of a name's token, and its place.
pub fn placed(alloc: Global, token: &Token) -> Result<PlacedName, SynBad>
    ensures ok { IfOk result (λ name. name ≡ named token.now) }
    ensures err { IfErr result (λ e. e ≡ SynBad.Memory) }
{
    let text = content(alloc, token)?;
    let at = token.at;
    Ok(PlacedName { text, at })
}

/// The name that comes next, where this terminal does, and what follows.
#[tactic(auto, unfolding(crate::specs::Reading::name_at))]
pub fn name<T: Terminal>(
    alloc: Global,
    terminal: T,
    tokens: &[Token],
) -> Result<(PlacedName, &[Token]), SynBad>
    ensures { Gives (λ x. (x.0, x.1.now)) result (name_at (T.accepts terminal) tokens.now) }
{
    let (first, rest) = token(terminal, tokens)?;
    let name = placed(alloc, first)?;
    Ok((name, rest))
}
