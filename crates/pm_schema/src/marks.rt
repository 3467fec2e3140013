//! The tokens as the grammar sees them: KEY and REFERENCES are reserved words before a parenthesis.
ghost use Rattle.std.specs.Prelude.{◌≡◌, IfOk};
ghost use Rattle.pm_schema.specs.Terminals.{marked, marked_before};

use crate::terminals::Word;
use crate::walk::first;
use pm_grammar::{Terminal, sees};
use pm_lexer::{Symbol, Token, TokenKind, Tokens};
use std::alloc::{AllocError, Global};

// A token as the grammar sees it before these.
fn marked_before(alloc: Global, token: &Token, rest: &[Token]) -> Result<Token, AllocError>
    ensures { IfOk result (λ seen. seen ≡ marked_before rest.now token.now) }
{
    let word = Word::Key.accepts(token) || Word::References.accepts(token);
    let clause = word && sees(Symbol::Open, rest);
    let kind = if clause {
        TokenKind::Reserved
    } else {
        token.kind
    };
    let slice = token.slice.copy(alloc)?;
    let at = token.at;
    Ok(Token { kind, slice, at })
}

// The tokens as the grammar sees them.
pub(crate) fn marked(alloc: Global, tokens: &[Token]) -> Result<Tokens, AllocError>
    ensures { IfOk result (λ seen. seen ≡ marked tokens.now) }
{
    let mut seen = Tokens::new(alloc);
    let mut rest = tokens;
    'tokens: while let Some((token, after)) = first(rest) {
        let next = marked_before(alloc, token, after)?;
        seen.push(next)?;
        rest = after;
    }
    Ok(seen)
}
