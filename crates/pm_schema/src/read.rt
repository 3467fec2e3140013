//! The tables that the tokens of a text declare.
ghost use Rattle.pm_grammar.specs.Outcome.{Gives};
ghost use Rattle.pm_grammar.specs.Reading.{whole};
ghost use Rattle.pm_schema.specs.Terminals.{marked};
ghost use Rattle.pm_schema.specs.Reading.{schema_at};

use crate::marks::marked;
use crate::tables::tables;
use crate::tree::TableTexts;
use pm_grammar::SynBad;
use pm_lexer::Tokens;
use std::alloc::Global;

// The tables that the tokens declare, whatever rules they break.
pub(crate) fn read_tables(alloc: Global, tokens: &Tokens) -> Result<TableTexts, SynBad>
    ensures { Gives (λ t. t) result (whole (schema_at (marked tokens.now))) }
{
    let seen = marked(alloc, tokens.as_slice())?;
    tables(alloc, seen.as_slice())
}
