//! Readers of tables.
ghost use Rattle.std.specs.Prelude.{◌≡◌, length};
ghost use Rattle.pm_grammar.specs.Outcome.{Gives};
ghost use Rattle.pm_grammar.specs.Reading.{whole};
ghost use Rattle.pm_schema.specs.Reading.{table_at, more_tables_at, schema_at};

use crate::bodies::body;
use crate::terminals::{SchemaTerminal, Word};
use crate::tree::{TableText, TableTexts};
use pm_grammar::{Series, SynBad, further_series, name, sees, token};
use pm_lexer::{Symbol, Token, content};
use std::alloc::Global;

/// At most so many tables stand in a schema.
pub const MOST_TABLES: usize = 64;

// table = TABLE name FROM text "(" body ")" ";"
#[tactic(auto, unfolding(crate::specs::Reading::table_at))]
fn table(alloc: Global, tokens: &[Token]) -> Result<(TableText, &[Token]), SynBad>
    ensures { Gives (λ x. (x.0, x.1.now)) result (table_at tokens.now) }
{
    let (_, rest) = token(Word::Table, tokens)?;
    let (name, rest) = name(alloc, SchemaTerminal::Name, rest)?;
    let (_, rest) = token(Symbol::From, rest)?;
    let (text, rest) = token(Symbol::Text, rest)?;
    let file = content(alloc, text)?;
    let (_, rest) = token(Symbol::Open, rest)?;
    let (body, rest) = body(alloc, rest)?;
    let (_, rest) = token(Symbol::Close, rest)?;
    let (_, rest) = token(Symbol::Semicolon, rest)?;
    Ok((TableText { name, file, body }, rest))
}

// A further table. Nothing stands between two tables.
struct NextTable;

impl Series for NextTable {
    ghost use Rattle.pm_grammar.specs.Reading.{token_at};
    ghost use Rattle.pm_schema.specs.declared.terminals.Word.TheVariants as word;
    ghost use Rattle.pm_schema.specs.Terminals.{is_word};
    ghost use Rattle.pm_schema.specs.Reading.{nothing_at, table_at};

    type Separator = ();

    type Value = TableText;

    ghost starts = { is_word word.Table };

    ghost separates = { nothing_at };

    ghost peeks = { token_at (is_word word.Table) };

    ghost reads = { λ _. table_at };

    fn starts(tokens: &[Token]) -> bool {
        sees(Word::Table, tokens)
    }

    fn separate(tokens: &[Token]) -> Result<((), &[Token]), SynBad> {
        Ok(((), tokens))
    }

    fn peek(tokens: &[Token]) -> Result<(&Token, &[Token]), SynBad> {
        token(Word::Table, tokens)
    }

    fn read(
        alloc: Global,
        _separator: (),
        tokens: &[Token],
    ) -> Result<(TableText, &[Token]), SynBad> {
        table(alloc, tokens)
    }
}

// Further tables.
fn more_tables(
    alloc: Global,
    tables: TableTexts,
    tokens: &[Token],
) -> Result<(TableTexts, &[Token]), SynBad>
    ensures { Gives (λ x. (x.0, x.1.now)) result (more_tables_at (length tokens.now) tables tokens.now) }
{
    further_series::<NextTable>(alloc, MOST_TABLES, tables, tokens)
}

// schema = table { table } end
#[tactic(auto, unfolding(crate::specs::Reading::schema_at))]
fn schema(alloc: Global, tokens: &[Token]) -> Result<(TableTexts, &[Token]), SynBad>
    ensures { Gives (λ x. (x.0, x.1.now)) result (schema_at tokens.now) }
{
    let mut tables = TableTexts::new(alloc);
    let (first, rest) = table(alloc, tokens)?;
    tables.push(first)?;
    let (tables, rest) = more_tables(alloc, tables, rest)?;
    let (_, rest) = token(Symbol::End, rest)?;
    Ok((tables, rest))
}

// The tables that the tokens declare, where nothing follows.
pub(crate) fn tables(alloc: Global, tokens: &[Token]) -> Result<TableTexts, SynBad>
    ensures { Gives (λ t. t) result (whole (schema_at tokens.now)) }
{
    let (tables, rest) = schema(alloc, tokens)?;
    match rest {
        [] => Ok(tables),
        [token, ..] => Err(SynBad::Expected(token.at)),
    }
}
