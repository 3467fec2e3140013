//! Readers of what stands between the parentheses of a table.
ghost use Rattle.std.specs.Prelude.{◌≡◌};
ghost use Rattle.pm_grammar.specs.Outcome.{Gives};
ghost use Rattle.pm_schema.specs.Terminals.{stands, scale_of, references_word};
ghost use Rattle.pm_schema.specs.Reading.{num_at, kind_at, nullable_at, column_at, names_at, name_list_at, clause_names_at, reference_at, more_references_at, more_columns_at, references_at, clauses_at, body_at};

use crate::terminals::{SchemaTerminal, Word};
use crate::tree::{Body, ColumnText, ColumnTexts, ReferenceText, ReferenceTexts};
use pm_grammar::{
    Entry, PlacedName, PlacedNames, SynBad, Terminal, further, further_while, list, name, placed,
    strip_terminal, token,
};
use pm_lexer::{Symbol, Token};
use pm_values::{Kind, MOST_COLUMNS, MOST_KEY_COLUMNS, MOST_REFERENCES};
use std::alloc::Global;

// The number of decimals that a scale says.
fn scale(token: &Token) -> u8
    ensures { result ≡ scale_of token.now }
{
    match token.slice.bytes() {
        [] => 0,
        [digit, ..] => digit.saturating_sub(b'0'),
    }
}

// NUM "(" scale ")"
#[tactic(auto, unfolding(crate::specs::Reading::num_at))]
fn num(tokens: &[Token]) -> Result<(Kind, &[Token]), SynBad>
    ensures { Gives (λ x. (x.0, x.1.now)) result (num_at tokens.now) }
{
    let (_, rest) = token(Word::Num, tokens)?;
    let (_, rest) = token(Symbol::Open, rest)?;
    let (digit, rest) = token(SchemaTerminal::Scale, rest)?;
    let (_, rest) = token(Symbol::Close, rest)?;
    Ok((Kind::Num(scale(digit)), rest))
}

// kind = INT | TEXT | NUM "(" scale ")"
#[tactic(auto, unfolding(crate::specs::Reading::kind_at))]
fn kind(tokens: &[Token]) -> Result<(Kind, &[Token]), SynBad>
    ensures { Gives (λ x. (x.0, x.1.now)) result (kind_at tokens.now) }
{
    if let Some(rest) = strip_terminal(Word::Int, tokens) {
        return Ok((Kind::Int, rest));
    }
    if let Some(rest) = strip_terminal(Word::Text, tokens) {
        return Ok((Kind::Text, rest));
    }
    num(tokens)
}

// [ NOT NULL ]: whether the column is nullable
#[tactic(auto, unfolding(crate::specs::Reading::nullable_at))]
fn nullable(tokens: &[Token]) -> Result<(bool, &[Token]), SynBad>
    ensures { Gives (λ x. (x.0, x.1.now)) result (nullable_at tokens.now) }
{
    if let Some(rest) = strip_terminal(Symbol::Not, tokens) {
        let (_, rest) = token(Symbol::Null, rest)?;
        return Ok((false, rest));
    }
    Ok((true, tokens))
}

// column = name kind [ NOT NULL ], with a name that this terminal accepts
#[tactic(auto, unfolding(crate::specs::Reading::column_at))]
fn column<T: Terminal>(
    alloc: Global,
    names: T,
    tokens: &[Token],
) -> Result<(ColumnText, &[Token]), SynBad>
    ensures { Gives (λ x. (x.0, x.1.now)) result (column_at (T.accepts names) tokens.now) }
{
    let (first, rest) = token(names, tokens)?;
    let (kind, rest) = kind(rest)?;
    let (nullable, rest) = nullable(rest)?;
    let name = placed(alloc, first)?;
    Ok((
        ColumnText {
            name,
            kind,
            nullable,
        },
        rest,
    ))
}

// A column after a comma.
struct NextColumn;

impl Entry for NextColumn {
    ghost use Rattle.pm_lexer.specs.declared.symbol.Symbol.TheVariants as symbol;
    ghost use Rattle.pm_lexer.specs.Symbol.{is};
    ghost use Rattle.pm_grammar.specs.Reading.{token_at};
    ghost use Rattle.pm_schema.specs.Reading.{column_at};

    type Value = ColumnText;

    ghost reads = { column_at (is symbol.Name) };

    ghost peeks = { token_at (is symbol.Name) };

    fn read(alloc: Global, tokens: &[Token]) -> Result<(ColumnText, &[Token]), SynBad> {
        column(alloc, Symbol::Name, tokens)
    }

    fn peek(tokens: &[Token]) -> Result<(&Token, &[Token]), SynBad> {
        token(Symbol::Name, tokens)
    }
}

// A name in a list.
struct ListedName;

impl Entry for ListedName {
    ghost use Rattle.pm_grammar.specs.Reading.{token_at, name_at};
    ghost use Rattle.pm_schema.specs.Terminals.{is_name};

    type Value = PlacedName;

    ghost reads = { name_at is_name };

    ghost peeks = { token_at is_name };

    fn read(alloc: Global, tokens: &[Token]) -> Result<(PlacedName, &[Token]), SynBad> {
        name(alloc, SchemaTerminal::Name, tokens)
    }

    fn peek(tokens: &[Token]) -> Result<(&Token, &[Token]), SynBad> {
        token(SchemaTerminal::Name, tokens)
    }
}

// name { "," name }
fn name_list(alloc: Global, tokens: &[Token]) -> Result<(PlacedNames, &[Token]), SynBad>
    ensures { Gives (λ x. (x.0, x.1.now)) result (name_list_at tokens.now) }
{
    list::<ListedName, Symbol>(alloc, Symbol::Comma, MOST_KEY_COLUMNS, tokens)
}

// list = "(" name { "," name } ")"
#[tactic(auto, unfolding(crate::specs::Reading::names_at))]
fn names(alloc: Global, tokens: &[Token]) -> Result<(PlacedNames, &[Token]), SynBad>
    ensures { Gives (λ x. (x.0, x.1.now)) result (names_at tokens.now) }
{
    let (_, rest) = token(Symbol::Open, tokens)?;
    let (names, rest) = name_list(alloc, rest)?;
    let (_, rest) = token(Symbol::Close, rest)?;
    Ok((names, rest))
}

// [ "," word list ]
#[tactic(auto, unfolding(pm_grammar::specs::Reading::clause_at))]
fn clause_names<T: Terminal>(
    alloc: Global,
    word: T,
    tokens: &[Token],
) -> Result<(Option<PlacedNames>, &[Token]), SynBad>
    ensures { Gives (λ x. (x.0, x.1.now)) result (clause_names_at (T.accepts word) tokens.now) }
{
    let Some(next) = strip_terminal(Symbol::Comma, tokens) else {
        return Ok((None, tokens));
    };
    let Some(rest) = strip_terminal(word, next) else {
        return Ok((None, tokens));
    };
    let (names, rest) = names(alloc, rest)?;
    Ok((Some(names), rest))
}

// reference = REFERENCES list TO name list, where this terminal stands for REFERENCES
#[tactic(auto, unfolding(crate::specs::Reading::reference_at))]
fn reference(
    alloc: Global,
    word: SchemaTerminal,
    tokens: &[Token],
) -> Result<(ReferenceText, &[Token]), SynBad>
    ensures { Gives (λ x. (x.0, x.1.now)) result (reference_at (stands word) tokens.now) }
{
    let (_, rest) = token(word, tokens)?;
    let (columns, rest) = names(alloc, rest)?;
    let (_, rest) = token(Word::To, rest)?;
    let (target, rest) = name(alloc, SchemaTerminal::Name, rest)?;
    let (keys, rest) = names(alloc, rest)?;
    Ok((
        ReferenceText {
            columns,
            target,
            keys,
        },
        rest,
    ))
}

// A reference after another.
struct NextReference;

impl Entry for NextReference {
    ghost use Rattle.pm_grammar.specs.Reading.{token_at};
    ghost use Rattle.pm_schema.specs.Terminals.{is_references};
    ghost use Rattle.pm_schema.specs.Reading.{reference_at};

    type Value = ReferenceText;

    ghost reads = { reference_at is_references };

    ghost peeks = { token_at is_references };

    fn read(alloc: Global, tokens: &[Token]) -> Result<(ReferenceText, &[Token]), SynBad> {
        reference(alloc, SchemaTerminal::References, tokens)
    }

    fn peek(tokens: &[Token]) -> Result<(&Token, &[Token]), SynBad> {
        token(SchemaTerminal::References, tokens)
    }
}

// Further references.
fn more_references(
    alloc: Global,
    references: ReferenceTexts,
    rest: &[Token],
) -> Result<(ReferenceTexts, &[Token]), SynBad>
    ensures { Gives (λ x. (x.0, x.1.now)) result (more_references_at references rest.now) }
{
    further::<NextReference, Symbol>(alloc, Symbol::Comma, MOST_REFERENCES, references, rest)
}

// { "," reference }, where this terminal stands for the first REFERENCES
#[tactic(auto, unfolding(crate::specs::Reading::references_at))]
fn references(
    alloc: Global,
    word: SchemaTerminal,
    tokens: &[Token],
) -> Result<(ReferenceTexts, &[Token]), SynBad>
    ensures { Gives (λ x. (x.0, x.1.now)) result (references_at (stands word) tokens.now) }
{
    let mut references = ReferenceTexts::new(alloc);
    let Some(next) = strip_terminal(Symbol::Comma, tokens) else {
        return Ok((references, tokens));
    };
    let (first, rest) = reference(alloc, word, next)?;
    references.push(first)?;
    more_references(alloc, references, rest)
}

// [ "," KEY list ] [ "," ORDER list ] { "," reference }, after the columns
#[tactic(auto, unfolding(crate::specs::Reading::clauses_at))]
fn clauses(
    alloc: Global,
    columns: ColumnTexts,
    tokens: &[Token],
) -> Result<(Body, &[Token]), SynBad>
    ensures { Gives (λ x. (x.0, x.1.now)) result (clauses_at columns tokens.now) }
{
    let (key, rest) = clause_names(alloc, SchemaTerminal::Clause(Word::Key), tokens)?;
    let (order, rest) = clause_names(alloc, Symbol::Order, rest)?;
    let word = references_word(key.is_some() || order.is_some());
    let (references, rest) = references(alloc, word, rest)?;
    Ok((
        Body {
            columns,
            key,
            order,
            references,
        },
        rest,
    ))
}

// What stands for the first REFERENCES: after a list of KEY or ORDER the word, and else the word before a parenthesis.
fn references_word(after_list: bool) -> SchemaTerminal
    ensures { stands result ≡ references_word after_list }
{
    if after_list {
        SchemaTerminal::References
    } else {
        SchemaTerminal::Clause(Word::References)
    }
}

// Further columns.
fn more_columns(
    alloc: Global,
    columns: ColumnTexts,
    rest: &[Token],
) -> Result<(ColumnTexts, &[Token]), SynBad>
    ensures { Gives (λ x. (x.0, x.1.now)) result (more_columns_at columns rest.now) }
{
    further_while::<NextColumn, Symbol, Symbol>(
        alloc,
        Symbol::Comma,
        Symbol::Name,
        MOST_COLUMNS,
        columns,
        rest,
    )
}

// body = column { "," column } [ "," KEY list ] [ "," ORDER list ] { "," reference }
#[tactic(auto, unfolding(crate::specs::Reading::body_at))]
pub(crate) fn body(alloc: Global, tokens: &[Token]) -> Result<(Body, &[Token]), SynBad>
    ensures { Gives (λ x. (x.0, x.1.now)) result (body_at tokens.now) }
{
    let mut columns = ColumnTexts::new(alloc);
    let (first, rest) = column(alloc, SchemaTerminal::Name, tokens)?;
    columns.push(first)?;
    let (columns, rest) = more_columns(alloc, columns, rest)?;
    clauses(alloc, columns, rest)
}
