//! The bytes of a schema's and of a query's file to what they say, and a statement to its query.
ghost use Rattle.std.specs.Prelude.{◌≡◌, ◌≤◌, ◌^◌, ◌<◌, length, Ok, IfOk};
ghost use Rattle.pm_requests.specs.declared.texts.TextBad.TheVariants as bad;
ghost use Rattle.pm_requests.specs.Texts.{Gives, IsBad, TextGives, SchemaText, SelectText, QueryGives, lexing_fault, syntax_fault, schema_fault, binding_fault};

use pm_binder::bind;
use pm_lexer::{LexBad, Tokens, lex};
use pm_names::BindBad;
use pm_query::Query;
use pm_refusals::Word;
use pm_schema::{Schema, SchemaBad, read_schema};
use pm_syntax::{Select, SynBad, parse};
use pm_values::Txt;
use std::alloc::{AllocError, Global};

/// What is wrong with a text, and at which byte of it, from 0. A text that is too long has its limit in bytes there.
#[derive(Clone, Copy, Debug, PartialEq, Eq)]
pub struct Fault {
    pub word: Word,
    pub at: u64,
}

/// Why a text says nothing.
#[derive(Clone, Copy, Debug, PartialEq, Eq)]
pub(crate) enum TextBad {
    /// The text is at fault.
    Fault(Fault),
    /// There was no memory.
    Memory,
}

fn faulty(word: Word, at: u64) -> TextBad
    ensures { result ≡ TextBad.Fault (record { word = word; at = at }) }
{
    TextBad::Fault(Fault { word, at })
}

impl From<AllocError> for TextBad {
    ghost from_gives = { λ _ out. out ≡ bad.Memory };

    fn from(_error: AllocError) -> Self {
        TextBad::Memory
    }
}

impl From<LexBad> for TextBad {
    ghost from_gives = { λ e out. IsBad (lexing_fault e) out };

    fn from(error: LexBad) -> Self {
        match error {
            LexBad::BadChar(at) => faulty(Word::BadChar, at),
            LexBad::OpenText(at) => faulty(Word::OpenText, at),
            LexBad::LongNumber(at) => faulty(Word::LongNumber, at),
            LexBad::LongName(at) => faulty(Word::LongName, at),
            LexBad::Memory => TextBad::Memory,
        }
    }
}

impl From<SynBad> for TextBad {
    ghost from_gives = { λ e out. IsBad (syntax_fault e) out };

    fn from(error: SynBad) -> Self {
        match error {
            SynBad::Expected(at) => faulty(Word::Expected, at),
            SynBad::TooDeep(at) => faulty(Word::TooDeep, at),
            SynBad::TooMany(at) => faulty(Word::TooMany, at),
            SynBad::Memory => TextBad::Memory,
        }
    }
}

impl From<SchemaBad> for TextBad {
    ghost from_gives = { λ e out. IsBad (schema_fault e) out };

    fn from(error: SchemaBad) -> Self {
        match error {
            SchemaBad::Expected(at) => faulty(Word::Expected, at),
            SchemaBad::TooMany(at) => faulty(Word::TooMany, at),
            SchemaBad::DoubleTable(at) => faulty(Word::DoubleTable, at),
            SchemaBad::DoubleColumn(at) => faulty(Word::DoubleColumn, at),
            SchemaBad::KeyColumn(at) => faulty(Word::KeyColumn, at),
            SchemaBad::NullKey(at) => faulty(Word::NullKey, at),
            SchemaBad::RefTable(at) => faulty(Word::RefTable, at),
            SchemaBad::RefColumn(at) => faulty(Word::RefColumn, at),
            SchemaBad::RefShape(at) => faulty(Word::RefShape, at),
            SchemaBad::Memory => TextBad::Memory,
        }
    }
}

impl From<BindBad> for TextBad {
    ghost from_gives = { λ e out. IsBad (binding_fault e) out };

    fn from(error: BindBad) -> Self {
        match error {
            BindBad::NoTable(at) => faulty(Word::NoTable, at),
            BindBad::DoubleAlias(at) => faulty(Word::DoubleAlias, at),
            BindBad::TooManyTables(at) => faulty(Word::TooManyTables, at),
            BindBad::NoColumn(at) => faulty(Word::NoColumn, at),
            BindBad::TwoColumns(at) => faulty(Word::TwoColumns, at),
            BindBad::Kinds(at) => faulty(Word::Kinds, at),
            BindBad::NotGrouped(at) => faulty(Word::NotGrouped, at),
            BindBad::NotSelected(at) => faulty(Word::NotSelected, at),
            BindBad::NoJoinKey(at) => faulty(Word::NoJoinKey, at),
            BindBad::LeftOn(at) => faulty(Word::LeftOn, at),
            BindBad::Memory => TextBad::Memory,
        }
    }
}

/// The tokens of a text of these bytes.
fn tokens_of(alloc: Global, bytes: &[u8]) -> Result<Tokens, TextBad>
    ensures { Gives (TextGives bytes.now) result }
{
    match str::from_utf8(bytes) {
        Ok(text) => Ok(lex(alloc, &Txt::new(alloc, text)?)?),
        Err(error) => Err(faulty(Word::NotText, error.valid_up_to() as u64)),
    }
}

/// The schema that a text of these bytes declares.
pub(crate) fn schema_of(alloc: Global, bytes: &[u8]) -> Result<Schema, TextBad>
    ensures few { IfOk result (λ schema. length schema ≤ 64) }
    ensures called { Gives (SchemaText bytes.now) result }
{
    let tokens = tokens_of(alloc, bytes)?;
    Ok(read_schema(alloc, &tokens)?)
}

/// The statement that a text of these bytes is.
pub(crate) fn select_of(alloc: Global, bytes: &[u8]) -> Result<Select, TextBad>
    ensures { Gives (SelectText bytes.now) result }
{
    let tokens = tokens_of(alloc, bytes)?;
    Ok(parse(alloc, &tokens)?)
}

/// The query that a statement is bound to.
pub(crate) fn query_of(alloc: Global, select: &Select, schema: &Schema) -> Result<Query, TextBad>
    requires { length schema.now < 2 ^ 32 }
    ensures { Gives (QueryGives schema.now select.now) result }
{
    Ok(bind(alloc, select, schema)?)
}
