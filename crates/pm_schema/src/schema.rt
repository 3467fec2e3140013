//! What a schema text is answered.
ghost use Rattle.std.specs.Prelude.{◌≡◌, ◌≤◌, ◌⊎◌, List, length, Result, All, IfOk, IsErrOf};
ghost use Rattle.pm_lexer.specs.declared.token.Token.{Token};
ghost use Rattle.pm_values.specs.Table.{Declaration};
ghost use Rattle.pm_schema.specs.declared.fault.SchemaBad.{SchemaBad};
ghost use Rattle.pm_schema.specs.declared.fault.SchemaBad.TheVariants as bad;
ghost use Rattle.pm_schema.specs.References.{first_breach};
ghost use Rattle.pm_schema.specs.declared.tables.TheConstants.{MOST_TABLES};
ghost use Rattle.pm_schema.specs.Meaning.{IsNarrow, CallsFor, refusal, Judges};

use crate::declared::declared;
use crate::fault::SchemaBad;
use crate::read::read_tables;
use crate::references::first_breach;
use crate::rules::{Breach, Rule};
use crate::tree::TableText;
use pm_grammar::SynBad;
use pm_lexer::Tokens;
use pm_values::TableDecls;
use std::alloc::Global;

/// The tables that a schema text declares, in the order of the text.
pub type Schema = TableDecls;

// The refusal of a breach.
fn refusal(breach: Breach) -> SchemaBad
    ensures { result ≡ refusal breach }
{
    match breach.rule {
        Rule::DoubleTable => SchemaBad::DoubleTable(breach.at),
        Rule::DoubleColumn => SchemaBad::DoubleColumn(breach.at),
        Rule::KeyColumn => SchemaBad::KeyColumn(breach.at),
        Rule::NullKey => SchemaBad::NullKey(breach.at),
        Rule::RefTable => SchemaBad::RefTable(breach.at),
        Rule::RefColumn => SchemaBad::RefColumn(breach.at),
        Rule::RefShape => SchemaBad::RefShape(breach.at),
    }
}

// What the tables declare, where they keep the rules.
fn judged(alloc: Global, tables: &[TableText]) -> Result<Schema, SchemaBad>
    requires { All IsNarrow tables.now }
    ensures { Judges (first_breach tables.now) tables.now result }
{
    match first_breach(tables) {
        Some(breach) => Err(refusal(breach)),
        None => Ok(declared(alloc, tables)?),
    }
}

/// The schema that the tokens of a text declare.
///
/// The grammar is that of CREATE TABLE cut down: `TABLE name FROM 'file' (column, .., KEY (..), ORDER (..),
/// REFERENCES (..) TO name (..), ..);`, of at most 64 tables, 64 columns and 8 references in a table, and 8 names in a
/// list. A token that does not go on and an entry past a limit are refused first, over the whole text; then the first
/// breach of a rule by its place: a table's or a column's name that stands twice; a name in KEY or ORDER that is no
/// column or stands there twice; a nullable column in KEY; a reference to no table, of columns that are none, or whose
/// columns do not refer to the KEY of the table that it names.
pub fn read_schema(alloc: Global, tokens: &Tokens) -> Result<Schema, SchemaBad>
    ensures few { IfOk result (λ schema. length schema ≤ MOST_TABLES) }
    ensures answers { CallsFor tokens.now result ⊎ IsErrOf result bad.Memory }
    ensures only { (answer : Result (List Declaration) SchemaBad) → CallsFor tokens.now answer → (result ≡ answer) ⊎ IsErrOf result bad.Memory }
{
    match read_tables(alloc, tokens) {
        Ok(tables) => judged(alloc, tables.as_slice()),
        Err(SynBad::Expected(at)) => Err(SchemaBad::Expected(at)),
        Err(SynBad::TooMany(at)) => Err(SchemaBad::TooMany(at)),
        Err(SynBad::TooDeep(_)) => unreachable!(),
        Err(SynBad::Memory) => Err(SchemaBad::Memory),
    }
}
