//! Laws of the queries that statements are bound to, each the contract of a function that does nothing.
ghost use Rattle.std.specs.Prelude.{◌≡◌, ℕ, List, Ok};
ghost use Rattle.pm_lexer.specs.declared.token.Token.{Token};
ghost use Rattle.pm_lexer.specs.Tokens.{tokens_of};
ghost use Rattle.pm_syntax.specs.declared.tree.Select.{Select};
ghost use Rattle.pm_syntax.specs.Statement.{Reads};
ghost use Rattle.pm_values.specs.Table.{Declaration};
ghost use Rattle.pm_schema.specs.Meaning.{Declares};
ghost use Rattle.pm_query.specs.declared.query.Query.{Query};
ghost use Rattle.pm_query.specs.Bound.{IsBound};
ghost use Rattle.pm_binder.specs.Bound.{bound};
ghost use Rattle.pm_binder.specs.Laws.{IsFormed, AreTables, AsksForRowsOf};

/// A statement that a text is read as is formed.
pub fn readings_are_formed()
    ensures { (text : List ℕ) (tokens : List Token) (select : Select) → tokens_of text ≡ Ok tokens → Reads tokens select → IsFormed select }
{}

/// A schema that a text declares has tables such as `pm_query` asks for.
pub fn declared_are_tables()
    ensures { (tokens : List Token) (schema : List Declaration) → Declares tokens schema → AreTables schema }
{}

/// A query that a formed statement is bound to is such as `pm_query` asks for.
pub fn queries_are_bound()
    ensures { (select : Select) (schema : List Declaration) (found : Query) → IsFormed select → AreTables schema → bound select schema ≡ Ok found → IsBound found }
{}

/// The query that a formed statement is bound to asks for the rows that the statement asks for.
pub fn rows_are_answers()
    ensures { (select : Select) (schema : List Declaration) (found : Query) → IsFormed select → bound select schema ≡ Ok found → AsksForRowsOf select schema found }
{}
