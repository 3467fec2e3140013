//! Laws of schemas.
ghost use Rattle.std.specs.Prelude.{◌≡◌, List, Result};
ghost use Rattle.pm_lexer.specs.declared.token.Token.{Token};
ghost use Rattle.pm_values.specs.Table.{Declaration};
ghost use Rattle.pm_schema.specs.declared.fault.SchemaBad.{SchemaBad};
ghost use Rattle.pm_schema.specs.Meaning.{CallsFor};

/// Tokens call for one answer of `read_schema`: for a schema or for one refusal at one place.
#[tactic(auto, using(crate::proofs::Called::some_answer, crate::proofs::Called::one_answer))]
pub fn answers_once()
    ensures some { (tokens : List Token) → (answer : Result (List Declaration) SchemaBad) × CallsFor tokens answer }
    ensures one { (tokens : List Token) (a b : Result (List Declaration) SchemaBad) → CallsFor tokens a → CallsFor tokens b → a ≡ b }
{}
