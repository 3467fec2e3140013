//! Worked schemas.
ghost use Rattle.std.specs.Prelude.{Ok, Err, codes, [], ◌∷◌};
ghost use Rattle.pm_schema.specs.declared.fault.SchemaBad.TheVariants as bad;
ghost use Rattle.pm_schema.specs.Worked.{TextCallsFor, full_table, referring_table, target_table};

/// A table with a key, an order and a reference is declared, with columns by their numbers; a reference may name a later
/// table, and a column may be named REFERENCES; KEY stands before ORDER; a token with which no schema goes on is refused
/// before a breach of a rule; and each way in which a reference breaks a rule has its place.
pub fn texts_worked()
    ensures full { TextCallsFor (codes "TABLE t FROM 'f' (a INT NOT NULL, b NUM(2) NOT NULL, KEY (b, a), ORDER (b), REFERENCES (a, b) TO t (a, b));") (Ok (full_table ∷ [])) }
    ensures later { TextCallsFor (codes "TABLE s FROM 'f' (references INT NOT NULL, REFERENCES (references) TO t (a)); TABLE t FROM 'f' (a INT NOT NULL, KEY (a));") (Ok (referring_table ∷ target_table ∷ [])) }
    ensures order_first { TextCallsFor (codes "TABLE t FROM 'f' (a INT, ORDER (a), KEY (a));") (Err (bad.Expected 36)) }
    ensures double_and_open { TextCallsFor (codes "TABLE t FROM 'f' (a INT, a INT)") (Err (bad.Expected 31)) }
    ensures no_table { TextCallsFor (codes "TABLE t FROM 't.csv' (a INT NOT NULL, REFERENCES (a) TO u (a));") (Err (bad.RefTable 56)) }
    ensures no_column { TextCallsFor (codes "TABLE t FROM 'f' (a INT NOT NULL, KEY (a), REFERENCES (a) TO t (a, a));") (Err (bad.RefColumn 67)) }
    ensures nullable { TextCallsFor (codes "TABLE t FROM 'f' (a INT NOT NULL, b INT, KEY (a), REFERENCES (b) TO t (a));") (Err (bad.RefShape 68)) }
    ensures other_kind { TextCallsFor (codes "TABLE t FROM 'f' (a INT NOT NULL, b TEXT NOT NULL, KEY (a), REFERENCES (b) TO t (a));") (Err (bad.RefShape 78)) }
    ensures no_key { TextCallsFor (codes "TABLE t FROM 'f' (a INT NOT NULL, b INT NOT NULL, KEY (a), REFERENCES (a) TO t (b));") (Err (bad.RefShape 77)) }
{}
