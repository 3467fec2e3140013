//! Worked examples, each a clause of a function that does nothing.
ghost use Rattle.std.specs.Prelude.{Ok, Err, codes};
ghost use Rattle.pm_grammar.specs.declared.fault.SynBad.TheVariants as bad;
ghost use Rattle.pm_syntax.specs.Worked.{TextCallsFor, either_test, filtered};

/// AND binds more tightly than OR, and NOT IN is one test; a name after a table and its alias is refused, and so is
/// an aggregate in WHERE.
pub fn texts_worked()
    ensures either { TextCallsFor (codes "SELECT a FROM t WHERE a NOT IN (1) OR b = 2 AND c IS NULL") (Ok (filtered either_test)) }
    ensures third_name { TextCallsFor (codes "SELECT a FROM t x y") (Err (bad.Expected 18)) }
    ensures aggregate { TextCallsFor (codes "SELECT a FROM t WHERE MAX(a) = 1") (Err (bad.Expected 25)) }
{}
