//! The conditions that all have to be true.
ghost use Rattle.std.specs.Prelude.{◌≡◌, ◌++◌, ◌<◌, ◌≤◌, ◌^◌, length, [], ◌∷◌, IfOk, OnOk};
ghost use Rattle.std.specs.List.{flat_map};
ghost use Rattle.pm_names.specs.Sources.{known_columns};
ghost use Rattle.pm_names.specs.Conditions.{whole_row, cond_of};
ghost use Rattle.pm_binder.specs.Conjuncts.{test_conjuncts, conjuncts_if, on_conjuncts, conjuncts};

use pm_names::{KnownColumn, condition, known_at, whole_row};
use pm_query::{Conjunct, Conjuncts};
use pm_syntax::{Source, Test};
use pm_values::TableDecl;
use std::alloc::{AllocError, Global};

// Puts a condition at the end as one conjunct.
fn push_one(
    alloc: Global,
    conjuncts: &mut Conjuncts,
    known: &[KnownColumn],
    on: Option<u32>,
    test: &Test,
) -> Result<(), AllocError>
    requires { length known.now < 2 ^ 32 }
    ensures { OnOk result (conjuncts.new ≡ conjuncts.old ++ record { on = on; cond = cond_of known.now whole_row test.now } ∷ []) }
{
    let cond = condition(alloc, known, &whole_row(alloc), test)?;
    conjuncts.push(Conjunct { on, cond })
}

#[cycle(push_test)]
fn push_members(
    alloc: Global,
    conjuncts: &mut Conjuncts,
    known: &[KnownColumn],
    on: Option<u32>,
    members: &[Test],
) -> Result<(), AllocError>
    requires { length known.now < 2 ^ 32 }
    ensures { OnOk result (conjuncts.new ≡ conjuncts.old ++ flat_map (test_conjuncts known.now on) members.now) }
{
    'members: for member in members {
        push_test(alloc, conjuncts, known, on, member)?;
    }
    Ok(())
}

// Puts the members of a condition at the end, with AND lists taken apart at all levels.
#[tactic(auto, using(crate::proofs::Splits::one_any, crate::proofs::Splits::one_not, crate::proofs::Splits::all_conjuncts))]
#[cycle(push_test)]
fn push_test(
    alloc: Global,
    conjuncts: &mut Conjuncts,
    known: &[KnownColumn],
    on: Option<u32>,
    test: &Test,
) -> Result<(), AllocError>
    requires { length known.now < 2 ^ 32 }
    ensures { OnOk result (conjuncts.new ≡ conjuncts.old ++ test_conjuncts known.now on test.now) }
{
    match test {
        Test::All(members) => push_members(alloc, conjuncts, known, on, members.as_slice()),
        Test::Any(_) => push_one(alloc, conjuncts, known, on, test),
        Test::Not(_) => push_one(alloc, conjuncts, known, on, test),
        Test::Compare { .. } => push_one(alloc, conjuncts, known, on, test),
        Test::IsNull { .. } => push_one(alloc, conjuncts, known, on, test),
        Test::OneOf { .. } => push_one(alloc, conjuncts, known, on, test),
        Test::Between { .. } => push_one(alloc, conjuncts, known, on, test),
    }
}

// The same of a condition that may be left out.
fn push_if(
    alloc: Global,
    conjuncts: &mut Conjuncts,
    known: &[KnownColumn],
    on: Option<u32>,
    test: &Option<Test>,
) -> Result<(), AllocError>
    requires { length known.now < 2 ^ 32 }
    ensures { OnOk result (conjuncts.new ≡ conjuncts.old ++ conjuncts_if known.now on test.now) }
{
    match test {
        None => Ok(()),
        Some(test) => push_test(alloc, conjuncts, known, on, test),
    }
}

// Puts the members of the ON of the source at this position at the end.
fn push_on(
    alloc: Global,
    conjuncts: &mut Conjuncts,
    schema: &[TableDecl],
    sources: &[Source],
    known: &[KnownColumn],
    i: usize,
    source: &Source,
) -> Result<(), AllocError>
    requires few { length sources.now ≤ 8 }
    requires within { i < length sources.now }
    requires known { known.now ≡ known_columns schema.now sources.now }
    requires narrow { length known.now < 2 ^ 32 }
    ensures { OnOk result (conjuncts.new ≡ conjuncts.old ++ on_conjuncts schema.now sources.now i source.now) }
{
    let known = known_at(schema, sources, known, i);
    push_if(alloc, conjuncts, known, Some(i as u32), &source.on)
}

/// The conjuncts of the ONs and of WHERE, in the order of the text.
pub(crate) fn conjuncts(
    alloc: Global,
    schema: &[TableDecl],
    sources: &[Source],
    known: &[KnownColumn],
    filter: &Option<Test>,
) -> Result<Conjuncts, AllocError>
    requires few { length sources.now ≤ 8 }
    requires known { known.now ≡ known_columns schema.now sources.now }
    requires narrow { length known.now < 2 ^ 32 }
    ensures { IfOk result (λ made. made ≡ conjuncts schema.now sources.now filter.now) }
{
    let mut conjuncts = Conjuncts::new(alloc);
    'sources: for (i, source) in sources.iter().enumerate() {
        push_on(alloc, &mut conjuncts, schema, sources, known, i, source)?;
    }
    push_if(alloc, &mut conjuncts, known, None, filter)?;
    Ok(conjuncts)
}
