//! Conditions: whether their names mean columns and their kinds fit, and what they are with their names resolved.
ghost use Rattle.std.specs.Prelude.{◌≡◌, ◌++◌, ◌≤◌, ◌<◌, ◌+◌, ◌^◌, length, map, nat_eq, IfOk, OnOk};
ghost use Rattle.std.specs.List.{flat_map, position, position_or_len};
ghost use Rattle.pm_plan.specs.Kinds.{scale_of};
ghost use Rattle.pm_query.specs.Bound.{same_aggregate};
ghost use Rattle.pm_names.specs.Breaches.{verdict};
ghost use Rattle.pm_names.specs.Names.{placed_term};
ghost use Rattle.pm_names.specs.Kinds.{test_breaches};
ghost use Rattle.pm_names.specs.Conditions.{whole_row, position_in, literal_operand, operand_of, compared_atoms, equals_literal, between_ends, negated_if, cond_of, atom_exprs, exprs_of};

use crate::fault::BindBad;
use crate::kinds::{check_atom, check_between, check_compare, check_one_of};
use crate::names::{placed_term, term_kind, term_of};
use crate::terms::{KnownColumn, PlacedTerms, RowShape, Term};
use pm_plan::{Aggregate, Aggregates};
use pm_syntax::{Atom, Literal, Test};
use pm_values::{Columns, Comparison, Cond, Conds, Kind, Operand, Value};
use sqlite_items::Boxed;
use std::alloc::{AllocError, Global};

#[cycle(check_test)]
fn check_members(known: &[KnownColumn], members: &[Test]) -> Result<(), BindBad>
    requires { length known.now < 2 ^ 32 }
    ensures { result ≡ verdict (flat_map (λ m. m) (map (test_breaches known.now) members.now)) }
{
    'members: for member in members {
        check_test(known, member)?;
    }
    Ok(())
}

/// Whether the names of a condition mean known columns, and its kinds fit.
#[cycle(check_test)]
pub fn check_test(known: &[KnownColumn], test: &Test) -> Result<(), BindBad>
    requires { length known.now < 2 ^ 32 }
    ensures { result ≡ verdict (test_breaches known.now test.now) }
{
    match test {
        Test::Any(members) => check_members(known, members.as_slice()),
        Test::All(members) => check_members(known, members.as_slice()),
        Test::Not(part) => check_test(known, part.get()),
        Test::Compare {
            left,
            right,
            at,
            ..
        } => check_compare(known, left, right, *at),
        Test::IsNull { of, .. } => check_atom(known, of),
        Test::OneOf { of, list, at, .. } => check_one_of(known, of, list, *at),
        Test::Between {
            of,
            low,
            high,
            at,
            ..
        } => check_between(known, of, low, high, *at),
    }
}

/// The row of all columns of all sources.
pub fn whole_row(alloc: Global) -> RowShape
    ensures { result ≡ whole_row }
{
    RowShape {
        grouped: false,
        keys: Columns::new(alloc),
        calls: Aggregates::new(alloc),
    }
}

/// Whether the aggregates are the same.
pub fn same_aggregate(a: Aggregate, b: Aggregate) -> bool
    ensures { result ≡ same_aggregate a b }
{
    match (a, b) {
        (Aggregate::CountAll, Aggregate::CountAll) => true,
        (Aggregate::Count(a), Aggregate::Count(b)) => a == b,
        (Aggregate::Sum(a), Aggregate::Sum(b)) => a == b,
        (Aggregate::Min(a), Aggregate::Min(b)) => a == b,
        (Aggregate::Max(a), Aggregate::Max(b)) => a == b,
        _ => false,
    }
}

fn key_of(keys: &[u32], column: u32) -> Option<usize>
    ensures { result ≡ position (nat_eq column) keys.now }
{
    keys.iter().position(|key| column == *key)
}

#[tactic(auto, using(crate::proofs::Positions::position_is, crate::proofs::Positions::position_within))]
fn key_position(keys: &[u32], column: u32) -> u32
    requires { length keys.now < 2 ^ 32 }
    ensures { result ≡ position_or_len (nat_eq column) keys.now }
{
    let at = key_of(keys, column).unwrap_or(keys.len());
    at as u32
}

fn call_of(calls: &[Aggregate], call: Aggregate) -> Option<usize>
    ensures { result ≡ position (same_aggregate call) calls.now }
{
    calls.iter().position(|other| same_aggregate(call, *other))
}

#[tactic(auto, using(crate::proofs::Positions::position_is, crate::proofs::Positions::position_within))]
fn call_position(calls: &[Aggregate], call: Aggregate) -> usize
    ensures value { result ≡ position_or_len (same_aggregate call) calls.now }
    ensures within { result ≤ length calls.now }
{
    call_of(calls, call).unwrap_or(calls.len())
}

/// The position in the row of what an expression means.
pub fn position_in(shape: &RowShape, term: Term) -> u32
    requires { length shape.now.keys + length shape.now.calls < 2 ^ 32 }
    ensures { result ≡ position_in shape.now term }
{
    match term {
        Term::Column(column) => {
            if shape.grouped {
                key_position(shape.keys.as_slice(), column)
            } else {
                column
            }
        }
        Term::Call(call) => {
            let at = shape.keys.len() + call_position(shape.calls.as_slice(), call);
            at as u32
        }
    }
}

fn scale_of(kind: Kind) -> u8
    ensures { result ≡ scale_of kind }
{
    match kind {
        Kind::Num(scale) => scale,
        Kind::Int | Kind::Text => 0,
    }
}

fn literal_operand(alloc: Global, literal: &Literal) -> Result<Operand, AllocError>
    ensures { IfOk result (λ made. made ≡ literal_operand literal.now) }
{
    match literal {
        Literal::Null => Ok(Operand::Literal {
            value: Value::Null,
            scale: 0,
        }),
        Literal::Number { value, decimals } => Ok(Operand::Literal {
            value: Value::Int(*value),
            scale: *decimals,
        }),
        Literal::Text(text) => Ok(Operand::Literal {
            value: Value::Text(text.copy(alloc)?),
            scale: 0,
        }),
    }
}

fn operand_of(
    alloc: Global,
    known: &[KnownColumn],
    shape: &RowShape,
    atom: &Atom,
) -> Result<Operand, AllocError>
    requires known { length known.now < 2 ^ 32 }
    requires shape { length shape.now.keys + length shape.now.calls < 2 ^ 32 }
    ensures { IfOk result (λ made. made ≡ operand_of known.now shape.now atom.now) }
{
    match atom {
        Atom::Expr(expr) => {
            let term = term_of(known, expr);
            let at = position_in(shape, term);
            let scale = scale_of(term_kind(known, term));
            Ok(Operand::Column { at, scale })
        }
        Atom::Literal(literal) => literal_operand(alloc, literal),
    }
}

fn negated_if(alloc: Global, negated: bool, cond: Cond) -> Result<Cond, AllocError>
    ensures { IfOk result (λ made. made ≡ negated_if negated cond) }
{
    if negated {
        return Ok(Cond::Not(Boxed::new(alloc, cond)?));
    }
    Ok(cond)
}

fn comparison(
    alloc: Global,
    known: &[KnownColumn],
    shape: &RowShape,
    how: Comparison,
    left: &Atom,
    right: &Atom,
) -> Result<Cond, AllocError>
    requires known { length known.now < 2 ^ 32 }
    requires shape { length shape.now.keys + length shape.now.calls < 2 ^ 32 }
    ensures { IfOk result (λ made. made ≡ compared_atoms known.now shape.now how left.now right.now) }
{
    let left = operand_of(alloc, known, shape, left)?;
    let right = operand_of(alloc, known, shape, right)?;
    Ok(Cond::Compare { how, left, right })
}

// An operand equals a literal.
fn equals(
    alloc: Global,
    known: &[KnownColumn],
    shape: &RowShape,
    of: &Atom,
    literal: &Literal,
) -> Result<Cond, AllocError>
    requires known { length known.now < 2 ^ 32 }
    requires shape { length shape.now.keys + length shape.now.calls < 2 ^ 32 }
    ensures { IfOk result (λ made. made ≡ equals_literal known.now shape.now of.now literal.now) }
{
    let left = operand_of(alloc, known, shape, of)?;
    let right = literal_operand(alloc, literal)?;
    let how = Comparison::Equal;
    Ok(Cond::Compare { how, left, right })
}

// An operand equals one of the literals.
fn one_of(
    alloc: Global,
    known: &[KnownColumn],
    shape: &RowShape,
    of: &Atom,
    literals: &[Literal],
) -> Result<Conds, AllocError>
    requires known { length known.now < 2 ^ 32 }
    requires shape { length shape.now.keys + length shape.now.calls < 2 ^ 32 }
    ensures { IfOk result (λ made. made ≡ map (equals_literal known.now shape.now of.now) literals.now) }
{
    let mut conds = Conds::new(alloc);
    for literal in literals {
        let cond = equals(alloc, known, shape, of, literal)?;
        conds.push(cond)?;
    }
    Ok(conds)
}

fn between(
    alloc: Global,
    known: &[KnownColumn],
    shape: &RowShape,
    of: &Atom,
    low: &Atom,
    high: &Atom,
) -> Result<Cond, AllocError>
    requires known { length known.now < 2 ^ 32 }
    requires shape { length shape.now.keys + length shape.now.calls < 2 ^ 32 }
    ensures { IfOk result (λ made. made ≡ between_ends known.now shape.now of.now low.now high.now) }
{
    let mut ends = Conds::new(alloc);
    ends.push(comparison(alloc, known, shape, Comparison::AtLeast, of, low)?)?;
    ends.push(comparison(alloc, known, shape, Comparison::AtMost, of, high)?)?;
    Ok(Cond::All(ends))
}

#[cycle(condition)]
fn conditions(
    alloc: Global,
    known: &[KnownColumn],
    shape: &RowShape,
    tests: &[Test],
) -> Result<Conds, AllocError>
    requires known { length known.now < 2 ^ 32 }
    requires shape { length shape.now.keys + length shape.now.calls < 2 ^ 32 }
    ensures { IfOk result (λ made. made ≡ map (cond_of known.now shape.now) tests.now) }
{
    let mut conds = Conds::new(alloc);
    'tests: for test in tests {
        let cond = condition(alloc, known, shape, test)?;
        conds.push(cond)?;
    }
    Ok(conds)
}

/// The condition with its names resolved, on a row of this shape.
#[cycle(condition)]
pub fn condition(
    alloc: Global,
    known: &[KnownColumn],
    shape: &RowShape,
    test: &Test,
) -> Result<Cond, AllocError>
    requires known { length known.now < 2 ^ 32 }
    requires shape { length shape.now.keys + length shape.now.calls < 2 ^ 32 }
    ensures { IfOk result (λ made. made ≡ cond_of known.now shape.now test.now) }
{
    match test {
        Test::Any(members) => Ok(Cond::Any(conditions(alloc, known, shape, members.as_slice())?)),
        Test::All(members) => Ok(Cond::All(conditions(alloc, known, shape, members.as_slice())?)),
        Test::Not(part) => {
            let cond = condition(alloc, known, shape, part.get())?;
            Ok(Cond::Not(Boxed::new(alloc, cond)?))
        }
        Test::Compare {
            how,
            left,
            right,
            ..
        } => comparison(alloc, known, shape, *how, left, right),
        Test::IsNull { of, negated } => {
            let of = operand_of(alloc, known, shape, of)?;
            negated_if(alloc, *negated, Cond::IsNull(of))
        }
        Test::OneOf {
            of,
            list,
            negated,
            ..
        } => {
            let conds = one_of(alloc, known, shape, of, list.as_slice())?;
            negated_if(alloc, *negated, Cond::Any(conds))
        }
        Test::Between {
            of,
            low,
            high,
            negated,
            ..
        } => {
            let cond = between(alloc, known, shape, of, low, high)?;
            negated_if(alloc, *negated, cond)
        }
    }
}

// Puts what an operand's expression means at the end.
fn push_atom(terms: &mut PlacedTerms, known: &[KnownColumn], atom: &Atom) -> Result<(), AllocError>
    requires { length known.now < 2 ^ 32 }
    ensures { OnOk result (terms.new ≡ terms.old ++ map (placed_term known.now) (atom_exprs atom.now)) }
{
    match atom {
        Atom::Expr(expr) => terms.push(placed_term(known, expr)),
        Atom::Literal(_) => Ok(()),
    }
}

#[cycle(push_terms)]
fn push_members(
    terms: &mut PlacedTerms,
    known: &[KnownColumn],
    members: &[Test],
) -> Result<(), AllocError>
    requires { length known.now < 2 ^ 32 }
    ensures { OnOk result (terms.new ≡ terms.old ++ map (placed_term known.now) (flat_map (λ m. m) (map exprs_of members.now))) }
{
    'members: for member in members {
        push_terms(terms, known, member)?;
    }
    Ok(())
}

/// Puts what the expressions of a condition mean at the end, in the order of the text.
#[cycle(push_terms)]
pub fn push_terms(
    terms: &mut PlacedTerms,
    known: &[KnownColumn],
    test: &Test,
) -> Result<(), AllocError>
    requires { length known.now < 2 ^ 32 }
    ensures { OnOk result (terms.new ≡ terms.old ++ map (placed_term known.now) (exprs_of test.now)) }
{
    match test {
        Test::Any(members) => push_members(terms, known, members.as_slice()),
        Test::All(members) => push_members(terms, known, members.as_slice()),
        Test::Not(part) => push_terms(terms, known, part.get()),
        Test::Compare { left, right, .. } => {
            push_atom(terms, known, left)?;
            push_atom(terms, known, right)
        }
        Test::IsNull { of, .. } => push_atom(terms, known, of),
        Test::OneOf { of, .. } => push_atom(terms, known, of),
        Test::Between { of, low, high, .. } => {
            push_atom(terms, known, of)?;
            push_atom(terms, known, low)?;
            push_atom(terms, known, high)
        }
    }
}
