//! Whether the names of a test's operands mean columns, and their kinds fit.
ghost use Rattle.std.specs.Prelude.{◌≡◌, ◌<◌, ◌^◌, length};
ghost use Rattle.std.specs.List.{flat_map};
ghost use Rattle.pm_plan.specs.Kinds.{kinds_fit};
ghost use Rattle.pm_names.specs.Breaches.{verdict};
ghost use Rattle.pm_names.specs.Names.{is_sound};
ghost use Rattle.pm_syntax.specs.declared.tree.Atom.TheVariants as node;
ghost use Rattle.pm_names.specs.Kinds.{operand_class, literal_kind, atom_kind, atom_breaches, kind_breaches, compare_breaches, one_of_breaches, between_breaches};

use crate::fault::BindBad;
use crate::names::{check_expr, is_number, same_kind, term_kind, term_of};
use crate::terms::KnownColumn;
use pm_syntax::{Atom, Literal, Literals};
use pm_values::Kind;

/// What an operand is compared as.
#[derive(Clone, Copy, Debug)]
pub enum OperandClass {
    Column(Kind),
    Null,
    Number,
    Text,
}

fn literal_class(literal: &Literal) -> OperandClass
    ensures { operand_class result ≡ literal_kind literal.now }
{
    match literal {
        Literal::Null => OperandClass::Null,
        Literal::Number { .. } => OperandClass::Number,
        Literal::Text(_) => OperandClass::Text,
    }
}

fn atom_class(known: &[KnownColumn], atom: &Atom) -> OperandClass
    requires { length known.now < 2 ^ 32 }
    ensures { operand_class result ≡ atom_kind known.now atom.now }
{
    match atom {
        Atom::Expr(expr) => OperandClass::Column(term_kind(known, term_of(known, expr))),
        Atom::Literal(literal) => literal_class(literal),
    }
}

// Whether two operands can be compared.
fn classes_fit(a: OperandClass, b: OperandClass) -> bool
    ensures { result ≡ kinds_fit (operand_class a) (operand_class b) }
{
    match (a, b) {
        (OperandClass::Null, _) | (_, OperandClass::Null) => true,
        (OperandClass::Column(k), OperandClass::Column(l)) => same_kind(k, l),
        (OperandClass::Column(k), OperandClass::Number)
        | (OperandClass::Number, OperandClass::Column(k)) => is_number(k),
        (OperandClass::Column(k), OperandClass::Text)
        | (OperandClass::Text, OperandClass::Column(k)) => !is_number(k),
        (OperandClass::Number, OperandClass::Number) | (OperandClass::Text, OperandClass::Text) => {
            true
        }
        (OperandClass::Number, OperandClass::Text) | (OperandClass::Text, OperandClass::Number) => {
            false
        }
    }
}

/// Whether the names of an operand mean columns.
pub(crate) fn check_atom(known: &[KnownColumn], atom: &Atom) -> Result<(), BindBad>
    requires { length known.now < 2 ^ 32 }
    ensures { result ≡ verdict (atom_breaches known.now atom.now) }
{
    match atom {
        Atom::Expr(expr) => check_expr(known, expr),
        Atom::Literal(_) => Ok(()),
    }
}

// Whether the names of an operand mean columns.
#[tactic(auto, using(crate::proofs::Along::sound_is))]
fn is_sound(known: &[KnownColumn], atom: &Atom) -> bool
    requires { length known.now < 2 ^ 32 }
    ensures { result ≡ is_sound (atom_breaches known.now atom.now) }
{
    check_atom(known, atom).is_ok()
}

// Whether two operands can be compared, where their names mean columns.
fn check_kinds(known: &[KnownColumn], left: &Atom, right: &Atom, at: u64) -> Result<(), BindBad>
    requires { length known.now < 2 ^ 32 }
    ensures { result ≡ verdict (kind_breaches known.now left.now right.now at) }
{
    if is_sound(known, left)
        && is_sound(known, right)
        && !classes_fit(atom_class(known, left), atom_class(known, right))
    {
        return Err(BindBad::Kinds(at));
    }
    Ok(())
}

/// A comparison: the names of both sides, and whether they can be compared.
pub(crate) fn check_compare(
    known: &[KnownColumn],
    left: &Atom,
    right: &Atom,
    at: u64,
) -> Result<(), BindBad>
    requires { length known.now < 2 ^ 32 }
    ensures { result ≡ verdict (compare_breaches known.now left.now right.now at) }
{
    check_atom(known, left)?;
    check_kinds(known, left, right, at)?;
    check_atom(known, right)
}

// Whether the literal can be compared with the operand.
fn check_literal(
    known: &[KnownColumn],
    of: &Atom,
    literal: &Literal,
    at: u64,
) -> Result<(), BindBad>
    requires { length known.now < 2 ^ 32 }
    ensures { result ≡ verdict (kind_breaches known.now of.now (node.Literal literal.now) at) }
{
    if is_sound(known, of) && !classes_fit(atom_class(known, of), literal_class(literal)) {
        return Err(BindBad::Kinds(at));
    }
    Ok(())
}

fn check_literals(
    known: &[KnownColumn],
    of: &Atom,
    literals: &[Literal],
    at: u64,
) -> Result<(), BindBad>
    requires { length known.now < 2 ^ 32 }
    ensures { result ≡ verdict (flat_map (λ l. kind_breaches known.now of.now (node.Literal l) at) literals.now) }
{
    for literal in literals {
        check_literal(known, of, literal, at)?;
    }
    Ok(())
}

/// IN: the names of the operand, and whether each literal can be compared with it.
pub(crate) fn check_one_of(
    known: &[KnownColumn],
    of: &Atom,
    list: &Literals,
    at: u64,
) -> Result<(), BindBad>
    requires { length known.now < 2 ^ 32 }
    ensures { result ≡ verdict (one_of_breaches known.now of.now list.now at) }
{
    check_atom(known, of)?;
    check_literals(known, of, list.as_slice(), at)
}

/// BETWEEN: the names of all three operands, and whether both ends can be compared with the first.
pub(crate) fn check_between(
    known: &[KnownColumn],
    of: &Atom,
    low: &Atom,
    high: &Atom,
    at: u64,
) -> Result<(), BindBad>
    requires { length known.now < 2 ^ 32 }
    ensures { result ≡ verdict (between_breaches known.now of.now low.now high.now at) }
{
    check_atom(known, of)?;
    check_kinds(known, of, low, at)?;
    check_kinds(known, of, high, at)?;
    check_atom(known, low)?;
    check_atom(known, high)
}
