//! What names and expressions mean among the columns that are known.
ghost use Rattle.std.specs.Prelude.{◌≡◌, ◌<◌, ◌^◌, length, []};
ghost use Rattle.std.specs.List.{position};
ghost use Rattle.pm_plan.specs.Kinds.{is_number, kind_at, same_kind};
ghost use Rattle.pm_names.specs.Breaches.{verdict};
ghost use Rattle.pm_names.specs.Names.{name_at, is_alias, means, name_breaches, column_of, aggregate_of, term_of, expr_at, placed_term, kinds_of, term_kind, is_sum, sum_breaches, expr_breaches};

use crate::fault::BindBad;
use crate::terms::{KnownColumn, PlacedTerm, Term};
use pm_plan::Aggregate;
use pm_syntax::{ColumnName, Expr, Func, PlacedName};
use pm_values::Kind;

fn name_at(name: &ColumnName) -> u64
    ensures { result ≡ name_at name.now }
{
    match &name.alias {
        Some(alias) => alias.at,
        None => name.name.at,
    }
}

fn is_alias(given: &Option<PlacedName>, alias: &[u8]) -> bool
    ensures { result ≡ is_alias given.now alias.now }
{
    match given {
        None => true,
        Some(given) => given.text.bytes() == alias,
    }
}

// Whether the name means the column.
fn means(name: &ColumnName, column: &KnownColumn) -> bool
    ensures { result ≡ means name.now column.now }
{
    is_alias(&name.alias, column.alias.bytes()) && column.name.bytes() == name.name.text.bytes()
}

/// Whether the name means one known column.
#[tactic(auto, unfolding(crate::specs::Names::name_breaches))]
pub fn check_name(known: &[KnownColumn], name: &ColumnName) -> Result<(), BindBad>
    ensures { result ≡ verdict (name_breaches known.now name.now) }
{
    match known.iter().filter(|column| means(name, column)).count() {
        0 => Err(BindBad::NoColumn(name_at(name))),
        1 => Ok(()),
        _ => Err(BindBad::TwoColumns(name_at(name))),
    }
}

fn meant_by(known: &[KnownColumn], name: &ColumnName) -> Option<usize>
    ensures { result ≡ position (means name.now) known.now }
{
    known.iter().position(|column| means(name, column))
}

/// The position of the column that the name means, the number of columns where there is none.
#[tactic(auto, using(crate::proofs::Positions::position_is, crate::proofs::Positions::position_within))]
pub fn column_of(known: &[KnownColumn], name: &ColumnName) -> u32
    requires { length known.now < 2 ^ 32 }
    ensures { result ≡ column_of known.now name.now }
{
    let at = meant_by(known, name).unwrap_or(known.len());
    at as u32
}

fn aggregate_of(func: Func, column: u32) -> Aggregate
    ensures { result ≡ aggregate_of func column }
{
    match func {
        Func::Count => Aggregate::Count(column),
        Func::Sum => Aggregate::Sum(column),
        Func::Min => Aggregate::Min(column),
        Func::Max => Aggregate::Max(column),
    }
}

/// What an expression means.
pub fn term_of(known: &[KnownColumn], expr: &Expr) -> Term
    requires { length known.now < 2 ^ 32 }
    ensures { result ≡ term_of known.now expr.now }
{
    match expr {
        Expr::Column(name) => Term::Column(column_of(known, name)),
        Expr::CountAll { .. } => Term::Call(Aggregate::CountAll),
        Expr::Call { func, column, .. } => {
            Term::Call(aggregate_of(*func, column_of(known, column)))
        }
    }
}

/// The place of an expression.
pub fn expr_at(expr: &Expr) -> u64
    ensures { result ≡ expr_at expr.now }
{
    match expr {
        Expr::Column(name) => name_at(name),
        Expr::CountAll { at } => *at,
        Expr::Call { at, .. } => *at,
    }
}

/// What an expression means, with its place.
pub fn placed_term(known: &[KnownColumn], expr: &Expr) -> PlacedTerm
    requires { length known.now < 2 ^ 32 }
    ensures { result ≡ placed_term known.now expr.now }
{
    let term = term_of(known, expr);
    let at = expr_at(expr);
    PlacedTerm { term, at }
}

// The kind of the column at this position, a whole number's past the end.
fn kind_at(known: &[KnownColumn], column: u32) -> Kind
    ensures { result ≡ kind_at (kinds_of known.now) column }
{
    match known.get(column as usize) {
        Some(column) => column.kind,
        None => Kind::Int,
    }
}

/// The kind of what an expression means.
pub(crate) fn term_kind(known: &[KnownColumn], term: Term) -> Kind
    ensures { result ≡ term_kind known.now term }
{
    match term {
        Term::Column(column) => kind_at(known, column),
        Term::Call(Aggregate::CountAll) | Term::Call(Aggregate::Count(_)) => Kind::Int,
        Term::Call(Aggregate::Sum(column))
        | Term::Call(Aggregate::Min(column))
        | Term::Call(Aggregate::Max(column)) => kind_at(known, column),
    }
}

/// Whether columns of this kind hold numbers.
pub(crate) fn is_number(kind: Kind) -> bool
    ensures { result ≡ is_number kind }
{
    match kind {
        Kind::Int | Kind::Num(_) => true,
        Kind::Text => false,
    }
}

/// Whether columns of these kinds can be compared, which is where the kinds are equal.
pub(crate) fn same_kind(a: Kind, b: Kind) -> bool
    ensures { result ≡ same_kind a b }
{
    match (a, b) {
        (Kind::Int, Kind::Int) | (Kind::Text, Kind::Text) => true,
        (Kind::Num(s), Kind::Num(t)) => s == t,
        _ => false,
    }
}

fn is_sum(func: Func) -> bool
    ensures { result ≡ is_sum func }
{
    match func {
        Func::Sum => true,
        Func::Count | Func::Min | Func::Max => false,
    }
}

// Whether the function can be computed of the column that the name means.
fn check_sum(known: &[KnownColumn], func: Func, name: &ColumnName, at: u64) -> Result<(), BindBad>
    requires few { length known.now < 2 ^ 32 }
    requires sound { name_breaches known.now name.now ≡ [] }
    ensures { result ≡ verdict (sum_breaches known.now func name.now at) }
{
    if is_sum(func) && !is_number(kind_at(known, column_of(known, name))) {
        return Err(BindBad::Kinds(at));
    }
    Ok(())
}

/// Whether the name of an expression means one column, which is a number where it is summed.
#[tactic(auto, using(crate::proofs::Along::none_from_ok))]
pub fn check_expr(known: &[KnownColumn], expr: &Expr) -> Result<(), BindBad>
    requires { length known.now < 2 ^ 32 }
    ensures { result ≡ verdict (expr_breaches known.now expr.now) }
{
    match expr {
        Expr::Column(name) => check_name(known, name),
        Expr::CountAll { .. } => Ok(()),
        Expr::Call { func, column, at } => {
            check_name(known, column)?;
            check_sum(known, *func, column, *at)
        }
    }
}
