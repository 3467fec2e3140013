//! Whether conditions, aggregates and pairs fit the kinds of the columns that they read.
ghost use Rattle.std.specs.Prelude.{◌≡◌, ◌+◌, ◌-◌, ◌<◌, ◌^◌, ◌↔◌, ◌&&◌, ℕ, IsTrue, All, length};
ghost use Rattle.std.specs.List.{list_all};
ghost use Rattle.pm_plan.specs.Preorder.{Subplan};
ghost use Rattle.pm_plan.specs.Valid.{PairsFit};
ghost use Rattle.pm_plan.specs.Standing.{Stands, subplan_kinds, operand_class};
ghost use Rattle.pm_plan.specs.Kinds.{same_kind, is_number, scale_of, kinds_fit, operand_kind, operand_fits, comparison_fits, condition_fits, condition_fits_if, pair_fits, item_fits};

use crate::kinds::{TOO_MANY, kind_at};
use crate::plan::{Aggregate, Node, Pair};
use pm_values::{Cond, Kind, Operand, TableDecls, Value};

/// Whether two columns of these kinds can be compared, which is where the kinds are equal.
pub fn same_kind(a: Kind, b: Kind) -> bool
    ensures { result ≡ same_kind a b }
{
    match (a, b) {
        (Kind::Int, Kind::Int) | (Kind::Text, Kind::Text) => true,
        (Kind::Num(s), Kind::Num(t)) => s == t,
        _ => false,
    }
}

fn is_number(kind: Kind) -> bool
    ensures { result ≡ is_number kind }
{
    match kind {
        Kind::Int | Kind::Num(_) => true,
        Kind::Text => false,
    }
}

// The decimals of a column of this kind.
fn scale_of(kind: Kind) -> u8
    ensures { result ≡ scale_of kind }
{
    match kind {
        Kind::Num(scale) => scale,
        Kind::Int | Kind::Text => 0,
    }
}

/// What an operand is compared as.
#[derive(Clone, Copy, Debug, PartialEq, Eq)]
pub enum OperandClass {
    Column(Kind),
    Null,
    Number,
    Text,
}

// What the operand is, on the rows that the node of this number hands out.
fn operand_class(nodes: &[Node], decls: &TableDecls, n: usize, operand: &Operand) -> OperandClass
    ensures { (p : Subplan) → Stands nodes.now p n → operand_class result ≡ operand_kind (subplan_kinds decls.now p) operand.now }
{
    match operand {
        Operand::Column { at, .. } => {
            OperandClass::Column(kind_at(nodes, decls, n, *at).unwrap_or(Kind::Int))
        }
        Operand::Literal { value, .. } => match value {
            Value::Null => OperandClass::Null,
            Value::Int(_) => OperandClass::Number,
            Value::Text(_) => OperandClass::Text,
        },
    }
}

// Whether two operands can be compared.
fn classes_fit(a: OperandClass, b: OperandClass) -> bool
    ensures { result ≡ kinds_fit (operand_class a) (operand_class b) }
{
    match (a, b) {
        (OperandClass::Null, _) | (_, OperandClass::Null) => true,
        (OperandClass::Column(k), OperandClass::Column(l)) => same_kind(k, l),
        (OperandClass::Column(k), OperandClass::Number)
        | (OperandClass::Number, OperandClass::Column(k)) => is_number(k),
        (OperandClass::Column(k), OperandClass::Text)
        | (OperandClass::Text, OperandClass::Column(k)) => !is_number(k),
        (OperandClass::Number, OperandClass::Number) | (OperandClass::Text, OperandClass::Text) =>
            true,
        (OperandClass::Number, OperandClass::Text) | (OperandClass::Text, OperandClass::Number) =>
            false,
    }
}

// Whether the operand is one of these rows' columns with its scale, or a literal of few decimals.
fn operand_fits(nodes: &[Node], decls: &TableDecls, n: usize, operand: &Operand) -> bool
    ensures { (p : Subplan) → Stands nodes.now p n → result ≡ operand_fits (subplan_kinds decls.now p) operand.now }
{
    match operand {
        Operand::Column { at, scale } => match kind_at(nodes, decls, n, *at) {
            Some(kind) => *scale == scale_of(kind),
            None => false,
        },
        Operand::Literal { scale, .. } => *scale <= 6,
    }
}

fn comparison_fits(
    nodes: &[Node],
    decls: &TableDecls,
    n: usize,
    left: &Operand,
    right: &Operand,
) -> bool
    ensures { (p : Subplan) → Stands nodes.now p n → result ≡ comparison_fits (subplan_kinds decls.now p) left.now right.now }
{
    let a = operand_class(nodes, decls, n, left);
    let b = operand_class(nodes, decls, n, right);
    operand_fits(nodes, decls, n, left) && operand_fits(nodes, decls, n, right) && classes_fit(a, b)
}

#[cycle(condition_fits)]
fn members_fit(nodes: &[Node], decls: &TableDecls, n: usize, members: &[Cond]) -> bool
    ensures { (p : Subplan) → Stands nodes.now p n → result ≡ list_all (condition_fits (subplan_kinds decls.now p)) members.now }
{
    'members: for member in members {
        if !condition_fits(nodes, decls, n, member) {
            return false;
        }
    }
    true
}

/// Whether the condition fits the rows that the node of this number hands out.
#[cycle(condition_fits)]
pub fn condition_fits(nodes: &[Node], decls: &TableDecls, n: usize, cond: &Cond) -> bool
    ensures { (p : Subplan) → Stands nodes.now p n → result ≡ condition_fits (subplan_kinds decls.now p) cond.now }
{
    match cond {
        Cond::All(members) => members_fit(nodes, decls, n, members.as_slice()),
        Cond::Any(members) => members_fit(nodes, decls, n, members.as_slice()),
        Cond::Not(part) => condition_fits(nodes, decls, n, part.get()),
        Cond::Compare { left, right, .. } => comparison_fits(nodes, decls, n, left, right),
        Cond::IsNull(of) => operand_fits(nodes, decls, n, of),
    }
}

/// The same of a condition that may be left out.
pub fn condition_fits_if(nodes: &[Node], decls: &TableDecls, n: usize, cond: &Option<Cond>) -> bool
    ensures { (p : Subplan) → Stands nodes.now p n → result ≡ condition_fits_if (subplan_kinds decls.now p) cond.now }
{
    match cond {
        Some(cond) => condition_fits(nodes, decls, n, cond),
        None => true,
    }
}

/// Whether the aggregate can be computed of the rows that the node of this number hands out.
pub fn item_fits(nodes: &[Node], decls: &TableDecls, n: usize, item: Aggregate) -> bool
    ensures { (p : Subplan) → Stands nodes.now p n → result ≡ item_fits (subplan_kinds decls.now p) item }
{
    match item {
        Aggregate::CountAll => true,
        Aggregate::Count(column) | Aggregate::Min(column) | Aggregate::Max(column) => {
            kind_at(nodes, decls, n, column).is_some()
        }
        Aggregate::Sum(column) => match kind_at(nodes, decls, n, column) {
            Some(kind) => is_number(kind),
            None => false,
        },
    }
}

// Whether the pair compares a column of the left side with one of the right side, of one kind.
fn pair_fits(nodes: &[Node], decls: &TableDecls, left: usize, right: usize, pair: Pair) -> bool
    ensures fit { (p q : Subplan) → Stands nodes.now p left → Stands nodes.now q right → result ≡ pair_fits (subplan_kinds decls.now p) (subplan_kinds decls.now q) pair }
    ensures in_range { pair.left < 2 ^ 32 }
{
    let Some(l) = kind_at(nodes, decls, left, pair.left) else {
        return false;
    };
    match kind_at(nodes, decls, right, pair.right) {
        Some(r) => same_kind(l, r),
        None => false,
    }
}

/// Whether there are pairs, not too many, and each of them fits the two sides that stand at these numbers.
pub fn pairs_fit(
    nodes: &[Node],
    decls: &TableDecls,
    left: usize,
    right: usize,
    pairs: &[Pair],
) -> bool
    ensures fit { (p q : Subplan) → Stands nodes.now p left → Stands nodes.now q right → (IsTrue result ↔ PairsFit (subplan_kinds decls.now p) (subplan_kinds decls.now q) pairs.now) }
    ensures in_range { IsTrue result → All (λ pair. pair.left < 2 ^ 32) pairs.now }
{
    if pairs.is_empty() || pairs.len() >= TOO_MANY {
        return false;
    }
    for pair in pairs {
        if !pair_fits(nodes, decls, left, right, *pair) {
            return false;
        }
    }
    true
}
