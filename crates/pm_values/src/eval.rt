//! What a condition is on a row.
ghost use Rattle.std.specs.Prelude.{◌≡◌, ◌^◌, ◌<◌, ◌≤◌, All, length, map};
ghost use Rattle.pm_values.specs.Equality.{is_null};
ghost use Rattle.pm_values.specs.Condition.{all_of, any_of, compared, operand_scale, operand_value, truth};
ghost use Rattle.pm_values.specs.WellFormed.{IsWellFormed, IsWellFormedOperand};

use crate::cells::Cells;
use crate::condition::{Comparison, Cond, Operand, Truth};
use crate::limits::MOST_DECIMALS;
use crate::order::compare;
use crate::scaled::compare_scaled;
use crate::value::Value;

impl Operand {
    /// Its value on a row.
    pub fn value<'a, C: Cells>(&'a self, row: &'a C) -> &'a Value
        requires few { length (C.cells row.now) < 2 ^ 32 }
        requires well_formed { IsWellFormedOperand (length (C.cells row.now)) self.now }
        ensures { result.now ≡ operand_value self.now (C.cells row.now) }
    {
        match self {
            Operand::Column { at, .. } => row.cell(*at),
            Operand::Literal { value, .. } => value,
        }
    }
}

impl Cond {
    /// What the condition is on a row that has its columns.
    #[cycle(eval)]
    pub fn eval<C: Cells>(&self, row: &C) -> Truth
        requires few { length (C.cells row.now) < 2 ^ 32 }
        requires well_formed { IsWellFormed (length (C.cells row.now)) self.now }
        ensures { result ≡ truth (C.cells row.now) self.now }
    {
        match self {
            Cond::All(members) => eval_all(members.as_slice(), row),
            Cond::Any(members) => eval_any(members.as_slice(), row),
            Cond::Not(part) => part.get().eval(row).negated(),
            Cond::Compare { how, left, right } => eval_compare(*how, left, right, row),
            Cond::IsNull(of) => Truth::of(is_null(of.value(row))),
        }
    }
}

#[cycle(eval)]
fn eval_all<C: Cells>(members: &[Cond], row: &C) -> Truth
    requires few { length (C.cells row.now) < 2 ^ 32 }
    requires well_formed { All (IsWellFormed (length (C.cells row.now))) members.now }
    ensures { result ≡ all_of (map (truth (C.cells row.now)) members.now) }
{
    let mut so_far = Truth::Yes;
    for member in members {
        so_far = so_far.and(member.eval(row));
        if so_far == Truth::No {
            return Truth::No;
        }
    }
    so_far
}

#[cycle(eval)]
fn eval_any<C: Cells>(members: &[Cond], row: &C) -> Truth
    requires few { length (C.cells row.now) < 2 ^ 32 }
    requires well_formed { All (IsWellFormed (length (C.cells row.now))) members.now }
    ensures { result ≡ any_of (map (truth (C.cells row.now)) members.now) }
{
    let mut so_far = Truth::No;
    for member in members {
        so_far = so_far.or(member.eval(row));
        if so_far == Truth::Yes {
            return Truth::Yes;
        }
    }
    so_far
}

fn eval_compare<C: Cells>(how: Comparison, left: &Operand, right: &Operand, row: &C) -> Truth
    requires few { length (C.cells row.now) < 2 ^ 32 }
    requires left { IsWellFormedOperand (length (C.cells row.now)) left.now }
    requires right { IsWellFormedOperand (length (C.cells row.now)) right.now }
    ensures { result ≡ compared how (operand_scale left.now) (operand_scale right.now) (operand_value left.now (C.cells row.now)) (operand_value right.now (C.cells row.now)) }
{
    compare_values(
        how,
        left.value(row),
        left.scale(),
        right.value(row),
        right.scale(),
    )
}

fn compare_values(how: Comparison, a: &Value, s: u8, b: &Value, t: u8) -> Truth
    requires left { s ≤ MOST_DECIMALS }
    requires right { t ≤ MOST_DECIMALS }
    ensures { result ≡ compared how s t a.now b.now }
{
    match (a, b) {
        (Value::Null, _) | (_, Value::Null) => Truth::Unknown,
        (Value::Int(m), Value::Int(n)) => Truth::of(how.holds(compare_scaled(*m, s, *n, t))),
        _ => Truth::of(how.holds(compare(a, b))),
    }
}

fn is_null(value: &Value) -> bool
    ensures { result ≡ is_null value.now }
{
    matches!(value, Value::Null)
}
