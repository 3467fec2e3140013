//! Conditions on rows, and the three truths that they may have.
ghost use Rattle.std.specs.Prelude.{◌≡◌, IfOk};
ghost use Rattle.pm_values.specs.Condition.{truth_of, negated, both, either, compares, operand_scale};

use crate::value::Value;
use std::alloc::{AllocError, Global};
use std::cmp::Ordering;

/// The truth of a condition in SQL, which knows a third value beside true and false.
#[derive(Clone, Copy, Debug, PartialEq, Eq)]
pub enum Truth {
    Yes,
    No,
    Unknown,
}

impl Truth {
    /// The truth of what is known.
    pub fn of(known: bool) -> Truth
        ensures { result ≡ truth_of known }
    {
        if known { Truth::Yes } else { Truth::No }
    }

    /// NOT: what is unknown stays unknown.
    pub fn negated(self) -> Truth
        ensures { result ≡ negated self }
    {
        match self {
            Truth::Yes => Truth::No,
            Truth::No => Truth::Yes,
            Truth::Unknown => Truth::Unknown,
        }
    }

    /// AND: No where one of them is No.
    pub fn and(self, other: Truth) -> Truth
        ensures { result ≡ both self other }
    {
        match (self, other) {
            (Truth::No, _) | (_, Truth::No) => Truth::No,
            (Truth::Yes, Truth::Yes) => Truth::Yes,
            _ => Truth::Unknown,
        }
    }

    /// OR: Yes where one of them is Yes.
    pub fn or(self, other: Truth) -> Truth
        ensures { result ≡ either self other }
    {
        match (self, other) {
            (Truth::Yes, _) | (_, Truth::Yes) => Truth::Yes,
            (Truth::No, Truth::No) => Truth::No,
            _ => Truth::Unknown,
        }
    }
}

/// How two operands are compared.
#[derive(Clone, Copy, Debug, PartialEq, Eq)]
pub enum Comparison {
    Equal,
    Unequal,
    Less,
    AtMost,
    Greater,
    AtLeast,
}

impl Comparison {
    /// Whether values in this order compare so.
    pub fn holds(self, order: Ordering) -> bool
        ensures { result ≡ compares self order }
    {
        match self {
            Comparison::Equal => order == Ordering::Equal,
            Comparison::Unequal => order != Ordering::Equal,
            Comparison::Less => order == Ordering::Less,
            Comparison::AtMost => order != Ordering::Greater,
            Comparison::Greater => order == Ordering::Greater,
            Comparison::AtLeast => order != Ordering::Less,
        }
    }
}

/// What a condition compares: a column of the row, by its number from 0, or a literal. A number is its value times
/// 10^-`scale`.
#[derive(Debug, Drop)]
pub enum Operand {
    Column { at: u32, scale: u8 },
    Literal { value: Value, scale: u8 },
}

impl Operand {
    /// The scale of its numbers.
    pub fn scale(&self) -> u8
        ensures { result ≡ operand_scale self.now }
    {
        match self {
            Operand::Column { scale, .. } | Operand::Literal { scale, .. } => *scale,
        }
    }

    /// An equal operand.
    pub fn copy(&self, alloc: Global) -> Result<Operand, AllocError>
        ensures { IfOk result (λ copy. copy ≡ self.now) }
    {
        match self {
            Operand::Column { at, scale } => Ok(Operand::Column {
                at: *at,
                scale: *scale,
            }),
            Operand::Literal { value, scale } => Ok(Operand::Literal {
                value: value.copy(alloc)?,
                scale: *scale,
            }),
        }
    }
}

/// A condition on a row.
#[derive(Debug, Drop)]
pub enum Cond {
    All(sqlite_items::Items<Cond>),
    Any(sqlite_items::Items<Cond>),
    Not(sqlite_items::Boxed<Cond>),
    Compare {
        how: Comparison,
        left: Operand,
        right: Operand,
    },
    IsNull(Operand),
}

/// The members of a condition.
pub type Conds = sqlite_items::Items<Cond>;

impl Cond {
    /// An equal condition.
    #[cycle(copy)]
    pub fn copy(&self, alloc: Global) -> Result<Cond, AllocError>
        ensures { IfOk result (λ copy. copy ≡ self.now) }
    {
        match self {
            Cond::All(members) => Ok(Cond::All(copy_members(alloc, members.as_slice())?)),
            Cond::Any(members) => Ok(Cond::Any(copy_members(alloc, members.as_slice())?)),
            Cond::Not(part) => Ok(Cond::Not(sqlite_items::Boxed::new(
                alloc,
                part.get().copy(alloc)?,
            )?)),
            Cond::Compare { how, left, right } => Ok(Cond::Compare {
                how: *how,
                left: left.copy(alloc)?,
                right: right.copy(alloc)?,
            }),
            Cond::IsNull(of) => Ok(Cond::IsNull(of.copy(alloc)?)),
        }
    }
}

#[cycle(copy)]
fn copy_members(alloc: Global, members: &[Cond]) -> Result<Conds, AllocError>
    ensures { IfOk result (λ copy. copy ≡ members.now) }
{
    let mut copy = Conds::new(alloc);
    for member in members {
        copy.push(member.copy(alloc)?)?;
    }
    Ok(copy)
}
