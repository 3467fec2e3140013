//! What keeps a row without a copy.
ghost use Rattle.std.specs.Prelude.{◌≡◌, [], ◌∷◌, ◌++◌, drop, get_or, length, OnOk, OnErr};
ghost use Rattle.pm_values.specs.declared.value.Value.TheVariants as value;
ghost use Rattle.pm_flows.specs.Held.{HasColumn, PutsSome, part_of, value_in_row};

use pm_values::{Row, Value};
use std::alloc::AllocError;

/// A row of a table, NULLs in its place, or the number of a group.
#[derive(Clone, Copy)]
pub enum Part<'a> {
    Row(&'a Row),
    Nulls,
    Group(u64),
}

impl<'a> Part<'a> {
    /// A row, or NULLs where there is none.
    pub fn of(row: Option<&'a Row>) -> Part<'a>
        ensures { result ≡ part_of row.entry }
    {
        match row {
            Some(row) => Part::Row(row),
            None => Part::Nulls,
        }
    }

    /// A column of a row, and of NULLs the one that is lent.
    pub fn cell(self, null: &'a Value, at: u32) -> &'a Value
        requires has { HasColumn self at }
        requires null { null.now ≡ value.Null }
        ensures { result.now ≡ value_in_row self.entry at }
    {
        match self {
            Part::Row(row) => row.at(at as usize),
            Part::Nulls => null,
            Part::Group(_) => unreachable!(),
        }
    }
}

/// The first of some parts, NULLs where there is none.
pub fn first_of<'a>(parts: &[Part<'a>]) -> Part<'a>
    ensures { result ≡ get_or parts.now 0 Part.Nulls }
{
    match parts.first() {
        Some(part) => return *part,
        None => return Part::Nulls,
    }
}

/// Those behind the first one.
pub fn behind<'p, 'a>(parts: &'p [Part<'a>]) -> &'p [Part<'a>]
    ensures { result.now ≡ drop 1 parts.now }
{
    if parts.is_empty() {
        return parts;
    }
    &parts[1..]
}

/// Puts a part at the end. A refusal leaves them.
pub fn put<'a>(parts: &mut Vec<Part<'a>>, part: Part<'a>) -> Result<(), AllocError>
    ensures ok { OnOk result (parts.new.items ≡ parts.old.items ++ part.entry ∷ []) }
    ensures err { OnErr result (parts.new.items ≡ parts.old.items) }
{
    parts.push(part)?;
    return Ok(());
}

/// Puts parts at the end.
pub fn push_all<'a>(parts: &mut Vec<Part<'a>>, more: &[Part<'a>]) -> Result<(), AllocError>
    ensures ok { OnOk result (parts.new.items ≡ parts.old.items ++ more.now) }
    ensures err { OnErr result (PutsSome parts.old.items parts.new.items) }
{
    for part in more {
        parts.push(*part)?;
    }
    return Ok(());
}
