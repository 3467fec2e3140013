//! Groups and their aggregates.
ghost use Rattle.std.specs.Prelude.{◌≡◌, ℕ, ◌+◌, ◌-◌, ◌*◌, ◌^◌, ◌<◌, ◌++◌, [], ◌∷◌, List, true, false, min, nat_lt, if◌then◌else◌, length, map, get_or, Some, None, All, IsOk, IfOk, OnOk, OnErr};
ghost use Rattle.pm_values.specs.Row.{AllBelow, Row, cell, pick};
ghost use Rattle.pm_keys.specs.Numbers.{entered};
ghost use Rattle.pm_keys.specs.Cuts.{cut};
ghost use Rattle.pm_plan.specs.Grouping.{grouped, aggregate_of};
ghost use Rattle.pm_blocks.specs.Limits.{AreFew, IsWithin};
ghost use Rattle.pm_blocks.specs.Accumulators.{with_row};
ghost use Rattle.pm_blocks.specs.GroupState.{IsOf, IsKept, side_by_side};

use crate::accumulators::{add_row, empty_aggregate, push_aggregates};
use pm_keys::{KeyTable, Keys};
use pm_plan::{Aggregate, Aggregates};
use pm_values::{Cells, Columns, Pick, Row, Value};
use std::alloc::{AllocError, Global};
use std::marker::Model;

/// Takes rows, and hands out the numbers of their groups, from 0 in order of first appearance, once it is closed.
///
/// It keeps for each group the values of its key and its aggregates.
#[derive(Drop)]
pub struct GroupCore {
    keys: Columns,
    items: Aggregates,
    table: KeyTable,
    /// The aggregates of each key so far, key after key.
    accumulators: Vec<Value>,
    /// Room for what one row changes.
    changes: Vec<Option<Value>>,
    closed: bool,
    handed: u64,
}

impl Model for GroupCore {
    ghost use Rattle.std.specs.Prelude.{length};
    ghost use Rattle.pm_keys.specs.Cuts.{cut};
    ghost use Rattle.pm_blocks.specs.GroupState.{GroupState, IsKept, side_by_side};

    ghost Value = { GroupState };

    ghost view = { λ g. record { keys = g.keys; items = g.items; groups = side_by_side g.table.keys (cut (length g.items) (length g.table.keys) g.accumulators.items); closed = g.closed; handed = g.handed } };

    ghost invariant = { λ g. IsKept g.keys g.items g.table g.accumulators.items g.handed };
}

impl GroupCore {
    /// The groups by these columns, with these aggregates, of no rows so far.
    pub fn new(alloc: Global, keys: &Columns, items: &Aggregates) -> Result<GroupCore, AllocError>
        requires { length keys.now + length items.now < 2 ^ 32 }
        ensures { IfOk result (λ core. core ≡ record { keys = keys.now; items = items.now; groups = grouped keys.now items.now []; closed = false; handed = 0 }) }
    {
        let (table, accumulators) = of_no_rows(alloc, keys.as_slice(), items.as_slice())?;
        Ok(GroupCore {
            keys: Columns::from_slice(alloc, keys.as_slice())?,
            items: Aggregates::from_slice(alloc, items.as_slice())?,
            table,
            accumulators,
            changes: Vec::new(alloc),
            closed: false,
            handed: 0,
        })
    }

    /// Takes the next row. A refusal leaves the groups as they were; it comes too where there are 2^32 - 1 groups and the
    /// row has a new key.
    pub fn take<C: Cells>(&mut self, row: &C) -> Result<(), AllocError>
        requires open { self.old.closed ≡ false }
        requires few_cells { length (C.cells row.now) < 2 ^ 32 }
        requires keys_within { AllBelow self.old.keys (length (C.cells row.now)) }
        requires items_within { All (IsWithin (length (C.cells row.now))) self.old.items }
        requires few { (rows : List Row) × IsOf self.old rows × AreFew self.old.items (rows ++ C.cells row.now ∷ []) }
        ensures ok { OnOk result ((rows : List Row) → IsOf self.old rows → self.new ≡ record self.old { groups = grouped self.old.keys self.old.items (rows ++ C.cells row.now ∷ []) }) }
        ensures err { OnErr result (self.new ≡ self.old) }
    {
        // A table of keys has no room for one more.
        let full = self.table.len() == u32::MAX;
        let found = self.table.find(&Pick::new(row, &self.keys));
        match found {
            Some(group) => {
                let start = group as usize * self.items.len();
                add_row(
                    &mut self.changes,
                    &mut self.accumulators,
                    start,
                    &self.items,
                    row,
                )
            }
            None => {
                if full {
                    return Err(AllocError);
                }
                start_group(
                    &mut self.table,
                    &mut self.accumulators,
                    &self.keys,
                    &self.items,
                    row,
                )
            }
        }
    }

    /// Ends the taking of rows.
    pub fn close(&mut self) -> Result<(), AllocError>
        requires open { self.old.closed ≡ false }
        ensures done { IsOk result }
        ensures closed { self.new ≡ record self.old { closed = true } }
    {
        self.closed = true;
        Ok(())
    }

    /// The number of the next group, or None exactly where all were handed out.
    pub fn hand(&mut self) -> Option<u64>
        requires closed { self.old.closed ≡ true }
        ensures next { result ≡ (if nat_lt self.old.handed (length self.old.groups) then Some self.old.handed else None) }
        ensures handed { self.new ≡ record self.old { handed = min (self.old.handed + 1) (length self.old.groups) } }
    {
        let next = self.handed;
        if next < self.groups() {
            self.handed = next + 1;
            Some(next)
        } else {
            None
        }
    }

    /// The value of a group in a column, of which those of the key come first, and then the aggregates.
    pub fn cell(&self, group: u64, column: u32) -> &Value
        requires group { group < length self.now.groups }
        requires column { column < length self.now.keys + length self.now.items }
        ensures { result.now ≡ cell (get_or self.now.groups group []) column }
    {
        let width = self.table.width();
        if column < width {
            self.table.cell(group as u32, column)
        } else {
            accumulator_at(
                self.accumulators.as_slice(),
                self.items.len(),
                group as usize,
                (column - width) as usize,
            )
        }
    }

    /// The number of groups so far, which is 1 without keys.
    pub fn groups(&self) -> u64
        ensures { result ≡ length self.now.groups }
    {
        u64::from(self.table.len())
    }
}

fn accumulator_at(accumulators: &[Value], width: usize, group: usize, at: usize) -> &Value
    requires { group * width + at < length accumulators.now }
    ensures { result.now ≡ cell accumulators.now (group * width + at) }
{
    &accumulators[group * width + at]
}

/// The keys and the aggregates of no rows.
fn of_no_rows(
    alloc: Global,
    keys: &[u32],
    items: &[Aggregate],
) -> Result<(KeyTable, Vec<Value>), AllocError>
    requires { length keys.now + length items.now < 2 ^ 32 }
    ensures groups { IfOk result (λ kept. side_by_side kept.0.keys (cut (length items.now) (length kept.0.keys) kept.1.items) ≡ grouped keys.now items.now []) }
    ensures kept { IfOk result (λ kept. IsKept keys.now items.now kept.0 kept.1.items 0) }
{
    let mut table = KeyTable::new(alloc, keys.len() as u32);
    let mut accumulators = Vec::new(alloc);
    if keys.is_empty() {
        table.enter(&Row::new(alloc))?;
        push_empty(&mut accumulators, items)?;
    }
    Ok((table, accumulators))
}

fn push_empty(accumulators: &mut Vec<Value>, items: &[Aggregate]) -> Result<(), AllocError>
    ensures { OnOk result (accumulators.new.items ≡ accumulators.old.items ++ map (aggregate_of []) items.now) }
{
    for item in items {
        accumulators.push(empty_aggregate(*item))?;
    }
    Ok(())
}

/// Enters the key of a row, and the aggregates of this row alone. A refusal leaves both lists.
fn start_group<C: Cells>(
    table: &mut KeyTable,
    accumulators: &mut Vec<Value>,
    keys: &Columns,
    items: &Aggregates,
    row: &C,
) -> Result<(), AllocError>
    requires few_cells { length (C.cells row.now) < 2 ^ 32 }
    requires keys_within { AllBelow keys.now (length (C.cells row.now)) }
    requires items_within { All (IsWithin (length (C.cells row.now))) items.now }
    requires wide { table.old.width ≡ length keys.now }
    requires few { length table.old.keys < 2 ^ 32 - 1 }
    ensures keys { OnOk result (table.new.keys ≡ entered (pick keys.now (C.cells row.now)) table.old.keys) }
    ensures width { table.new.width ≡ table.old.width }
    ensures accumulators { OnOk result (accumulators.new.items ≡ accumulators.old.items ++ map (λ item. with_row (C.cells row.now) item (aggregate_of [] item)) items.now) }
    ensures err { OnErr result (table.new ≡ table.old) }
    ensures kept { OnErr result (accumulators.new.items ≡ accumulators.old.items) }
{
    let before = accumulators.len();
    push_aggregates(accumulators, items.as_slice(), row)?;
    if table.enter(&Pick::new(row, keys)).is_err() {
        accumulators.truncate(before);
        return Err(AllocError);
    }
    Ok(())
}
