//! The rows of a table compared with the rows to which a reference of theirs points.
ghost use Rattle.std.specs.Prelude.{◌≡◌, ◌≤◌, ◌^◌, true, All, IfErr, IfOk, MatchOption, length};
ghost use Rattle.pm_values.specs.References.{ReferenceHolds, has_target};
ghost use Rattle.pm_tables.specs.Keys.{IsKeyOrder};
ghost use Rattle.pm_tables.specs.References.{FaultsReference, LacksTargetFirst, reference_of};

use crate::fault::DataBad;
use crate::keys::{compare_keys, key_order, row_at};
use pm_values::{Reference, Row, Table, Value};
use std::alloc::Global;

/// Checks the reference with this number, from 1, of the child's rows to the parent's rows.
///
/// Refused is the first row of the child whose reference columns are the keys of no row of the parent
/// ([`DataBad::NoTarget`]). NULL is the key of no row of a table whose keys are not NULL.
pub fn check_reference(
    alloc: Global,
    child: &Table,
    number: u32,
    parent: &Table,
) -> Result<(), DataBad>
    requires one { 1 ≤ number }
    requires there { number ≤ length child.now.decl.references }
    ensures kept { IfOk result (λ _. ReferenceHolds (reference_of child.now.decl number) child.now.rows parent.now.rows) }
    ensures refused { IfErr result (FaultsReference (reference_of child.now.decl number) number child.now.rows parent.now.rows) }
{
    let reference = child.decl().references().at(number as usize - 1);
    let targets = parent.rows().as_slice();
    let order = key_order(alloc, targets, reference.keys.as_slice())?;
    let rows = child.rows().as_slice();
    match first_without_target(reference, rows, targets, order.as_slice()) {
        Some(lacking) => Err(DataBad::NoTarget(lacking + 1, number)),
        None => Ok(()),
    }
}

/// The number, from 0, of the first of the rows that has no target.
fn first_without_target(
    reference: &Reference,
    rows: &[Row],
    targets: &[Row],
    order: &[u32],
) -> Option<u32>
    requires few { length rows.now ≤ 2 ^ 24 }
    requires ordered { IsKeyOrder reference.now.keys targets.now order.now }
    ensures { MatchOption result (ReferenceHolds reference.now rows.now targets.now) (LacksTargetFirst reference.now rows.now targets.now) }
{
    for number in 0..rows.len() as u32 {
        if !has_target(reference, row_at(rows, number), targets, order) {
            return Some(number);
        }
    }
    None
}

/// Whether one of the targets, which are searched in the order of their keys, has the row's reference columns as its keys.
fn has_target(reference: &Reference, row: &[Value], targets: &[Row], order: &[u32]) -> bool
    requires { IsKeyOrder reference.now.keys targets.now order.now }
    ensures { result ≡ has_target reference.now targets.now row.now }
{
    let columns = reference.columns.as_slice();
    let keys = reference.keys.as_slice();
    order
        .binary_search_by(|target| compare_keys(row_at(targets, *target), keys, row, columns))
        .is_ok()
}
