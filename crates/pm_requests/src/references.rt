//! The references between the tables of FROM, those of a table to itself with them.
ghost use Rattle.std.specs.Prelude.{◌≡◌, ◌<◌, ◌≤◌, ◌↔◌, ℕ, All, Some, length, slice_get, IfOk, IfErr, IsTrue};
ghost use Rattle.pm_values.specs.References.{ReferenceHolds};
ghost use Rattle.pm_tables.specs.References.{reference_of};
ghost use Rattle.pm_requests.specs.References.{AllHold, HoldsBetween, IsFaultOf};
ghost use Rattle.pm_requests.specs.Checks.{HasFewReferences, FindsOfPair, FindsOfNumber, FindsOfTable, Finds};
ghost use Rattle.pm_requests.specs.Calls.{IfRefused};
ghost use Rattle.pm_requests.specs.Stops.{IsOfData};

use crate::refusal::Refusal;
use crate::tables::refused_table;
use pm_query::Query;
use pm_tables::{DataBad, check_reference};
use pm_values::{Db, Table};
use std::alloc::Global;

/// Checks the references between the tables of the query, by the referring table and then by number. The first that does not hold is
/// refused.
pub(crate) fn check_references(alloc: Global, query: &Query, db: &Db) -> Result<(), Refusal>
    requires few { All (λ table. HasFewReferences table.decl) db.now }
    requires each { length db.now ≤ length query.now.tables }
    ensures kept { IfOk result (λ _. AllHold db.now) }
    ensures refused { IfErr result (IfRefused (IsFaultOf query.now db.now)) }
    ensures own { IfErr result IsOfData }
{
    match check_all(alloc, db) {
        Ok(()) => Ok(()),
        Err((_, DataBad::Memory)) => Err(Refusal::NoMemory),
        Err((position, fault)) => Err(refused_table(alloc, query.tables.at(position), fault)),
    }
}

/// Checks the references between all tables. A fault comes with the position of its table.
fn check_all(alloc: Global, db: &Db) -> Result<(), (usize, DataBad)>
    requires { All (λ table. HasFewReferences table.decl) db.now }
    ensures kept { IfOk result (λ _. AllHold db.now) }
    ensures refused { IfErr result (λ found. Finds db.now found.0 found.1) }
    ensures within { IfErr result (λ found. found.0 < length db.now) }
{
    for i in 0..db.len() {
        if let Err(fault) = check_table(alloc, db, i, db.at(i)) {
            return Err((i, fault));
        }
    }
    Ok(())
}

/// Checks the references of the table at this position.
fn check_table(alloc: Global, db: &Db, i: usize, child: &Table) -> Result<(), DataBad>
    requires there { slice_get db.now i ≡ Some child.now }
    requires few { HasFewReferences child.now.decl }
    ensures kept { IfOk result (λ _. (number j : ℕ) → HoldsBetween db.now i number j) }
    ensures refused { IfErr result (FindsOfTable db.now i) }
{
    let count = child.decl().references().len() as u32;
    for earlier in 0..count {
        check_number(alloc, db, i, child, earlier + 1)?;
    }
    Ok(())
}

/// Checks the reference with this number, from 1, of the table at this position.
fn check_number(alloc: Global, db: &Db, i: usize, child: &Table, number: u32) -> Result<(), DataBad>
    requires there { slice_get db.now i ≡ Some child.now }
    requires from { 1 ≤ number }
    requires to { number ≤ length child.now.decl.references }
    ensures kept { IfOk result (λ _. (j : ℕ) → HoldsBetween db.now i number j) }
    ensures refused { IfErr result (FindsOfNumber db.now i number) }
{
    for j in 0..db.len() {
        check_pair(alloc, child, number, db.at(j))?;
    }
    Ok(())
}

/// Checks the reference with this number of the child, where it points to this table.
fn check_pair(alloc: Global, child: &Table, number: u32, parent: &Table) -> Result<(), DataBad>
    requires from { 1 ≤ number }
    requires to { number ≤ length child.now.decl.references }
    ensures kept { IfOk result (λ _. (reference_of child.now.decl number).target ≡ parent.now.decl.name
        → ReferenceHolds (reference_of child.now.decl number) child.now.rows parent.now.rows) }
    ensures refused { IfErr result (FindsOfPair child.now number parent.now) }
{
    if points_to(child, number, parent) {
        check_reference(alloc, child, number, parent)
    } else {
        Ok(())
    }
}

/// Whether the reference with this number of the child points to this table.
fn points_to(child: &Table, number: u32, parent: &Table) -> bool
    requires from { 1 ≤ number }
    requires to { number ≤ length child.now.decl.references }
    ensures { IsTrue result ↔ ((reference_of child.now.decl number).target ≡ parent.now.decl.name) }
{
    let reference = child.decl().references().at(number as usize - 1);
    reference.target.as_str() == parent.decl().name().as_str()
}
