//! The bytes of a CSV file to the table of a declaration, by one worker or more.
ghost use Rattle.std.specs.Prelude.{◌≡◌, ◌≤◌, ◌⊎◌, ◌^◌, ℕ, List, All, IfErr, IfOk, MatchResult, length};
ghost use Rattle.pm_values.specs.declared.value.Value.{Value};
ghost use Rattle.pm_values.specs.Table.{FitsColumns};
ghost use Rattle.pm_tables.specs.declared.fault.DataBad.{DataBad as Fault};
ghost use Rattle.pm_tables.specs.Reading.{FaultsFile};
ghost use Rattle.pm_tables.specs.Loading.{Faults, FaultsRecords, IsTable, WritesTable};

use crate::parts::type_parts;
use pm_tables::{DataBad, finish, records};
use pm_values::{Gate, Rows, Table, TableDecl};
use std::alloc::Global;
use std::marker::Sync;
use std::thread::Threads;

/// The table of a declaration whose CSV file has these bytes and at most `most` records under its header, with its records typed by so many
/// workers at once, each of which enters the gate as its part begins.
///
/// It comes exactly where the bytes are such a table, and else the first fault, in this order: the file as a whole, the first record that
/// writes no row, a KEY that repeats, a row below the one before it by ORDER. [`DataBad::TooLong`] is the caller's.
pub fn load<R: Threads + Sync, G: Gate>(
    rt: &R,
    alloc: Global,
    decl: TableDecl,
    bytes: &[u8],
    workers: u32,
    most: u32,
    gate: &G,
) -> Result<Table, DataBad>
    requires some { 1 ≤ workers }
    requires workers { workers ≤ 64 }
    requires most { most ≤ 2 ^ 24 }
    ensures loaded { IfOk result (λ table. (table.decl ≡ decl) × IsTable decl bytes.now most table.rows) }
    ensures refused { IfErr result (λ e. (e ≡ DataBad.Memory) ⊎ Faults decl bytes.now most e) }
    ensures table { (rows : List (List Value)) → IsTable decl bytes.now most rows
        → MatchResult result (λ table. table ≡ record { decl = decl; rows = rows }) (λ e. e ≡ DataBad.Memory) }
    ensures fault { (e : Fault) → Faults decl bytes.now most e → MatchResult result (λ _. ⊥) (λ f. (f ≡ e) ⊎ (f ≡ DataBad.Memory)) }
{
    if workers == 1 {
        // One worker types each record as it is read, and keeps no list of records.
        gate.enter(0);
        return pm_tables::load(alloc, decl, bytes, most);
    }
    let rows = typed(rt, alloc, &decl, bytes, workers, most, gate)?;
    finish(alloc, decl, rows)
}

/// The rows that the records of a file write.
fn typed<R: Threads + Sync, G: Gate>(
    rt: &R,
    alloc: Global,
    decl: &TableDecl,
    bytes: &[u8],
    workers: u32,
    most: u32,
    gate: &G,
) -> Result<Rows, DataBad>
    requires some { 1 ≤ workers }
    requires workers { workers ≤ 64 }
    ensures typed { IfOk result (WritesTable decl.now bytes.now most) }
    ensures fit { IfOk result (All (FitsColumns decl.now.columns)) }
    ensures few { IfOk result (λ rows. length rows ≤ most) }
    ensures refused { IfErr result (λ e. FaultsFile decl.now.columns bytes.now most e ⊎ FaultsRecords decl.now bytes.now most e) }
{
    let list = records(alloc, decl, bytes, most)?;
    type_parts(rt, alloc, decl, &list, workers, 0, workers, gate)
}
