//! The bytes of a CSV file to the table of a declaration.
ghost use Rattle.std.specs.Prelude.{◌≡◌, ◌≤◌, ◌⊎◌, ◌^◌, ℕ, List, All, IfErr, IfOk, MatchResult, length};
ghost use Rattle.pm_values.specs.declared.value.Value.{Value};
ghost use Rattle.pm_values.specs.Table.{Declaration, FitsColumns};
ghost use Rattle.pm_tables.specs.declared.fault.DataBad.{DataBad};
ghost use Rattle.pm_tables.specs.Loading.{Faults, FaultsRecords, IsTable, WritesTable};
ghost use Rattle.pm_tables.specs.Reading.{FaultsFile};

use crate::fault::DataBad;
use crate::reading::{open, read_header};
use crate::streaming::type_all;
use crate::table::finish;
use csv::StringRecord;
use pm_values::{Rows, Table, TableDecl};
use std::alloc::Global;

/// The table of a declaration whose CSV file has these bytes and at most `most` records under its header.
///
/// It comes exactly where the bytes are such a table, and else the first fault, in this order: the file as a whole,
/// the first record that writes no row, a KEY that repeats, a row below the one before it by ORDER.
/// [`DataBad::TooLong`] is the caller's: no length is refused here.
pub fn load(alloc: Global, decl: TableDecl, bytes: &[u8], most: u32) -> Result<Table, DataBad>
    requires { most ≤ 2 ^ 24 }
    ensures loaded { IfOk result (λ table. (table.decl ≡ decl) × IsTable decl bytes.now most table.rows) }
    ensures refused { IfErr result (λ e. (e ≡ DataBad.Memory) ⊎ Faults decl bytes.now most e) }
    ensures table { (rows : List (List Value)) → IsTable decl bytes.now most rows
        → MatchResult result (λ table. table ≡ record { decl = decl; rows = rows }) (λ e. e ≡ DataBad.Memory) }
    ensures fault { (e : DataBad) → Faults decl bytes.now most e → MatchResult result (λ _. ⊥) (λ f. (f ≡ e) ⊎ (f ≡ DataBad.Memory)) }
{
    let rows = typed(alloc, &decl, bytes, most)?;
    finish(alloc, decl, rows)
}

/// The rows that the records of a file write.
fn typed(alloc: Global, decl: &TableDecl, bytes: &[u8], most: u32) -> Result<Rows, DataBad>
    ensures typed { IfOk result (WritesTable decl.now bytes.now most) }
    ensures fit { IfOk result (All (FitsColumns decl.now.columns)) }
    ensures few { IfOk result (λ rows. length rows ≤ most) }
    ensures refused { IfErr result (λ e. FaultsFile decl.now.columns bytes.now most e ⊎ FaultsRecords decl.now bytes.now most e) }
{
    let columns = decl.columns().as_slice();
    let mut reader = open(alloc, bytes);
    let mut record = StringRecord::new(alloc);
    read_header(&mut reader, &mut record, columns, bytes)?;
    type_all(alloc, columns, &mut reader, &mut record, most)
}
