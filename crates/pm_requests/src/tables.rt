//! The files of the tables of FROM.
ghost use Rattle.std.specs.Prelude.{◌≡◌, ◌≢◌, ◌≤◌, map, IfSome, IfOk, IfErr};
ghost use Rattle.pm_io.specs.Counts.{Rose};
ghost use Rattle.pm_plan.specs.Rows.{decls_of};
ghost use Rattle.pm_tables.specs.declared.fault.DataBad.TheVariants as bad;
ghost use Rattle.pm_requests.specs.declared.refusal.Role.TheVariants as role;
ghost use Rattle.pm_requests.specs.declared.refusal.Refusal.TheVariants as refusal;
ghost use Rattle.pm_requests.specs.Files.{TableGives, TableFile};
ghost use Rattle.pm_requests.specs.Tables.{TablesGive};
ghost use Rattle.pm_requests.specs.Calls.{IfRefused, IfAnswered};
ghost use Rattle.pm_requests.specs.Stops.{StopsAt, IsFileOf, IsTableFile, IsOfData};

use crate::files::read_file;
use crate::refusal::{Refusal, Role};
use pm_io::Files;
use pm_query::QueryTable;
use pm_tables::DataBad;
use pm_values::{Db, Gate, MOST_RECORDS, Table};
use std::alloc::Global;
use std::marker::Sync;
use std::thread::Threads;

/// The most bytes of a table's file.
const TABLE_LIMIT: u64 = 1 << 28;

/// The tables of FROM, each from its file, in their order. The first that is refused stops the loading.
pub(crate) fn load_tables<R: Threads + Sync, F: Files, G: Gate>(
    rt: &R,
    alloc: Global,
    tables: &[QueryTable],
    workers: u32,
    files: &mut F,
    gate: &G,
) -> Result<Db, Refusal>
    requires some { 1 ≤ workers }
    requires workers { workers ≤ 64 }
    ensures held { F.held files.new ≡ F.held files.old }
    ensures faults { F.faults files.old ≤ F.faults files.new }
    ensures absences { F.absences files.old ≤ F.absences files.new }
    ensures declared { IfOk result (λ db. decls_of db ≡ map (λ table. table.decl) tables.now) }
    ensures called { IfSome (F.held files.old) (λ held. IfAnswered (TablesGive held tables.now) result) }
    ensures stops { IfErr result (StopsAt (IsTableFile (F.held files.old) tables.now)
        (F.last files.new) (F.stand files.new) (Rose (F.absences files.old) (F.absences files.new)) (Rose (F.faults files.old) (F.faults files.new))) }
{
    let mut db = Db::new(alloc);
    for table in tables {
        match load_table(rt, alloc, table, workers, files, gate) {
            Ok(loaded) => db.push(loaded)?,
            Err(refusal) => return Err(refusal),
        }
    }
    Ok(db)
}

/// The table of FROM from its file.
fn load_table<R: Threads + Sync, F: Files, G: Gate>(
    rt: &R,
    alloc: Global,
    table: &QueryTable,
    workers: u32,
    files: &mut F,
    gate: &G,
) -> Result<Table, Refusal>
    requires some { 1 ≤ workers }
    requires workers { workers ≤ 64 }
    ensures held { F.held files.new ≡ F.held files.old }
    ensures faults { F.faults files.old ≤ F.faults files.new }
    ensures absences { F.absences files.old ≤ F.absences files.new }
    ensures declared { IfOk result (λ loaded. loaded.decl ≡ table.now.decl) }
    ensures called { IfSome (F.held files.old) (λ held. IfAnswered (TableFile held table.now) result) }
    ensures stops { IfErr result (StopsAt (IsFileOf (role.Table table.now.place) table.now.decl.file)
        (F.last files.new) (F.stand files.new) (Rose (F.absences files.old) (F.absences files.new)) (Rose (F.faults files.old) (F.faults files.new))) }
{
    match read_file(
        alloc,
        files,
        Role::Table(table.place),
        table.decl.file(),
        TABLE_LIMIT,
    )? {
        Some(bytes) => table_of(rt, alloc, table, bytes.as_slice(), workers, gate),
        None => Err(refused_table(alloc, table, DataBad::TooLong)),
    }
}

/// The table of FROM whose file has these bytes.
fn table_of<R: Threads + Sync, G: Gate>(
    rt: &R,
    alloc: Global,
    table: &QueryTable,
    bytes: &[u8],
    workers: u32,
    gate: &G,
) -> Result<Table, Refusal>
    requires some { 1 ≤ workers }
    requires workers { workers ≤ 64 }
    ensures declared { IfOk result (λ loaded. loaded.decl ≡ table.now.decl) }
    ensures called { IfAnswered (TableGives table.now bytes.now) result }
    ensures own { IfErr result IsOfData }
{
    match pm_load::load(
        rt,
        alloc,
        table.decl.copy(alloc)?,
        bytes,
        workers,
        MOST_RECORDS,
        gate,
    ) {
        Ok(loaded) => Ok(loaded),
        Err(DataBad::Memory) => Err(Refusal::NoMemory),
        Err(fault) => Err(refused_table(alloc, table, fault)),
    }
}

/// The refusal of a table of FROM; want of memory where there is none for the table's name.
pub(crate) fn refused_table(alloc: Global, table: &QueryTable, fault: DataBad) -> Refusal
    requires { fault ≢ bad.Memory }
    ensures refused { IfRefused (λ r. r ≡ refusal.Table table.now.place table.now.decl.name fault) result }
    ensures own { IsOfData result }
{
    match table.decl.name().copy(alloc) {
        Ok(name) => Refusal::Table {
            table: table.place,
            name,
            fault,
        },
        Err(_) => Refusal::NoMemory,
    }
}
