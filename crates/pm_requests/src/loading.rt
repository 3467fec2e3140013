//! A request from the files of its schema, its query and its tables.
//!
//! The order is: the schema's file, the query's file, the binding, the tables of FROM in the order in which they first appear
//! there, the references between them. The first that is not in order stops the loading.
ghost use Rattle.std.specs.Prelude.{◌≡◌, ◌≤◌, ◌⊎◌, Result, IfSome, IfOk, IfErr, IsErrOf};
ghost use Rattle.pm_io.specs.declared.stand.Stand.TheVariants as stand;
ghost use Rattle.pm_io.specs.Counts.{Rose};
ghost use Rattle.pm_plan.specs.Rows.{decls_of};
ghost use Rattle.pm_query.specs.Build.{decls_in};
ghost use Rattle.pm_requests.specs.declared.refusal.Refusal.{Refusal as Refused};
ghost use Rattle.pm_requests.specs.declared.refusal.Refusal.TheVariants as refusal;
ghost use Rattle.pm_requests.specs.declared.request.Request.{Request as Asked};
ghost use Rattle.pm_requests.specs.References.{Completes};
ghost use Rattle.pm_requests.specs.Calls.{Asks, Calls, IfAnswered, HasFault};
ghost use Rattle.pm_requests.specs.Requests.{IsAsked, IsSound};
ghost use Rattle.pm_requests.specs.Stops.{OnNoFile, OnReadFault, IfFile, StopsAt, IsOfData, Reaches};

use crate::files::{bind_select, load_schema, load_select};
use crate::references::check_references;
use crate::refusal::Refusal;
use crate::request::Request;
use crate::tables::load_tables;
use pm_io::Files;
use pm_query::Query;
use pm_values::{Db, Gate, Txt};
use pm_work::tables_are_declared;
use std::alloc::Global;
use std::marker::Sync;
use std::thread::Threads;

/// The request of the schema's and the query's file of these names, with the records of each table typed by so many workers at once.
///
/// Each refusal comes for the first in the order that is absent, fails, or is not in order.
pub fn load<R: Threads + Sync, F: Files, G: Gate>(
    rt: &R,
    alloc: Global,
    schema: &Txt,
    query: &Txt,
    workers: u32,
    files: &mut F,
    gate: &G,
) -> Result<Request, Refusal>
    requires some { 1 ≤ workers }
    requires workers { workers ≤ 64 }
    ensures held { F.held files.new ≡ F.held files.old }
    ensures faults { F.faults files.old ≤ F.faults files.new }
    ensures absences { F.absences files.old ≤ F.absences files.new }

    // What is loaded is bound, and its tables are as declared.
    ensures sound { IfOk result IsSound }

    // Where the files' bytes are told, an answer is what they call for. What they call for is answered, unless memory was
    // wanted or a file could not be read.
    ensures called { IfSome (F.held files.old) (λ held. IfAnswered (Calls held schema.now query.now) result) }
    ensures only { IfSome (F.held files.old) (λ held. (out : Result Asked Refused) → Calls held schema.now query.now out
        → IfAnswered (λ given. given ≡ out) result) }
    ensures complete { IfSome (F.held files.old) (λ held. (out : Result Asked Refused) → Calls held schema.now query.now out
        → ¬ (Rose (F.faults files.old) (F.faults files.new)) → (result ≡ out) ⊎ IsErrOf result refusal.NoMemory) }
    ensures at_fault { IfErr result HasFault }

    // The file that is absent or could not be read is the one that was begun last, and it was its turn.
    ensures reached { IfErr result (IfFile (Reaches (F.held files.old) schema.now query.now)) }
    ensures last { IfErr result (IfFile (λ _ name. F.last files.new ≡ name)) }
    ensures absent { IfErr result (OnNoFile (Rose (F.absences files.old) (F.absences files.new))) }
    ensures absent_stands { IfErr result (OnNoFile (F.stand files.new ≡ stand.Absent)) }
    ensures failed { IfErr result (OnReadFault (Rose (F.faults files.old) (F.faults files.new))) }
    ensures failed_stands { IfErr result (OnReadFault (F.stand files.new ≡ stand.Broken)) }
{
    load_all(rt, alloc, schema, query, workers, files, gate)
}

fn load_all<R: Threads + Sync, F: Files, G: Gate>(
    rt: &R,
    alloc: Global,
    schema: &Txt,
    query: &Txt,
    workers: u32,
    files: &mut F,
    gate: &G,
) -> Result<Request, Refusal>
    requires some { 1 ≤ workers }
    requires workers { workers ≤ 64 }
    ensures held { F.held files.new ≡ F.held files.old }
    ensures faults { F.faults files.old ≤ F.faults files.new }
    ensures absences { F.absences files.old ≤ F.absences files.new }
    ensures sound { IfOk result IsSound }
    ensures called { IfSome (F.held files.old) (λ held. IfAnswered (Calls held schema.now query.now) result) }
    ensures stops { IfErr result (StopsAt (Reaches (F.held files.old) schema.now query.now)
        (F.last files.new) (F.stand files.new) (Rose (F.absences files.old) (F.absences files.new)) (Rose (F.faults files.old) (F.faults files.new))) }
{
    let query = load_query(alloc, files, schema, query)?;
    match load_tables(rt, alloc, query.tables.as_slice(), workers, files, gate) {
        Ok(db) => completed(alloc, query, db),
        Err(refusal) => Err(refusal),
    }
}

/// The query with its tables, where the references between these hold.
fn completed(alloc: Global, query: Query, db: Db) -> Result<Request, Refusal>
    requires asked { IsAsked query }
    requires declared { decls_of db ≡ decls_in query }
    ensures sound { IfOk result IsSound }
    ensures called { IfAnswered (Completes query db) result }
    ensures own { IfErr result IsOfData }
{
    tables_are_declared(&db);
    check_references(alloc, &query, &db)?;
    Ok(Request { query, db })
}

/// The query that the files of these names ask for.
fn load_query<F: Files>(
    alloc: Global,
    files: &mut F,
    schema: &Txt,
    query: &Txt,
) -> Result<Query, Refusal>
    ensures held { F.held files.new ≡ F.held files.old }
    ensures faults { F.faults files.old ≤ F.faults files.new }
    ensures absences { F.absences files.old ≤ F.absences files.new }
    ensures asked { IfOk result IsAsked }
    ensures called { IfSome (F.held files.old) (λ held. IfAnswered (Asks held schema.now query.now) result) }
    ensures stops { IfErr result (StopsAt (Reaches (F.held files.old) schema.now query.now)
        (F.last files.new) (F.stand files.new) (Rose (F.absences files.old) (F.absences files.new)) (Rose (F.faults files.old) (F.faults files.new))) }
{
    let decls = load_schema(alloc, files, schema)?;
    let select = load_select(alloc, files, query)?;
    bind_select(alloc, &decls, &select)
}
