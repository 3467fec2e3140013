//! The files of the schema and of the query, and the statement bound to the schema.
ghost use Rattle.std.specs.Prelude.{◌≡◌, ◌<◌, ◌≤◌, ◌^◌, List, ℕ, length, None, Ok, All, IfSome, IfOk, IfErr, option_map};
ghost use Rattle.pm_io.specs.Counts.{Rose};
ghost use Rattle.pm_requests.specs.declared.refusal.Role.TheVariants as role;
ghost use Rattle.pm_requests.specs.Texts.{SchemaText, SelectText};
ghost use Rattle.pm_requests.specs.Files.{SchemaFile, QueryFile, Binds};
ghost use Rattle.pm_requests.specs.Calls.{IfAnswered};
ghost use Rattle.pm_requests.specs.Stops.{OnNoFile, StopsAt, IsFileOf, IsRead, IsOfReading, IsOfData};

use crate::refusal::{Refusal, Role};
use crate::texts::{Fault, TextBad, query_of, schema_of, select_of};
use pm_io::{Files, ReadOut, read_whole};
use pm_query::Query;
use pm_refusals::Word;
use pm_schema::Schema;
use pm_syntax::Select;
use pm_values::Txt;
use std::alloc::Global;

/// The most bytes of a schema's or a query's file.
const TEXT_LIMIT: u64 = 65_536;

/// The refusal of a text that is longer than its limit.
const TOO_LONG: Fault = Fault {
    word: Word::TooLong,
    at: TEXT_LIMIT,
};

/// The schema of the file of this name.
pub(crate) fn load_schema<F: Files>(
    alloc: Global,
    files: &mut F,
    name: &Txt,
) -> Result<Schema, Refusal>
    ensures held { F.held files.new ≡ F.held files.old }
    ensures faults { F.faults files.old ≤ F.faults files.new }
    ensures absences { F.absences files.old ≤ F.absences files.new }
    ensures few { IfOk result (λ decls. length decls ≤ 64) }
    ensures declared { IfOk result (λ decls. (bytes : List ℕ) × SchemaText bytes (Ok decls)) }
    ensures called { IfSome (F.held files.old) (λ held. IfAnswered (SchemaFile held name.now) result) }
    ensures stops { IfErr result (StopsAt (IsFileOf role.Schema name.now)
        (F.last files.new) (F.stand files.new) (Rose (F.absences files.old) (F.absences files.new)) (Rose (F.faults files.old) (F.faults files.new))) }
{
    let Some(bytes) = read_file(alloc, files, Role::Schema, name, TEXT_LIMIT)? else {
        return Err(Refusal::Schema(TOO_LONG));
    };
    match schema_of(alloc, bytes.as_slice()) {
        Ok(schema) => Ok(schema),
        Err(TextBad::Fault(fault)) => Err(Refusal::Schema(fault)),
        Err(TextBad::Memory) => Err(Refusal::NoMemory),
    }
}

/// The statement of the file of this name.
pub(crate) fn load_select<F: Files>(
    alloc: Global,
    files: &mut F,
    name: &Txt,
) -> Result<Select, Refusal>
    ensures held { F.held files.new ≡ F.held files.old }
    ensures faults { F.faults files.old ≤ F.faults files.new }
    ensures absences { F.absences files.old ≤ F.absences files.new }
    ensures read { IfOk result (λ select. (bytes : List ℕ) × SelectText bytes (Ok select)) }
    ensures called { IfSome (F.held files.old) (λ held. IfAnswered (QueryFile held name.now) result) }
    ensures stops { IfErr result (StopsAt (IsFileOf role.Query name.now)
        (F.last files.new) (F.stand files.new) (Rose (F.absences files.old) (F.absences files.new)) (Rose (F.faults files.old) (F.faults files.new))) }
{
    let Some(bytes) = read_file(alloc, files, Role::Query, name, TEXT_LIMIT)? else {
        return Err(Refusal::Query(TOO_LONG));
    };
    match select_of(alloc, bytes.as_slice()) {
        Ok(select) => Ok(select),
        Err(TextBad::Fault(fault)) => Err(Refusal::Query(fault)),
        Err(TextBad::Memory) => Err(Refusal::NoMemory),
    }
}

/// The query that a statement is bound to over the schema.
pub(crate) fn bind_select(alloc: Global, decls: &Schema, select: &Select) -> Result<Query, Refusal>
    requires { length decls.now ≤ 64 }
    ensures called { IfAnswered (Binds decls.now select.now) result }
    ensures own { IfErr result IsOfData }
{
    match query_of(alloc, select, decls) {
        Ok(query) => Ok(query),
        Err(TextBad::Fault(fault)) => Err(Refusal::Binding(fault)),
        Err(TextBad::Memory) => Err(Refusal::NoMemory),
    }
}

/// The bytes of a file; None where there are more than `limit`.
pub(crate) fn read_file<F: Files>(
    alloc: Global,
    files: &mut F,
    role: Role,
    name: &Txt,
    limit: u64,
) -> Result<Option<Vec<u8>>, Refusal>
    requires { limit ≤ 2 ^ 32 }
    ensures held { F.held files.new ≡ F.held files.old }
    ensures faults { F.faults files.old ≤ F.faults files.new }
    ensures absences { F.absences files.old ≤ F.absences files.new }
    ensures read { IfOk result (λ found. IfSome (F.held files.old) (λ held. IsRead (held name.now) limit (option_map (λ bytes. bytes.items) found))) }
    ensures gone { IfErr result (OnNoFile (IfSome (F.held files.old) (λ held. held name.now ≡ None))) }
    ensures stops { IfErr result (StopsAt (IsFileOf role name.now)
        (F.last files.new) (F.stand files.new) (Rose (F.absences files.old) (F.absences files.new)) (Rose (F.faults files.old) (F.faults files.new))) }
    ensures others { IfErr result IsOfReading }
{
    let kept = name.copy(alloc)?;
    match read_whole(alloc, files, name.copy(alloc)?, limit) {
        Ok(bytes) => Ok(Some(bytes)),
        Err(ReadOut::TooLong) => Ok(None),
        Err(ReadOut::Absent) => Err(Refusal::NoFile { role, name: kept }),
        Err(ReadOut::Failed) => Err(Refusal::ReadFault { role, name: kept }),
        Err(ReadOut::Memory) => Err(Refusal::NoMemory),
    }
}
