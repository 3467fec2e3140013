//! A command's request and its plan, from the words and the files.
ghost use Rattle.std.specs.Prelude.{◌≡◌, ◌≢◌, ◌≤◌, ◌⊎◌, None, Some, Err, Result, IfSome, IfOk, IfErr};
ghost use Rattle.pm_io.specs.Counts.{Rose};
ghost use Rattle.pm_build.specs.Built.{built};
ghost use Rattle.pm_work.specs.Fits.{sizes_of};
ghost use Rattle.pm_requests.specs.Requests.{IsSound};
ghost use Rattle.pm_requests.specs.Calls.{HasFault};
ghost use Rattle.pm_requests.specs.Stops.{IfFile, Reaches};
ghost use Rattle.pm_commands.specs.declared.preparing.Prepared.{Prepared as Planned};
ghost use Rattle.pm_commands.specs.declared.stop.Stop.{Stop as Stopped};
ghost use Rattle.pm_commands.specs.declared.stop.Stop.TheVariants as stop;
ghost use Rattle.pm_commands.specs.Commands.{command_in, told, demo_held, CanRun, CanWrite, OnOwn, OnDemo};
ghost use Rattle.pm_commands.specs.Calls.{Asks, Calls, ReachesBy, planned};
ghost use Rattle.pm_commands.specs.Certified.{IsReady};
ghost use Rattle.pm_commands.specs.Stops.{memory, IfCalled, IfRequest, IsOfPlan, IsNoReadFault, StopsIn};

use crate::command::{Command, Output, read_command};
use crate::demo::demo_files;
use crate::stop::Stop;
use pm_build::{BuildBad, build};
use pm_io::Files;
use pm_plan::Plan;
use pm_query::Choice;
use pm_requests::{Request, load};
use pm_values::{Db, Gate, Txt};
use std::alloc::{AllocError, Global};
use std::marker::Sync;
use std::thread::Threads;

/// What a command writes: this output of the plan of its request.
#[derive(Debug, Drop)]
pub struct Prepared {
    pub request: Request,
    pub plan: Plan,
    pub output: Output,
}

/// What the words and the files call for: a plan with its request and output, or the first refusal in the order of reading. A demo's
/// files are its own, and the call's are not touched.
pub fn prepare<R: Threads + Sync, F: Files, G: Gate>(
    rt: &R,
    alloc: Global,
    words: &[Txt],
    files: &mut F,
    gate: &G,
) -> Result<Prepared, Stop>
    ensures held { F.held files.new ≡ F.held files.old }
    ensures faults { F.faults files.old ≤ F.faults files.new }
    ensures absences { F.absences files.old ≤ F.absences files.new }
    ensures untouched { OnDemo (command_in words.now) (files.new ≡ files.old) }

    // What is prepared fits its tables, and its rows are those that the query asks for.
    ensures ready { IfOk result IsReady }

    // Where the files' bytes are told, an answer is what words and files call for, unless memory was wanted or a file could not
    // be read.
    ensures called { IfSome (told (command_in words.now) (F.held files.old)) (λ held. IfCalled (Calls words.now held) result) }
    ensures only { IfSome (told (command_in words.now) (F.held files.old)) (λ held. (out : Result Planned Stopped) → Calls words.now held out
        → IfCalled (λ given. given ≡ out) result) }
    ensures usage { command_in words.now ≡ None → (result ≡ Err stop.Usage) ⊎ (result ≡ Err memory) }
    ensures only_usage { result ≡ Err stop.Usage → command_in words.now ≡ None }

    // The file that is absent or could not be read is the one that was begun last, and it was its turn. A demo's files are read.
    ensures reached { IfErr result (IfRequest (IfFile (ReachesBy (command_in words.now) (told (command_in words.now) (F.held files.old))))) }
    ensures stops { OnOwn (command_in words.now) (IfErr result (IfRequest (StopsIn (F.last files.new) (F.stand files.new)
        (Rose (F.absences files.old) (F.absences files.new)) (Rose (F.faults files.old) (F.faults files.new))))) }
    ensures read { OnDemo (command_in words.now) (IfErr result (IfRequest IsNoReadFault)) }
    ensures at_fault { IfErr result (IfRequest HasFault) }
{
    let command = read_command(alloc, words)?;
    match command.customers {
        None => prepare_from(rt, alloc, &command, files, gate),
        Some(customers) => prepare_demo(rt, alloc, &command, customers, gate),
    }
}

/// What a command over the files of its demo calls for.
fn prepare_demo<R: Threads + Sync, G: Gate>(
    rt: &R,
    alloc: Global,
    command: &Command,
    customers: u32,
    gate: &G,
) -> Result<Prepared, Stop>
    requires able { CanRun command.now }
    requires some { 1 ≤ customers }
    requires few { customers ≤ 100000 }
    ensures ready { IfOk result IsReady }
    ensures called { IfCalled (Asks command.now (demo_held customers)) result }
    ensures known { result ≢ Err stop.Usage }
    ensures reached { IfErr result (IfRequest (IfFile (Reaches (Some (demo_held customers)) command.now.schema command.now.query))) }
    ensures read { IfErr result (IfRequest IsNoReadFault) }
    ensures at_fault { IfErr result (IfRequest HasFault) }
{
    match demo_files(alloc, customers) {
        Ok(mut files) => prepare_from(rt, alloc, command, &mut files, gate),
        Err(_) => Err(Stop::memory()),
    }
}

/// What a command over these files calls for.
fn prepare_from<R: Threads + Sync, F: Files, G: Gate>(
    rt: &R,
    alloc: Global,
    command: &Command,
    files: &mut F,
    gate: &G,
) -> Result<Prepared, Stop>
    requires able { CanRun command.now }
    ensures held { F.held files.new ≡ F.held files.old }
    ensures faults { F.faults files.old ≤ F.faults files.new }
    ensures absences { F.absences files.old ≤ F.absences files.new }
    ensures ready { IfOk result IsReady }
    ensures called { IfSome (F.held files.old) (λ held. IfCalled (Asks command.now held) result) }
    ensures known { result ≢ Err stop.Usage }
    ensures reached { IfErr result (IfRequest (IfFile (Reaches (F.held files.old) command.now.schema command.now.query))) }
    ensures stops { IfErr result (IfRequest (StopsIn (F.last files.new) (F.stand files.new)
        (Rose (F.absences files.old) (F.absences files.new)) (Rose (F.faults files.old) (F.faults files.new)))) }
    ensures at_fault { IfErr result (IfRequest HasFault) }
{
    match load(
        rt,
        alloc,
        &command.schema,
        &command.query,
        command.workers,
        files,
        gate,
    ) {
        Ok(request) => plan_request(alloc, request, command.join, command.output),
        Err(refusal) => Err(Stop::Request(refusal)),
    }
}

/// A request with its plan.
fn plan_request(
    alloc: Global,
    request: Request,
    join: Choice,
    output: Output,
) -> Result<Prepared, Stop>
    requires sound { IsSound request }
    requires output { CanWrite output }
    ensures planned { (result ≡ planned output request (built request.query (sizes_of request.db) join)) ⊎ (result ≡ Err memory) }
    ensures ready { IfOk result IsReady }
    ensures known { result ≢ Err stop.Usage }
    ensures data { IfErr result IsOfPlan }
{
    let Ok(sizes) = sizes_of(alloc, &request.db) else {
        return Err(Stop::memory());
    };
    match build(alloc, &request.query, sizes.as_slice(), join) {
        Ok(plan) => Ok(Prepared {
            request,
            plan,
            output,
        }),
        Err(BuildBad::TooWide(bound)) => Err(Stop::TooWide(bound)),
        Err(BuildBad::Memory) => Err(Stop::memory()),
    }
}

/// The sizes of the tables, in rows.
fn sizes_of(alloc: Global, db: &Db) -> Result<Vec<u64>, AllocError>
    ensures { IfOk result (λ sizes. sizes.items ≡ sizes_of db.now) }
{
    let mut sizes = Vec::with_capacity(alloc, db.len())?;
    for table in db.as_slice() {
        sizes.push(table.rows().len() as u64)?;
    }
    Ok(sizes)
}
