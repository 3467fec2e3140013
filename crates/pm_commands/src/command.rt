//! The command that words call for.
ghost use Rattle.std.specs.Prelude.{◌≡◌, None, Some, IfOk, IfErr, IsErrOf, ◌⊎◌};
ghost use Rattle.pm_words.specs.Settings.{IsInRange};
ghost use Rattle.pm_commands.specs.declared.stop.Stop.TheVariants as stop;
ghost use Rattle.pm_commands.specs.Stops.{memory};
ghost use Rattle.pm_commands.specs.Commands.{command_in, command_of, CanRun};

use crate::stop::Stop;
use pm_query::Choice;
use pm_values::Txt;
use pm_words::{Settings, WordsBad, read_words};
use std::alloc::{AllocError, Global};

/// What is written of a plan.
#[derive(Clone, Copy, Debug, PartialEq, Eq)]
pub enum Output {
    /// The text of its run, with a progress line after each so many events and at the last, or with none.
    Run(Option<u64>),
    /// What is known of it before it runs.
    Explain,
}

/// What a command asks for: the files of the schema and of the statement, how sources are joined, how many workers load a
/// table, what is written, and how many customers a demo has where the files are a demo's.
#[derive(Debug, Drop)]
pub struct Command {
    pub schema: Txt,
    pub query: Txt,
    pub join: Choice,
    pub workers: u32,
    pub output: Output,
    pub customers: Option<u32>,
}

/// The command that the words call for. `Usage` comes where they call for none.
pub fn read_command(alloc: Global, words: &[Txt]) -> Result<Command, Stop>
    ensures command { IfOk result (λ command. command_in words.now ≡ Some command) }
    ensures able { IfOk result CanRun }
    ensures none { IsErrOf result stop.Usage → command_in words.now ≡ None }
    ensures others { IfErr result (λ e. (e ≡ stop.Usage) ⊎ (e ≡ memory)) }
{
    match read_words(alloc, words) {
        Ok(settings) => match command_of(alloc, settings) {
            Ok(command) => Ok(command),
            Err(_) => Err(Stop::memory()),
        },
        Err(WordsBad::Usage) => Err(Stop::Usage),
        Err(WordsBad::Memory) => Err(Stop::memory()),
    }
}

/// The command of settings.
fn command_of(alloc: Global, settings: Settings) -> Result<Command, AllocError>
    requires { IsInRange settings }
    ensures command { IfOk result (λ command. command ≡ command_of settings) }
    ensures able { IfOk result CanRun }
{
    match settings {
        Settings::Run(run) => Ok(Command {
            schema: run.schema,
            query: run.query,
            join: run.join,
            workers: run.workers as u32,
            output: Output::Run(if run.progress { Some(run.every) } else { None }),
            customers: None,
        }),
        Settings::Explain(explain) => Ok(Command {
            schema: explain.schema,
            query: explain.query,
            join: explain.join,
            workers: explain.workers as u32,
            output: Output::Explain,
            customers: None,
        }),
        Settings::Demo(demo) => Ok(Command {
            schema: Txt::new(alloc, "demo.schema")?,
            query: Txt::new(alloc, "demo.sql")?,
            join: Choice::Auto,
            workers: demo.workers as u32,
            output: Output::Run(Some(u64::MAX)),
            customers: Some(demo.size as u32),
        }),
    }
}
