//! The commands that `clap` reads the words by, one for each verb.
ghost use Rattle.std.specs.Prelude.{◌≡◌, ◌≢◌, IfOk, IsErrOf, [], false, true};
ghost use Rattle.clap.specs.Walk.{rule_of, rows_of};
ghost use Rattle.clap.specs.Simple.{app_of, matches_of};
ghost use Rattle.clap.specs.Faults.{fault_of, is_simple_and_free};
ghost use Rattle.clap.specs.Matches.{found_of};
ghost use Rattle.pm_words.specs.Commands.{position_rule, option_rule, bare_app, run_app, explain_app, demo_app};
ghost use Rattle.pm_words.specs.Settings.{command_by_verb, texts_in};

use crate::settings::{Verb, WordsBad};
use clap::error::ErrorKind;
use clap::{Arg, ArgMatches, Command};
use std::alloc::{AllocError, Global};

/// A word that has to stand at its position.
fn position<'a>(alloc: Global, id: &'a str) -> Arg<'a>
    ensures rule { rule_of result ≡ position_rule id.entry.now }
    ensures local { result.global ≡ false }
{
    Arg::new(alloc, id).required(true)
}

/// An option with one value, and the value where it is not given.
fn option<'a>(alloc: Global, id: &'a str, value: &'a str) -> Arg<'a>
    ensures rule { rule_of result ≡ option_rule id.entry.now value.entry.now }
    ensures local { result.global ≡ false }
{
    Arg::new(alloc, id).long(id).default_value(value)
}

/// A command without flags of its own.
fn bare<'a>(alloc: Global, name: &'a str) -> Command<'a>
    ensures { app_of result ≡ bare_app name.entry.now }
{
    Command::new(alloc, name).disable_help_flag(true)
}

fn run_command<'a>(alloc: Global) -> Result<Command<'a>, AllocError>
    ensures { IfOk result (λ c. app_of c ≡ run_app) }
{
    bare(alloc, "run")
        .arg(position(alloc, "schema"))?
        .arg(position(alloc, "query"))?
        .arg(option(alloc, "every", "1"))?
        .arg(option(alloc, "join", "auto"))?
        .arg(option(alloc, "progress", "on"))?
        .arg(option(alloc, "workers", "1"))
}

fn explain_command<'a>(alloc: Global) -> Result<Command<'a>, AllocError>
    ensures { IfOk result (λ c. app_of c ≡ explain_app) }
{
    bare(alloc, "explain")
        .arg(position(alloc, "schema"))?
        .arg(position(alloc, "query"))?
        .arg(option(alloc, "join", "auto"))?
        .arg(option(alloc, "workers", "1"))
}

fn demo_command<'a>(alloc: Global) -> Result<Command<'a>, AllocError>
    ensures { IfOk result (λ c. app_of c ≡ demo_app) }
{
    bare(alloc, "demo")
        .arg(position(alloc, "size"))?
        .arg(option(alloc, "workers", "1"))
}

/// The command of a verb.
#[tactic(auto, unfolding(crate::specs::Settings::command_by_verb))]
pub fn command_of<'a>(alloc: Global, verb: Verb) -> Result<Command<'a>, AllocError>
    ensures { IfOk result (λ c. app_of c ≡ command_by_verb verb) }
{
    match verb {
        Verb::Run => run_command(alloc),
        Verb::Explain => explain_command(alloc),
        Verb::Demo => demo_command(alloc),
    }
}

/// The matches of the words by a command; Usage where it has a fault to find with them.
pub fn matches_by<'a>(
    command: Command<'a>,
    words: &'a [&'a str],
) -> Result<ArgMatches<'a>, WordsBad>
    requires { is_simple_and_free (app_of command) ≡ true }
    ensures values { IfOk result (λ m. rows_of (found_of m) ≡ matches_of (app_of command.entry) (texts_in words.entry.now)) }
    ensures taken { IfOk result (λ _. fault_of (app_of command.entry) (texts_in words.entry.now) ≡ []) }
    ensures refused { IsErrOf result WordsBad.Usage → fault_of (app_of command.entry) (texts_in words.entry.now) ≢ [] }
{
    match command.try_get_matches_from(words) {
        Ok(matches) => Ok(matches),
        Err(error) => match error.kind() {
            ErrorKind::OutOfMemory => Err(WordsBad::Memory),
            _ => Err(WordsBad::Usage),
        },
    }
}
