//! Settings from the matches of `clap`, and from the words.
ghost use Rattle.std.specs.Prelude.{◌≡◌, ◌≤◌, IfOk, IfSome, option_map};
ghost use Rattle.clap.specs.Walk.{rows_of};
ghost use Rattle.clap.specs.Matches.{found_of};
ghost use Rattle.pm_words.specs.declared.settings.Settings.TheVariants as settings;
ghost use Rattle.pm_words.specs.Settings.{IsInRange, Reads, choice_at, choice_of, demo_of, explain_of, number, number_at, read_by, run_of, settings_of, switch_at, switch_of, texts_in, value_of, verb_in};

use crate::command::{command_of, matches_by};
use crate::settings::{DemoSettings, ExplainSettings, RunSettings, Settings, Verb, WordsBad};
use clap::ArgMatches;
use pm_query::Choice;
use pm_values::Txt;
use std::alloc::{AllocError, Global};

/// The most workers that may be asked for.
const MOST_WORKERS: u64 = 64;

/// The most customers that a demo has.
const MOST_CUSTOMERS: u64 = 100_000;

/// The one value of an argument.
fn only_value<'a>(matches: &ArgMatches<'a>, id: &str) -> Option<&'a str>
    ensures { option_map (λ t. t.now) result ≡ value_of id.now (rows_of (found_of matches.now)) }
{
    let values = matches.get_raw(id)?;
    if values.len() == 1 {
        Some(values[0])
    } else {
        None
    }
}

fn text_value(alloc: Global, matches: &ArgMatches, id: &str) -> Result<Txt, WordsBad>
    ensures { Reads result (value_of id.now (rows_of (found_of matches.now))) }
{
    let Some(text) = only_value(matches, id) else {
        return Err(WordsBad::Usage);
    };
    match Txt::new(alloc, text) {
        Ok(text) => Ok(text),
        Err(_) => Err(WordsBad::Memory),
    }
}

/// The number that a text writes, if it lies in the bounds.
fn number(text: &str, low: u64, high: u64) -> Option<u64>
    ensures number { result ≡ number low high text.now }
    ensures range { IfSome result (λ n. (low ≤ n) × (n ≤ high)) }
{
    match text.parse::<u64>() {
        Ok(n) if low <= n && n <= high => Some(n),
        _ => None,
    }
}

fn number_value(matches: &ArgMatches, id: &str, low: u64, high: u64) -> Result<u64, WordsBad>
    ensures value { Reads result (number_at id.now low high (rows_of (found_of matches.now))) }
    ensures range { IfOk result (λ n. (low ≤ n) × (n ≤ high)) }
{
    let Some(text) = only_value(matches, id) else {
        return Err(WordsBad::Usage);
    };
    match number(text, low, high) {
        Some(n) => Ok(n),
        None => Err(WordsBad::Usage),
    }
}

fn choice(text: &str) -> Option<Choice>
    ensures { result ≡ choice_of text.now }
{
    match text {
        "auto" => Some(Choice::Auto),
        "hash" => Some(Choice::Hash),
        "merge" => Some(Choice::Merge),
        "index" => Some(Choice::Index),
        _ => None,
    }
}

fn choice_value(matches: &ArgMatches, id: &str) -> Result<Choice, WordsBad>
    ensures { Reads result (choice_at id.now (rows_of (found_of matches.now))) }
{
    let Some(text) = only_value(matches, id) else {
        return Err(WordsBad::Usage);
    };
    match choice(text) {
        Some(join) => Ok(join),
        None => Err(WordsBad::Usage),
    }
}

fn switch(text: &str) -> Option<bool>
    ensures { result ≡ switch_of text.now }
{
    match text {
        "on" => Some(true),
        "off" => Some(false),
        _ => None,
    }
}

fn switch_value(matches: &ArgMatches, id: &str) -> Result<bool, WordsBad>
    ensures { Reads result (switch_at id.now (rows_of (found_of matches.now))) }
{
    let Some(text) = only_value(matches, id) else {
        return Err(WordsBad::Usage);
    };
    match switch(text) {
        Some(on) => Ok(on),
        None => Err(WordsBad::Usage),
    }
}

#[tactic(auto, unfolding(crate::specs::Settings::run_of))]
fn run_settings(alloc: Global, matches: &ArgMatches) -> Result<RunSettings, WordsBad>
    ensures settings { Reads result (run_of (rows_of (found_of matches.now))) }
    ensures range { IfOk result (λ s. IsInRange (settings.Run s)) }
{
    let schema = text_value(alloc, matches, "schema")?;
    let query = text_value(alloc, matches, "query")?;
    let every = number_value(matches, "every", 1, u64::MAX)?;
    let join = choice_value(matches, "join")?;
    let progress = switch_value(matches, "progress")?;
    let workers = number_value(matches, "workers", 1, MOST_WORKERS)?;
    Ok(RunSettings {
        schema,
        query,
        every,
        join,
        progress,
        workers,
    })
}

#[tactic(auto, unfolding(crate::specs::Settings::explain_of))]
fn explain_settings(alloc: Global, matches: &ArgMatches) -> Result<ExplainSettings, WordsBad>
    ensures settings { Reads result (explain_of (rows_of (found_of matches.now))) }
    ensures range { IfOk result (λ s. IsInRange (settings.Explain s)) }
{
    let schema = text_value(alloc, matches, "schema")?;
    let query = text_value(alloc, matches, "query")?;
    let join = choice_value(matches, "join")?;
    let workers = number_value(matches, "workers", 1, MOST_WORKERS)?;
    Ok(ExplainSettings {
        schema,
        query,
        join,
        workers,
    })
}

#[tactic(auto, unfolding(crate::specs::Settings::demo_of))]
fn demo_settings(matches: &ArgMatches) -> Result<DemoSettings, WordsBad>
    ensures settings { Reads result (demo_of (rows_of (found_of matches.now))) }
    ensures range { IfOk result (λ s. IsInRange (settings.Demo s)) }
{
    let size = number_value(matches, "size", 1, MOST_CUSTOMERS)?;
    let workers = number_value(matches, "workers", 1, MOST_WORKERS)?;
    Ok(DemoSettings { size, workers })
}

#[tactic(auto, unfolding(crate::specs::Settings::read_by))]
fn settings_by(alloc: Global, verb: Verb, matches: &ArgMatches) -> Result<Settings, WordsBad>
    ensures range { IfOk result IsInRange }
    ensures settings { Reads result (read_by verb (rows_of (found_of matches.now))) }
{
    match verb {
        Verb::Run => Ok(Settings::Run(run_settings(alloc, matches)?)),
        Verb::Explain => Ok(Settings::Explain(explain_settings(alloc, matches)?)),
        Verb::Demo => Ok(Settings::Demo(demo_settings(matches)?)),
    }
}

/// The verb of the words, if they have one that is known.
#[tactic(auto, unfolding(crate::specs::Settings::verb_in))]
fn verb_in(words: &[Txt]) -> Option<Verb>
    ensures { result ≡ verb_in words.now }
{
    match words.first()?.as_str() {
        "run" => Some(Verb::Run),
        "explain" => Some(Verb::Explain),
        "demo" => Some(Verb::Demo),
        _ => None,
    }
}

/// The words as the texts that `clap` takes.
fn texts_of<'a>(alloc: Global, words: &'a [Txt]) -> Result<Vec<&'a str>, AllocError>
    ensures { IfOk result (λ texts. texts_in texts.items ≡ words.now) }
{
    let mut texts = Vec::with_capacity(alloc, words.len())?;
    for word in words {
        texts.push(word.as_str())?;
    }
    Ok(texts)
}

/// The settings that the words call for: Usage exactly where they call for none, and Memory only for want of it. Their numbers lie in
/// the bounds of the options.
pub fn read_words(alloc: Global, words: &[Txt]) -> Result<Settings, WordsBad>
    ensures settings { Reads result (settings_of words.now) }
    ensures range { IfOk result IsInRange }
{
    let Some(verb) = verb_in(words) else {
        return Err(WordsBad::Usage);
    };
    let Ok(texts) = texts_of(alloc, words) else {
        return Err(WordsBad::Memory);
    };
    let Ok(command) = command_of(alloc, verb) else {
        return Err(WordsBad::Memory);
    };
    match matches_by(command, texts.as_slice()) {
        Ok(matches) => settings_by(alloc, verb, &matches),
        Err(error) => Err(error),
    }
}
