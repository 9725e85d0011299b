//! `dcc check`: a plan and the stores of a folder are judged, and nothing is changed.

use crate::reasons::{plan_words, push_line};
use dcc_explain::{Looks, StoreNote, unread_keys};
use dcc_program::{Failure, plan_of};
use dcc_streams::write_all;
use dcc_tariff::Plan;
use std::alloc::{AllocError, Global};
use std::fs;
use std::hash::RandomState;
use std::io::Write;
use std::random::RandomSource;
use std::rt::Files;

/// What the words of a check name.
#[derive(Clone, Copy)]
pub(crate) struct CheckAsk<'a> {
    pub plan: &'a str,
    pub folder: Option<&'a str>,
}

/// What a check writes to standard error, in lines.
#[derive(Drop)]
pub(crate) struct Said {
    /// What is wrong: with the plan, or with each store.
    pub faults: String,
    /// The keys and tables of the plan that no rule reads. They change no status.
    pub warnings: String,
}

/// Whether the words are those of a check.
pub(crate) fn is_check(words: &[String]) -> bool {
    match words.get(1) {
        Some(name) => name.as_str() == "check",
        None => false,
    }
}

/// Whether a check's words ask for its help.
pub(crate) fn is_check_help(words: &[String]) -> bool {
    let options = match words.iter().position(|word| word.as_str() == "--") {
        Some(at) => words.get(..at).unwrap_or(&[]),
        None => words,
    };
    options
        .iter()
        .any(|word| word.as_str() == "--help" || word.as_str() == "-h")
}

/// What the words of a check name: one or two arguments, of which one that begins with a hyphen stands behind `--`.
pub(crate) fn check_ask(words: &[String]) -> Option<CheckAsk<'_>> {
    let rest = words.get(2..)?;
    let (options, arguments) = match rest.iter().position(|word| word.as_str() == "--") {
        Some(at) => (rest.get(..at)?, rest.get(at..)?.get(1..)?),
        None => (rest, rest.get(rest.len()..)?),
    };
    if options
        .iter()
        .any(|word| word.len() > 1 && word.starts_with('-'))
    {
        return None;
    }
    match options.len().saturating_add(arguments.len()) {
        1 => Some(CheckAsk {
            plan: argument(options, arguments, 0)?,
            folder: None,
        }),
        2 => Some(CheckAsk {
            plan: argument(options, arguments, 0)?,
            folder: Some(argument(options, arguments, 1)?),
        }),
        _ => None,
    }
}

/// An argument, before or behind `--`.
fn argument<'a>(before: &'a [String], behind: &'a [String], at: usize) -> Option<&'a str> {
    let word = match before.get(at) {
        Some(word) => word,
        None => behind.get(at.saturating_sub(before.len()))?,
    };
    Some(word.as_str())
}

/// Judges the plan, and then the store of each of its shards; writes what is good, and says what isn't. The failure is the one that `serve`
/// would end with: the plan's, or that of the first store with a fault.
pub(crate) fn check<R: Files + RandomSource + AllocGlobal, L: Looks, W: Write>(
    rt: &R,
    looks: &L,
    ask: CheckAsk<'_>,
    output: &mut W,
    said: &mut Said,
) -> Result<(), Failure> {
    let plan = plan_at(rt, ask.plan, said)?;
    let done = check_under(rt, looks, ask, &plan, output, &mut said.faults);
    // By a call: a plan that is let go in place is proved part by part.
    drop(plan);
    done
}

/// The same under a good plan.
fn check_under<R: RandomSource + AllocGlobal, L: Looks, W: Write>(
    rt: &R,
    looks: &L,
    ask: CheckAsk<'_>,
    plan: &Plan,
    output: &mut W,
    lines: &mut String,
) -> Result<(), Failure> {
    let alloc = rt.alloc();
    let shards = usize::from(plan.shards());
    let path = ask.plan;
    let good = format!(in alloc; "{path}: good, with {shards} shards\n")?;
    write_all(output, good.as_bytes())?;
    let Some(folder) = ask.folder else {
        return Ok(());
    };
    let mut first = None;
    for shard in 0..shards {
        let hasher = RandomState::new(rt)?;
        let note = looks.look(folder, plan, shard, hasher)?;
        let fault = note.fault;
        report(alloc, note, output, lines)?;
        if first.is_none() {
            first = fault;
        }
    }
    match first {
        Some(number) => Err(Failure::Store(number)),
        None => Ok(()),
    }
}

/// The plan of a file. What is wrong with it is said, and so is each key that no rule reads.
fn plan_at<R: Files + AllocGlobal>(rt: &R, path: &str, said: &mut Said) -> Result<Plan, Failure> {
    let alloc = rt.alloc();
    let octets = match fs::read(rt, path) {
        Ok(octets) => octets,
        Err(error) => {
            write!(said.faults, "dcc: {path}: {error}\n")?;
            return Err(Failure::from(error));
        }
    };
    push_warnings(alloc, &mut said.warnings, octets.as_slice())?;
    match plan_of(alloc, octets.as_slice()) {
        Ok(plan) => Ok(plan),
        Err(Failure::Plan(number)) => {
            plan_words(alloc, octets.as_slice(), number, &mut said.faults)?;
            Err(Failure::Plan(number))
        }
        Err(failure) => Err(failure),
    }
}

/// Adds a line for each key and table of a plan's octets that no rule reads.
fn push_warnings(alloc: Global, lines: &mut String, octets: &[u8]) -> Result<(), AllocError> {
    let unread = unread_keys(alloc, octets)?;
    for words in &unread {
        write!(lines, "dcc: warning: {words}\n")?;
    }
    Ok(())
}

/// What was found of a store: a good one is written, a bad one added to the lines.
fn report<W: Write>(
    alloc: Global,
    note: StoreNote,
    output: &mut W,
    lines: &mut String,
) -> Result<(), Failure> {
    let StoreNote { fault, words } = note;
    if fault.is_some() {
        push_line(alloc, lines, words.as_str())?;
        return Ok(());
    }
    let line = format!(in alloc; "{words}\n")?;
    Ok(write_all(output, line.as_bytes())?)
}
