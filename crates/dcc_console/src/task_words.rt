//! What the words of a command line name: a plan, an address, a command.

ghost use Rattle.std.specs.Prelude.{◌<◌};

use dcc_act::Sub;
use dcc_explain::{help_of, usage_lines};
use dcc_operator::TopUpAsk;
use dcc_program::{Failure, HELP, Task, serve_of, task_of, top_ups_of};
use dcc_shard::shard_of;
use std::alloc::Global;
use std::net::SocketAddrV4;

/// The path of the plan that the words name, if they ask for a task under one.
pub(crate) fn plan_path<'a>(
    alloc: Global,
    words: &'a [String],
) -> Result<Option<&'a str>, Failure> {
    if let Some(ask) = serve_of(alloc, words)? {
        return Ok(Some(ask.place.plan));
    }
    if let Some(ask) = top_ups_of(alloc, words)? {
        return Ok(Some(ask.place.plan));
    }
    match task_of(alloc, words) {
        Ok(Task::Replay(path)) => Ok(Some(path)),
        Ok(Task::TopUp(place, _)) => Ok(Some(place.plan)),
        Ok(Task::Show(_, place, _)) => Ok(Some(place.plan)),
        Ok(_) => Ok(None),
        Err(failure) => Err(failure),
    }
}

/// The path of the file of top-ups that the words name, if it is no standard input.
pub(crate) fn from_path<'a>(
    alloc: Global,
    words: &'a [String],
) -> Result<Option<&'a str>, Failure> {
    match top_ups_of(alloc, words)? {
        Some(ask) if ask.from != "-" => Ok(Some(ask.from)),
        _ => Ok(None),
    }
}

/// The shard, of so many, whose store is the only one that the words ask for: that of the subscriber whom they name.
pub(crate) fn only_shard(
    alloc: Global,
    words: &[String],
    count: usize,
) -> Result<Option<usize>, Failure> {
    if count == 0 {
        return Ok(None);
    }
    let task = match task_of(alloc, words) {
        Ok(task) => task,
        Err(Failure::Memory) => return Err(Failure::Memory),
        Err(_) => return Ok(None),
    };
    match task {
        Task::TopUp(_place, ask) => Ok(Some(shard_of_ask(ask, count))),
        Task::Show(_page, _place, sub) => Ok(Some(shard_of_sub(sub, count))),
        _ => Ok(None),
    }
}

/// The shard of a top-up's subscriber.
fn shard_of_ask(ask: TopUpAsk, count: usize) -> usize
    requires { 0 < count }
{
    shard_of(&ask.sub, count)
}

/// The shard of a subscriber.
fn shard_of_sub(sub: Sub, count: usize) -> usize
    requires { 0 < count }
{
    shard_of(&sub, count)
}

/// The folder of stores that the words name.
pub(crate) fn folder_path<'a>(
    alloc: Global,
    words: &'a [String],
) -> Result<Option<&'a str>, Failure> {
    if let Some(ask) = serve_of(alloc, words)? {
        return Ok(Some(ask.place.folder));
    }
    if let Some(ask) = top_ups_of(alloc, words)? {
        return Ok(Some(ask.place.folder));
    }
    match task_of(alloc, words) {
        Ok(Task::TopUp(place, _)) => Ok(Some(place.folder)),
        Ok(Task::Show(_, place, _)) => Ok(Some(place.folder)),
        Ok(_) => Ok(None),
        Err(failure) => Err(failure),
    }
}

/// The addresses at which the words ask a server to listen: for gateways, and for operators.
pub(crate) fn addresses(
    alloc: Global,
    words: &[String],
) -> Result<[Option<SocketAddrV4>; 2], Failure> {
    match serve_of(alloc, words)? {
        Some(ask) => Ok([Some(ask.address), ask.operator]),
        None => Ok([None, None]),
    }
}

/// The words of a command line; those of `dcc help COMMAND` as those of `dcc COMMAND --help`.
pub(crate) fn with_help(alloc: Global, words: Vec<String>) -> Result<Vec<String>, Failure> {
    let mut words = words;
    if words.len() == 3 && is_topic(alloc, words.as_slice())? {
        let _help = words.remove(1);
        words.push(String::from_str(alloc, "--help")?)?;
    }
    Ok(words)
}

/// Whether the words ask for the help of a command by its name.
fn is_topic(alloc: Global, words: &[String]) -> Result<bool, Failure> {
    match words {
        [_, first, topic] if first.as_str() == "help" => {
            let usages = usage_lines(alloc, HELP, topic.as_str())?;
            Ok(!usages.is_empty())
        }
        _ => Ok(false),
    }
}

/// The help of the command that the words name, if they ask for help.
pub(crate) fn command_help(alloc: Global, words: &[String]) -> Result<Option<String>, Failure> {
    let Some(name) = words.get(1) else {
        return Ok(None);
    };
    if !is_help(alloc, words)? {
        return Ok(None);
    }
    // The help of `dcc help` is the whole text, which `run` prints.
    if name.as_str() == "help" {
        return Ok(None);
    }
    Ok(help_of(alloc, HELP, name.as_str())?)
}

/// Whether the words ask for help.
fn is_help(alloc: Global, words: &[String]) -> Result<bool, Failure> {
    match task_of(alloc, words) {
        Ok(Task::Help) => Ok(true),
        Err(Failure::Memory) => Err(Failure::Memory),
        _ => Ok(false),
    }
}
