//! The lines that explain a failure.

ghost use Rattle.std.specs.Prelude.{◌≡◌, Some, IfOk, IfSome};
ghost use Rattle.dcc_tariff.specs.Faults.{fault_number};

use crate::task_words::{addresses, folder_path, from_path, only_shard, plan_path};
use dcc_explain::{
    Looks, PlanNote, explain_ask, explain_line, explain_plan, explain_words, usage_lines,
};
use dcc_program::{Failure, HELP, TopUpsAsk, plan_of, top_ups_of};
use dcc_tariff::Plan;
use dcc_words::parts;
use std::alloc::{AllocError, Global};
use std::hash::RandomState;
use std::net::{Net, SocketAddr, SocketAddrV4, TcpListener, TcpStream};
use std::ops::Range;
use std::os::unix::fs::MetadataExt;
use std::random::RandomSource;
use std::rt::Files;
use std::{fs, io};

/// What a run left behind: why its streams failed, and the script that it read.
#[derive(Drop)]
pub(crate) struct Seen {
    pub input: Option<io::Error>,
    pub output: Option<io::Error>,
    pub script: Vec<u8>,
}

/// The lines that explain a failure of these words, each with the program's name in front. What was read before is read again. If a second try finds
/// another state of a file, no line says more than that.
pub(crate) fn lines_of<
    R: Files + RandomSource + Net<Listener = TcpListener, Stream = TcpStream> + AllocGlobal,
    L: Looks,
>(rt: &R, words: &[String], looks: &L, failure: Failure, seen: &Seen) -> Result<String, Failure> {
    let alloc = rt.alloc();
    match failure {
        Failure::Usage => lines_of_usage(alloc, words),
        Failure::Plan(number) => plan_lines(rt, words, number),
        Failure::Script(line) => match top_ups_of(alloc, words)? {
            Some(ask) => ask_lines(rt, ask, seen.script.as_slice(), line),
            None => script_lines(alloc, seen.script.as_slice(), line),
        },
        Failure::Io => io_lines(rt, words, seen),
        Failure::Store(number) => store_lines(rt, words, looks, number),
        Failure::Close(number) => line(alloc, close_words(number)),
        Failure::Memory => line(alloc, "memory was refused"),
    }
}

/// A line with the program's name in front.
fn line(alloc: Global, words: &str) -> Result<String, Failure> {
    Ok(format!(in alloc; "dcc: {words}\n")?)
}

/// The word that doesn't fit.
fn lines_of_usage(alloc: Global, words: &[String]) -> Result<String, Failure> {
    let slip = explain_words(alloc, words)?;
    line(alloc, slip.as_str())
}

/// The line for words that are no command line of the command that they name: the forms of this command. None if they name no command. The only
/// error is want of memory.
pub(crate) fn usage_line(alloc: Global, words: &[String]) -> Result<Option<String>, AllocError> {
    let Some(name) = words.get(1) else {
        return Ok(None);
    };
    let usages = usage_lines(alloc, HELP, name.as_str())?;
    if usages.is_empty() {
        return Ok(None);
    }
    let mut line = String::from_str(alloc, "dcc: usage: ")?;
    for (at, usage) in usages.iter().enumerate() {
        let front = if at == 0 { "" } else { ", or " };
        write!(line, "{front}{usage}")?;
    }
    line.push_str("\n")?;
    Ok(Some(line))
}

/// The explanation of a plan's fault.
fn plan_lines<R: Files + AllocGlobal>(
    rt: &R,
    words: &[String],
    number: u8,
) -> Result<String, Failure> {
    let alloc = rt.alloc();
    let Some(path) = plan_path(alloc, words)? else {
        return Ok(String::new(alloc));
    };
    let octets = fs::read(rt, path)?;
    let mut lines = String::new(alloc);
    plan_words(alloc, octets.as_slice(), number, &mut lines)?;
    Ok(lines)
}

/// Adds the explanation of the fault with this number of a plan file's octets to lines.
pub(crate) fn plan_words(
    alloc: Global,
    octets: &[u8],
    number: u8,
    lines: &mut String,
) -> Result<(), AllocError> {
    match plan_note(alloc, octets, number)? {
        Some(note) => {
            let words = note.words.as_str();
            write!(lines, "dcc: {words}\n")
        }
        None => lines.push_str(
            "dcc: the plan file was changed since: it has another fault now, or none\n",
        ),
    }
}

/// The explanation of the fault of a plan file's octets, if that has this number.
fn plan_note(alloc: Global, octets: &[u8], number: u8) -> Result<Option<PlanNote>, AllocError>
    ensures { IfOk result (λ note. IfSome note (λ n. fault_number n.fault ≡ Some number)) }
{
    let Some(note) = explain_plan(alloc, octets)? else {
        return Ok(None);
    };
    match note.fault.number() {
        Some(found) => {
            if found == number {
                Ok(Some(note))
            } else {
                Ok(None)
            }
        }
        None => Ok(None),
    }
}

/// The explanation of a line of top-ups, of a file or of the input that was read.
fn ask_lines<R: Files + AllocGlobal>(
    rt: &R,
    ask: TopUpsAsk<'_>,
    input: &[u8],
    number: u64,
) -> Result<String, Failure> {
    let alloc = rt.alloc();
    if ask.from == "-" {
        return ask_line(alloc, "standard input", input, number);
    }
    let text = fs::read(rt, ask.from)?;
    ask_line(alloc, ask.from, text.as_slice(), number)
}

/// The explanation of a line of top-ups in a text.
fn ask_line(alloc: Global, name: &str, text: &[u8], number: u64) -> Result<String, Failure> {
    let lines = parts(alloc, text, b'\n')?;
    let Some(line) = line_at(lines.as_slice(), number) else {
        return Ok(String::new(alloc));
    };
    let note = explain_ask(alloc, line)?;
    let words = note.words.as_str();
    Ok(format!(in alloc; "dcc: {name} line {number}: {words}\n")?)
}

/// The line with this number, from 1.
fn line_at<'a>(lines: &[&'a [u8]], number: u64) -> Option<&'a [u8]> {
    let at = match usize::try_from(number) {
        Ok(number) => number.saturating_sub(1),
        Err(_) => usize::MAX,
    };
    match lines.get(at) {
        Some(line) => Some(*line),
        None => None,
    }
}

/// The explanation of a script's line.
fn script_lines(alloc: Global, script: &[u8], number: u64) -> Result<String, Failure> {
    let lines = parts(alloc, script, b'\n')?;
    let Some(text) = line_at(lines.as_slice(), number) else {
        return Ok(String::new(alloc));
    };
    let note = explain_line(alloc, text)?;
    let words = note.words.as_str();
    Ok(format!(in alloc; "dcc: script line {number}: {words}\n")?)
}

/// The file, the stream or the address that failed, with the system's reason.
fn io_lines<R: Files + Net<Listener = TcpListener, Stream = TcpStream> + AllocGlobal>(
    rt: &R,
    words: &[String],
    seen: &Seen,
) -> Result<String, Failure> {
    let alloc = rt.alloc();
    if let Some(error) = seen.input {
        return Ok(format!(in alloc; "dcc: standard input: {error}\n")?);
    }
    if let Some(error) = seen.output {
        return Ok(format!(in alloc; "dcc: standard output: {error}\n")?);
    }
    if let Some(path) = plan_path(alloc, words)? {
        if let Some(error) = read_error(rt, path) {
            return Ok(format!(in alloc; "dcc: {path}: {error}\n")?);
        }
    }
    if let Some(path) = from_path(alloc, words)? {
        if let Some(error) = read_error(rt, path) {
            return Ok(format!(in alloc; "dcc: {path}: {error}\n")?);
        }
    }
    for address in addresses(alloc, words)? {
        if let Some(address) = address {
            if let Some(error) = listen_error(rt, address) {
                return Ok(format!(in alloc; "dcc: {address}: {error}\n")?);
            }
        }
    }
    line(alloc, "a second try found nothing that fails")
}

/// Why an address can't be listened at.
fn listen_error<R: Net<Listener = TcpListener, Stream = TcpStream>>(
    rt: &R,
    address: SocketAddrV4,
) -> Option<io::Error> {
    match rt.bind(SocketAddr::V4(address)) {
        Ok(_) => None,
        Err(error) => Some(error),
    }
}

/// Why a file can't be read.
fn read_error<R: Files + AllocGlobal>(rt: &R, path: &str) -> Option<io::Error> {
    match fs::read(rt, path) {
        Ok(_) => None,
        Err(error) => Some(error),
    }
}

/// What is wrong with the stores of the folder that the words name: each that has the fault with this number, among those that the words ask for.
fn store_lines<R: Files + RandomSource + AllocGlobal, L: Looks>(
    rt: &R,
    words: &[String],
    looks: &L,
    number: u8,
) -> Result<String, Failure> {
    let alloc = rt.alloc();
    let Some(folder) = folder_path(alloc, words)? else {
        return line(alloc, store_words(number));
    };
    let Some(path) = plan_path(alloc, words)? else {
        return line(alloc, store_words(number));
    };
    let octets = fs::read(rt, path)?;
    let plan = plan_of(alloc, octets.as_slice())?;
    let found = match shards_of(alloc, words, &plan) {
        Ok(shards) => lines_under(rt, looks, folder, &plan, shards, number),
        Err(failure) => Err(failure),
    };
    // By a call: a plan that is let go in place is proved part by part.
    drop(plan);
    let lines = found?;
    if lines.is_empty() {
        return line(alloc, store_words(number));
    }
    Ok(lines)
}

/// The line for an account that is unknown: what is found of the store of the subscriber whom the words name. No line if they name none.
pub(crate) fn unknown_lines<R: Files + RandomSource + AllocGlobal, L: Looks>(
    rt: &R,
    words: &[String],
    looks: &L,
) -> Result<String, Failure> {
    let alloc = rt.alloc();
    let Some(folder) = folder_path(alloc, words)? else {
        return Ok(String::new(alloc));
    };
    let Some(path) = plan_path(alloc, words)? else {
        return Ok(String::new(alloc));
    };
    let octets = fs::read(rt, path)?;
    let plan = plan_of(alloc, octets.as_slice())?;
    let line = unknown_line(rt, words, looks, folder, &plan);
    // By a call: a plan that is let go in place is proved part by part.
    drop(plan);
    line
}

/// The same under a plan.
fn unknown_line<R: Files + RandomSource + AllocGlobal, L: Looks>(
    rt: &R,
    words: &[String],
    looks: &L,
    folder: &str,
    plan: &Plan,
) -> Result<String, Failure> {
    let alloc = rt.alloc();
    let Some(shard) = only_shard(alloc, words, usize::from(plan.shards()))? else {
        return Ok(String::new(alloc));
    };
    let note = looks.look(folder, plan, shard, RandomState::new(rt)?)?;
    let found = note.words.as_str();
    Ok(format!(in alloc; "dcc: the subscriber has no acts: {found}\n")?)
}

/// The shards whose stores the words ask for: that of one subscriber, or all.
fn shards_of(alloc: Global, words: &[String], plan: &Plan) -> Result<Range<usize>, Failure> {
    let count = usize::from(plan.shards());
    match only_shard(alloc, words, count)? {
        Some(shard) => Ok(shard..shard.saturating_add(1)),
        None => Ok(0..count),
    }
}

/// A line for each store of these shards under a plan that has the fault with this number, and one line where several have the same. If a store could
/// not be used and none has a fault by now, a line for each says what it is, and another its folder's mode and owner.
fn lines_under<R: Files + RandomSource + AllocGlobal, L: Looks>(
    rt: &R,
    looks: &L,
    folder: &str,
    plan: &Plan,
    shards: Range<usize>,
    number: u8,
) -> Result<String, Failure> {
    let alloc = rt.alloc();
    let mut faulty = String::new(alloc);
    let mut others = String::new(alloc);
    for shard in shards {
        let note = looks.look(folder, plan, shard, RandomState::new(rt)?)?;
        if note.fault == Some(number) {
            push_line(alloc, &mut faulty, note.words.as_str())?;
        } else {
            push_line(alloc, &mut others, note.words.as_str())?;
        }
    }
    if !faulty.is_empty() || number != UNUSED {
        return Ok(faulty);
    }
    push_folder(rt, &mut others, folder)?;
    Ok(others)
}

/// The number of the fault of a store that can't be used.
const UNUSED: u8 = 51;

/// Adds a line with the program's name in front, if it is not the last one.
pub(crate) fn push_line(alloc: Global, lines: &mut String, words: &str) -> Result<(), AllocError> {
    let line = format!(in alloc; "dcc: {words}\n")?;
    if lines.ends_with(line.as_str()) {
        return Ok(());
    }
    lines.push_str(line.as_str())
}

/// Adds what is known of a folder in which a store could not be used: its mode, its owner, and the user as whom the program runs, since a missing
/// store and each log are made in it.
fn push_folder<R: Files>(rt: &R, lines: &mut String, folder: &str) -> Result<(), AllocError> {
    match fs::metadata(rt, folder) {
        Ok(found) => {
            let (mode, owner) = (found.mode() & 0o7777, found.uid());
            write!(
                lines,
                "dcc: {folder}: a store could not be opened, made or written here; the folder has mode {mode:03o} and belongs to user {owner}"
            )?;
            push_user(rt, lines)
        }
        Err(error) => write!(lines, "dcc: {folder}: {error}\n"),
    }
}

/// Adds the user as whom the program runs, if the system tells it: the owner of the program's folder below `/proc`.
fn push_user<R: Files>(rt: &R, lines: &mut String) -> Result<(), AllocError> {
    match fs::metadata(rt, "/proc/self") {
        Ok(found) => {
            let user = found.uid();
            write!(lines, "; the program runs as user {user}\n")
        }
        Err(_) => lines.push_str("\n"),
    }
}

/// What the number of a store's fault means.
fn store_words(number: u8) -> &'static str {
    match number {
        50 => "memory was refused",
        51 =>
            "a store's file or folder can't be used, another process has it open, or the database failed",
        52 => "a store has failed before, and is stopped",
        53 =>
            "a store's tables are others, or it was made under another plan: for other hosts, realms, numbers of shards or terms",
        54 =>
            "the acts, entries and accounts of a store disagree, or it has a subscriber of another shard",
        55 => "a row of a store can't be read",
        57 => "a store has fewer acts than it had, or the number of its acts is lost",
        _ => "a store has no tables",
    }
}

/// What the number of a fault at the end of a round means.
fn close_words(number: u8) -> &'static str {
    match number {
        60 => "a gateway's receipts have one that is not of the books",
        61 => "the books have an act without a receipt",
        62 => "the receipts of a gateway are out of order",
        _ => "a lane was ended without one of its senders",
    }
}
