//! The program, for `main`.

use crate::calling::call_lines;
use crate::checking::{Said, check, check_ask, is_check, is_check_help};
use crate::doing::done;
use crate::ending::end_with;
use crate::explain_word::without_explain;
use crate::reasons::{Seen, lines_of, unknown_lines, usage_line};
use crate::task_words::with_help;
use crate::top_up::{entry_at, nothing_added, with_moment};
use crate::watched::{WatchedInput, WatchedOutput};
use dcc_explain::{Looks, help_of};
use dcc_program::{CallAsk, Failure, HELP, call_at, call_of, end, given_words};
use dcc_startup::Stores;
use dcc_streams::write_all;
use std::alloc::Global;
use std::io::{self, Eprint, Write};
use std::net::{Net, TcpListener, TcpStream};
use std::process::ExitCode;
use std::random::RandomSource;
use std::rt::{Env, Files};
use std::sync::Wait;
use std::thread::Threads;
use std::time::Clock;

/// Does what the process was asked for, over these stores, and reports a failure by its line on standard error and by the exit status. Lines that
/// explain the failure follow if the words have `--explain`, and for `dcc check` always. Words that are no command line of the command that they name
/// are reported by the forms of this command.
pub fn execute<
    R: Env
        + Files
        + RandomSource
        + Input
        + Print
        + Eprint
        + Net<Listener = TcpListener, Stream = TcpStream>
        + Threads
        + Wait
        + Clock
        + Sync
        + AllocGlobal,
    S: Stores + Sync,
    L: Looks,
    W: Write,
>(rt: &R, stores: &S, looks: &L, errors: &mut W) -> ExitCode {
    let words = match given_words(rt) {
        Ok(words) => words,
        Err(failure) => return ExitCode::from(end(Err(failure), errors).status),
    };
    let (words, is_explained) = without_explain(words);
    let words = match with_help(rt.alloc(), words) {
        Ok(words) => words,
        Err(failure) => return ExitCode::from(end(Err(failure), errors).status),
    };
    if is_check(words.as_slice()) {
        return ExitCode::from(checked(rt, words.as_slice(), looks, errors));
    }
    let words = match with_moment(rt, words) {
        Ok(words) => words,
        Err(failure) => return ExitCode::from(end(Err(failure), errors).status),
    };
    if is_explained {
        return ExitCode::from(explained(rt, words.as_slice(), stores, looks, errors));
    }
    let ended = done(
        rt,
        words.as_slice(),
        stores,
        &mut rt.reader(),
        &mut io::writer(rt),
    );
    ExitCode::from(told(rt.alloc(), words.as_slice(), ended, None, errors))
}

/// The same with an explanation.
fn explained<
    R: Files
        + RandomSource
        + Input
        + Print
        + Eprint
        + Net<Listener = TcpListener, Stream = TcpStream>
        + Threads
        + Wait
        + Clock
        + Sync
        + AllocGlobal,
    S: Stores + Sync,
    L: Looks,
    W: Write,
>(rt: &R, words: &[String], stores: &S, looks: &L, errors: &mut W) -> u8 {
    if let Ok(Some(ask)) = call_of(rt.alloc(), words) {
        return called(rt, words, &ask, errors);
    }
    let used = nothing_added(rt, words, stores);
    let mut input = WatchedInput::new(rt.alloc(), rt.reader());
    let mut output = WatchedOutput::new(io::writer(rt));
    let ended = done(rt, words, stores, &mut input, &mut output);
    let WatchedInput {
        input: reader,
        failed,
        text,
        is_cut: _,
    } = input;
    drop(reader);
    let seen = Seen {
        input: failed,
        output: output.failed,
        script: text,
    };
    let lines = match ended {
        Ok(()) if output.is_unknown => {
            drop(used);
            unknown_lines(rt, words, looks).ok()
        }
        Ok(()) => used,
        Err(failure) => {
            drop(used);
            lines_of(rt, words, looks, failure, &seen).ok()
        }
    };
    told(rt.alloc(), words, ended, lines, errors)
}

/// A call of a server with an explanation. A failure is explained by this call: a second one could have another end. Behind a top-up the server is asked
/// for the ledger.
fn called<
    R: Print + Net<Listener = TcpListener, Stream = TcpStream> + Clock + AllocGlobal,
    W: Write,
>(rt: &R, words: &[String], ask: &CallAsk, errors: &mut W) -> u8 {
    let alloc = rt.alloc();
    let mut output = WatchedOutput::new(io::writer(rt));
    match call_at(rt, ask, &mut output) {
        Ok(()) => told(alloc, words, Ok(()), entry_at(rt, ask), errors),
        Err(failure) => {
            let lines = call_lines(alloc, ask.address, failure, output.failed).ok();
            told(alloc, words, Err(Failure::from(failure)), lines, errors)
        }
    }
}

/// Writes the end with the lines that there are, and gives the exit status. If the words are no command line of the command that they name, the line
/// of the failure has the forms of this command.
fn told<W: Write>(
    alloc: Global,
    words: &[String],
    ended: Result<(), Failure>,
    lines: Option<String>,
    errors: &mut W,
) -> u8 {
    if matches!(ended, Err(Failure::Usage)) {
        if let Ok(Some(usage)) = usage_line(alloc, words) {
            return misused(usage.as_str(), lines, errors);
        }
    }
    match lines {
        Some(lines) => end_with(ended, lines.as_str(), errors).status,
        None => end(ended, errors).status,
    }
}

/// Writes the line of a failure of usage and the lines that there are, and gives the exit status.
fn misused<W: Write>(usage: &str, lines: Option<String>, errors: &mut W) -> u8 {
    let _usage = write_all(errors, usage.as_bytes());
    if let Some(lines) = lines {
        let _lines = write_all(errors, lines.as_bytes());
    }
    Failure::Usage.status()
}

/// `dcc check`, which explains always.
fn checked<
    R: Files + RandomSource + Print + Net<Listener = TcpListener, Stream = TcpStream> + AllocGlobal,
    L: Looks,
    W: Write,
>(rt: &R, words: &[String], looks: &L, errors: &mut W) -> u8 {
    let alloc = rt.alloc();
    let mut output = WatchedOutput::new(io::writer(rt));
    let mut said = Said {
        faults: String::new(alloc),
        warnings: String::new(alloc),
    };
    let ended = match check_ask(words) {
        Some(ask) => check(rt, looks, ask, &mut output, &mut said),
        None if is_check_help(words) => check_help(rt, &mut output),
        None => Err(Failure::Usage),
    };
    let Said { faults, warnings } = said;
    let lines = match ended {
        Err(failure) if faults.is_empty() => {
            drop(faults);
            let seen = Seen {
                input: None,
                output: output.failed,
                script: Vec::new(alloc),
            };
            lines_of(rt, words, looks, failure, &seen).ok()
        }
        _ => Some(faults),
    };
    told(
        alloc,
        words,
        ended,
        with_warnings(lines, warnings.as_str()),
        errors,
    )
}

/// The lines, if there are some, and behind them the warnings of a check; without the warnings if memory is short.
fn with_warnings(lines: Option<String>, warnings: &str) -> Option<String> {
    let mut lines = lines?;
    let _pushed = lines.push_str(warnings);
    Some(lines)
}

/// The help of `dcc check`.
fn check_help<R: AllocGlobal, W: Write>(rt: &R, output: &mut W) -> Result<(), Failure> {
    match help_of(rt.alloc(), HELP, "check")? {
        Some(help) => Ok(write_all(output, help.as_bytes())?),
        None => Ok(()),
    }
}
