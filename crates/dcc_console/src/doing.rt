//! The work that the words of a command line ask for.

use crate::task_words::command_help;
use dcc_act::Moment;
use dcc_program::{Failure, call_at, call_of, run, serve, serve_of, top_ups_at, top_ups_of};
use dcc_startup::Stores;
use dcc_streams::write_all;
use dcc_tariff::LAST_SECOND;
use std::io::{Eprint, Read, Write};
use std::net::{Net, TcpListener, TcpStream};
use std::random::RandomSource;
use std::rt::Files;
use std::sync::Wait;
use std::thread::Threads;
use std::time::Clock;

/// Does what the words ask for: a server, a call of a server, the help of one command, or a task of `dcc_program`.
pub(crate) fn done<
    R: Files
        + RandomSource
        + Eprint
        + Net<Listener = TcpListener, Stream = TcpStream>
        + Threads
        + Wait
        + Clock
        + Sync
        + AllocGlobal,
    S: Stores + Sync,
    I: Read,
    O: Write,
>(rt: &R, words: &[String], stores: &S, input: &mut I, output: &mut O) -> Result<(), Failure> {
    if let Some(ask) = serve_of(rt.alloc(), words)? {
        return serve(rt, stores, &ask, output);
    }
    if let Some(ask) = call_of(rt.alloc(), words)? {
        return Ok(call_at(rt, &ask, output)?);
    }
    if let Some(ask) = top_ups_of(rt.alloc(), words)? {
        let now = moment_of(rt.since_1970()?.as_secs());
        return top_ups_at(rt, stores, &ask, now, input, output);
    }
    if let Some(help) = command_help(rt.alloc(), words)? {
        return Ok(write_all(output, help.as_bytes())?);
    }
    run(rt, words, stores, input, output)
}

/// The moment of these seconds since 1970, or the last that there is.
fn moment_of(seconds: u64) -> Moment {
    match Moment::new(seconds.min(LAST_SECOND)) {
        Some(moment) => moment,
        None => unreachable!(),
    }
}
