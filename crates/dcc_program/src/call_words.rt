//! The call of a server that a command line asks for.

use crate::command_line::{number_of, sub_of, text_of, with_argument, with_command, with_option};
use crate::failure::Failure;
use clap::error::ErrorKind;
use clap::{ArgMatches, Command};
use dcc_client::Call;
use std::alloc::{AllocError, Global};
use std::net::SocketAddrV4;

/// A call of a server that is asked for.
#[derive(Clone, Copy)]
pub struct CallAsk {
    /// Where the server listens for operators: an address of this machine alone.
    pub address: SocketAddrV4,
    pub call: Call,
}

/// The call that the words of a command line ask for by `--at`. None if they ask for something else, which [`crate::task_of`] judges.
pub fn call_of(alloc: Global, words: &[String]) -> Result<Option<CallAsk>, Failure> {
    let matches = match call_commands(alloc)?.try_get_matches_from(words) {
        Ok(matches) => matches,
        Err(error) => {
            return match error.kind() {
                ErrorKind::OutOfMemory => Err(Failure::Memory),
                _ => Ok(None),
            };
        }
    };
    let ask = call_in(&matches);
    // By a call: words that are let go in place are proved part by part.
    drop(matches);
    ask
}

/// The call that the words ask for, as they were read.
fn call_in(matches: &ArgMatches<'_>) -> Result<Option<CallAsk>, Failure> {
    let Some((name, found)) = matches.subcommand() else {
        return Ok(None);
    };
    let Some(at) = text_of(found, "at") else {
        return Ok(None);
    };
    match call_at(name, found, at) {
        Some(ask) => Ok(Some(ask)),
        None => Err(Failure::Usage),
    }
}

/// The call with this name. None if a word isn't one of its place.
fn call_at(name: &str, found: &ArgMatches<'_>, at: &str) -> Option<CallAsk> {
    let address = SocketAddrV4::parse_ascii(at.as_bytes()).ok()?;
    if !address.ip().is_loopback() {
        return None;
    }
    let sub = sub_of(found)?;
    let call = match name {
        "topup" => Call::TopUp {
            sub,
            ticket: number_of(found, "TICKET")?,
            amount: number_of(found, "AMOUNT")?,
        },
        "ledger" => Call::Ledger(sub),
        _ => Call::Account(sub),
    };
    Some(CallAsk { address, call })
}

/// The program with the commands that call a server.
fn call_commands<'a>(alloc: Global) -> Result<Command<'a>, AllocError> {
    let program = Command::new(alloc, "dcc")
        .subcommand_required(true)
        .disable_help_subcommand(true);
    let with_topup = with_command(program, call_topup_command(alloc))?;
    let with_ledger = with_command(with_topup, call_command(alloc, "ledger"))?;
    with_command(with_ledger, call_command(alloc, "balance"))
}

/// The command of a top-up by a server.
fn call_topup_command<'a>(alloc: Global) -> Result<Command<'a>, AllocError> {
    let with_ticket = with_argument(alloc, call_command(alloc, "topup")?, "TICKET")?;
    with_argument(alloc, with_ticket, "AMOUNT")
}

/// A command of this name with the address of a server, and a subscriber.
fn call_command<'a>(alloc: Global, name: &'a str) -> Result<Command<'a>, AllocError> {
    let with_at = with_option(alloc, Command::new(alloc, name), "at")?;
    with_argument(alloc, with_at, "SUB")
}
