//! The program `dcc` over the files of its system: one call for a `main` of one line.
//!
//! Stands on `dcc_console` for the work of the program, with its contracts, on `dcc_files` for the stores, and on `dcc_looks` for looks at them. It
//! stands apart from `main` since a program's check also links all that the program reaches.
#![tactic(auto)]

use dcc_console::execute;
use dcc_files::FileStores;
use dcc_looks::FileLooks;
use std::io::Eprint;
use std::net::{Net, TcpListener, TcpStream};
use std::process::ExitCode;
use std::random::RandomSource;
use std::rt::{Env, Files};
use std::sync::Wait;
use std::thread::Threads;
use std::time::Clock;

/// Does what the process was asked for, over the stores in its files, and reports a failure by a line on standard error and by the exit status.
/// Both handles are the process's own: threads are started by the first, files of stores opened by the second.
pub fn run_process<
    R: Env
        + Files
        + RandomSource
        + Input
        + Print
        + Eprint
        + Net<Listener = TcpListener, Stream = TcpStream>
        + Threads
        + Wait
        + Clock
        + Sync
        + AllocGlobal,
>(rt: &R, files: &HostRuntime) -> ExitCode {
    execute(
        rt,
        &FileStores::new(files),
        &FileLooks::new(files),
        &mut files.stderr(),
    )
}
