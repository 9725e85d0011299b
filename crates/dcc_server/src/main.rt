//! The program `dcc`: a server of gateways over TCP, an operator's top-ups and ledgers, scripts that are replayed, and messages as trees.
//!
//! Its work stands in `dcc_program`, with its contracts. `dcc_process` gives it the stores of `dcc_files`, and here it is given the process.
#![tactic(auto)]

use dcc_process::run_process;
use std::process::ExitCode;

fn main(rt: HostRuntime) -> ExitCode {
    run_process(&rt, &rt)
}
