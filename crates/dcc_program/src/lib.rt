//! The program `dcc`: its command line, its plan file, how it ends, and its work over any files, reader and writers.
//!
//! Stands on `dcc_replay` for scripts, `dcc_operator` for an operator's commands over stores, `dcc_startup` for a server's shards, `dcc_rounds` and `dcc_sockets` for a server,
//! `dcc_client` for calls of a server, `dcc_decode` for messages as a person reads them, and `dcc_tariff` for plans. The contract that it gives: [`replay`] is `dcc replay`
//! over readers of plan and script and a writer. [`top_up`] and [`page`] are `dcc topup`, `dcc ledger` and `dcc balance` over the plan's reader, a
//! folder's stores and a writer. [`decode`] is `dcc decode`. [`task_of`] is the task that words ask for. [`run`] judges the words, and does
//! the task or prints a text. [`end`] is the line on standard error and the status. [`serve`] is `dcc serve`: clauses say what it writes,
//! but no clause says which words ask for it ([`serve_of`]). [`call_at`] is
//! `dcc topup`, `dcc ledger` and `dcc balance` by a server that runs ([`call_of`]); clauses of [`print_call`] say what it sends and prints.
#![tactic(auto)]

mod call_words;
mod calling;
mod command_line;
mod decoding;
mod ending;
mod failure;
mod help;
mod many;
mod opening;
mod plan_file;
mod program;
mod replaying;
mod serving;
mod storing;

pub use call_words::{CallAsk, call_of};
pub use calling::{CallFailure, call_at, print_call};
pub use command_line::{
    Place, ServeAsk, Task, TopUpsAsk, given_words, serve_of, task_of, top_ups_of,
};
pub use decoding::decode;
pub use ending::{Ending, end};
pub use failure::Failure;
pub use help::{HELP, VERSION};
pub use many::{top_ups, top_ups_at};
pub use plan_file::{plan_from, plan_of};
pub use program::run;
pub use replaying::replay;
pub use serving::serve;
pub use storing::{page, top_up};
