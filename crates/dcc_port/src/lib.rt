//! The operator's port of a server that runs: calls over HTTP/1.1, which work on the shards under their locks.
//!
//! Stands on `dcc_running` for the shards and the seat, on `dcc_shard`, `dcc_account`, `dcc_state`, `dcc_session` and `dcc_ledger` for what a shard holds of
//! a subscriber, on `dcc_words` for the words of paths and lines, and on `dcc_connect` for the clock. The kit's `http_server` reads the requests and
//! writes the responses, `serde_json` reads a body in JSON, and `percent_encoding` a path. The contract that it gives: [`serve_calls`] answers the
//! calls of one connection over any reader and writer. `specs/Calls.antt` says which call a request is, and `specs/Answers.antt` what a call does and
//! what it is answered. Top-ups are answered by what the shards told of exactly these top-ups, and their receipts are added to the seat; the money, the
//! open sessions and the ledger of a subscriber are those of the acts that some shard held at one moment; the server is well only if each shard said
//! that it has not stopped; a backup is told as made only if the [`Server`] copied each shard's store, each while a shard was lent under its lock. A
//! sweep adds the receipts of its expiries; no other call changes the seat. Behind each call the [`Server`] gets the seat with the receipts of the call,
//! and may audit it ([`Server::audit`]).
//!
//! Nothing is known of a shard under a lock but its type: no clause says that a look was at the subscriber's own shard.
#![tactic(auto)]

mod account;
mod asking;
mod backup;
mod call;
mod foreign;
mod lines;
mod looks;
mod operator;
mod port;
mod reading;
mod serving;
mod sheet;
mod sweeping;
mod texts;
mod top_up;
mod top_ups;

pub use call::{Ask, Asks, BodySlip, Call, Flaw, LineSlip, Member, Verb};
pub use port::{CopyFault, Server};
pub use serving::serve_calls;
