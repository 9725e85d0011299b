//! Rounds of gateways: messages come from many at once, and each is answered by a worker of its subscriber's shard or at once.
//!
//! Stands on `dcc_running` for shards under locks and their receipts, on `dcc_dispatch` for what a message comes to, on `dcc_connect` for
//! the two sides of a connection, and on `dcc_lane` for what threads hand to one another. It is generic over listener, connections,
//! records and clock, and opens nothing itself. [`serve_run`] serves round after round, and prints a line behind each.
//!
//! A round has places, which gateways take: one gateway for each place, before the round begins; or one after another, while it goes on
//! ([`Rounds::staying`]). While a gateway is at a place, it has a reader and a writer, each in a thread of its own. Each shard has a worker in a
//! thread of its own, and a timer asks for sweeps and audits. A worker submits together what waits in its lane, up to 64 requests of different subscribers.
//! Attendants serve operators beside the gateways: threads that call the shards, each at a seat of its own ([`Listener::attend`]).
//!
//! The lane to a worker has a sender for each place and one for the timer. The lane to a place's writer has a sender for each shard and one
//! for the place's reader, which answers at once each message that asks no account. A gateway's reader says to each worker, and to its
//! writer, that the gateway is gone. Each worker passes that on. The writer takes until all have said so: then the place is free. A place
//! and the timer say at their end that they put nothing more, and a worker ends after all of these. Behind a round each lane is ended with
//! all its senders: what was taken of it is a beginning of what each of them put. So what goes out of a round answers what came in
//! ([`answers_are_to_what_came`]).
#![tactic(auto)]

mod attendant;
mod batch;
mod counter;
mod events;
mod face;
mod fault;
mod finishing;
mod lanes;
mod laws;
mod line;
mod place;
mod reader;
mod rest;
mod round;
mod rounds;
mod run;
mod tasks;
mod timer;
mod work;
mod worker;
mod writer;

pub use events::count_receipts;
pub use face::{Connection, Event, Listener, Notice, Notices, Shut, Sign, Tick, WINDOW};
pub use fault::ServeFault;
pub use laws::{answers_are_to_what_came, numbers_are_given};
pub use rounds::Rounds;
pub use run::{Service, serve_run};
