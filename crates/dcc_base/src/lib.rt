//! A peer of the base protocol: the answers to its requests, and the end of its connection.
//!
//! Stands on `dcc_request` for the checks that all commands share, on `dcc_answer` for what all answers share, and on the
//! crates below these. The contract that it gives is one definition by cases, `replied` in `specs/Peers.antt`. From the
//! server's identity, the peer as it was, and a message's header and list, the definition gives the octets of the reply,
//! whether the connection is closed behind them, and the peer as it is then (RFC 6733, sections 5.3 to 5.5). If memory is
//! refused, there is no reply, and the peer is as it was.
//!
//! Credit-Control requests without E on an open peer are not of the base protocol: an open peer doesn't hear them.
#![tactic(auto)]

mod answer;
mod capabilities;
mod effect;
mod laws;
mod peer;
mod reply;
mod requests;

pub use dcc_octets::Host;
pub use laws::{numbers_are_given, told_apart};
pub use peer::Peer;
pub use reply::Reply;
