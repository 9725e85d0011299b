//! The events of an engine, and their outs.

use crate::subs::Subs;
use dcc_act::{Moment, Sub};
use dcc_base::Host;
use dcc_octets::OctetString;
use dcc_shard::TopUpAnswer;

/// Something that happens to the server.
#[derive(Debug, Drop)]
pub enum Event {
    /// A peer's connection is made. If the peer was there before, closed or not, it is made anew. With a host the peer is open at once
    /// under the name of the host; without a host it waits for the exchange of capabilities.
    Connect {
        peer: u32,
        host: Option<Host>,
    },
    /// A peer's connection is gone, and so is the peer.
    Disconnect {
        peer: u32,
    },
    /// A whole message of a peer.
    Message {
        peer: u32,
        moment: Moment,
        octets: OctetString,
    },
    /// Money for a subscriber, in minor units.
    TopUp {
        moment: Moment,
        sub: Sub,
        ticket: u64,
        amount: u64,
    },
    /// An expiry of every subscriber: each session ends whose deadline is this moment or an earlier moment.
    Sweep {
        moment: Moment,
    },
}

/// The effect of an event.
#[derive(Debug, Drop)]
pub struct Out {
    /// The peer that the event named, if it named one.
    pub peer: Option<u32>,
    /// The octets of the answer; no octets if there is no answer.
    pub octets: OctetString,
    /// Whether the peer's connection is to be closed, behind the answer if there is one.
    pub close: bool,
    /// The answer to a top-up.
    pub top_up: Option<TopUpAnswer>,
    /// The subscribers whose expiry a sweep refused, each once, by shard and then by type and data. Each of them has acts. Memory was short
    /// for the expiry, or the records of the subscriber's shard failed or were stopped. The subscriber's held acts stay as they were.
    pub refused: Subs,
    /// Whether a sweep refused the expiry of all subscribers, since memory was short for the list of them.
    pub refused_all: bool,
}
