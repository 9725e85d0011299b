//! Receipts: the act of a call, and the call's answer.

use dcc_act::{Act, Sub};
use dcc_answer::Proxies;
use dcc_message::Header;
use dcc_octets::OctetString;

/// The answer to the call of an act.
#[derive(Debug, Drop)]
pub enum Told {
    /// A request's answer: its octets.
    Octets(OctetString),
    /// A top-up was added, now or when its ticket came first.
    Added,
    /// A top-up would have lifted the funds above 10^18 minor units, and wasn't added.
    Ceiling,
    /// An expiry ended so many sessions.
    Closed { sessions: u64 },
}

/// The record of one call: its act, and its answer.
#[derive(Debug, Drop)]
pub struct Receipt {
    pub sub: Sub,
    /// A place in the subscriber's list of acts, counted from 1: the place of this act if the receipt is fresh, and otherwise the place of
    /// the first act with the same key. 0 for a request whose subscriber is unknown.
    pub place: u64,
    pub act: Act,
    /// The header of the request; all zeros for a top-up and an expiry.
    pub header: Header,
    /// The Proxy-Info of the request; none for a top-up and an expiry.
    pub proxies: Proxies,
    pub answer: Told,
    /// Whether the act was made in this call.
    pub fresh: bool,
}
