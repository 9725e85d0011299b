//! Calls of subscribers, and their replies: the steps of a batch.

use crate::answers::{ExpiryAnswer, RequestAnswer, TopUpAnswer};
use dcc_act::{Act, Moment, Sub};
use dcc_answer::Proxies;
use dcc_message::Header;

/// A call of a subscriber: one step of a batch.
#[derive(Drop)]
pub enum Call {
    /// A request's act, with the header and the proxies of its answer.
    Request {
        sub: Sub,
        act: Act,
        header: Header,
        proxies: Proxies,
    },
    /// A top-up of an amount in minor units, under its ticket.
    TopUp {
        sub: Sub,
        moment: Moment,
        ticket: u64,
        amount: u64,
    },
    /// An expiry of the subscriber's sessions whose deadline is this moment or an earlier moment.
    Expiry {
        sub: Sub,
        moment: Moment,
    },
}

/// The reply to a call, of the call's kind.
#[derive(Debug, Drop)]
pub enum Reply {
    /// The answer to a request.
    Request(RequestAnswer),
    /// The answer to a top-up.
    TopUp(TopUpAnswer),
    /// The answer to an expiry.
    Expiry(ExpiryAnswer),
}
