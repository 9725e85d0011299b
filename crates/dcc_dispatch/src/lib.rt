//! The decision on a message to a peer.
//!
//! Stands on `dcc_base` for the replies of peers, on `dcc_ccr` and `dcc_credit` for credit-control requests and their refusals, on
//! `dcc_model` for an act's key, and on the crates below them. The contract that it gives is that of `dispatch`: each message to a peer
//! is answered at once by its definition, or it asks its subscriber's account for one act and leaves the peer as it is. If memory is
//! refused, it is answered busy, or not at all, and then the peer is as it was.
//!
//! No account is read here: the owner of the accounts makes the act, and writes the answer under the header and with the proxies that
//! come with it. The owner also knows the opener of each session and the opener's host. For an update or a termination that names no
//! subscriber, the owner looks for the opener, and `Sought::settle` decides on the message by the finding.
#![tactic(auto)]

mod asked;
mod decide;
mod message;
mod reply;
mod settled;
mod sought;
mod verdict;

pub use asked::Asked;
pub use decide::{Dispatched, dispatch};
pub use settled::Settled;
pub use sought::Sought;
