//! The engine: events in, answers out, each subscriber as if alone.
//!
//! Stands on `dcc_dispatch` for the verdict on a peer's message, on `dcc_shard` for a subscriber's step, and on the crates below them.
//! The contract that it gives is the contract of `Engine::run`, for every list of events. A subscriber's request is answered by the
//! octets of the outcome at its place in that subscriber's own entries, or is refused with nothing changed. Afterwards the subscriber's
//! acts and money are those of its own entries. A request that names nobody belongs to the only subscriber who opened its session from
//! the host of its peer, by the law `openers_are_found`. A message of no subscriber is answered by its definition, from the message and
//! its peer's own events, or is refused with nothing changed. A sweep is one expiry of each subscriber, each by itself; it reports each
//! subscriber whose expiry memory or a shard's records refused. The law `isolation` follows: two runs that agree on a subscriber's own
//! events agree on its answers, octet for octet.
#![tactic(auto)]

mod engine;
mod event;
mod laws;
mod outs;
mod peers;
mod subs;
mod sweep;

pub use engine::Engine;
pub use event::{Event, Out};
pub use laws::{isolation, openers_are_found, runs_in_turn};
pub use peers::PeerRow;
pub use subs::Subs;
