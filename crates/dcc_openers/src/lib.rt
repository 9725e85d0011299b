//! Who opened which session from which host: nobody, one subscriber, or several.
//!
//! Stands on `dcc_act` for names of sessions and subscribers, and on `dcc_octets` for names of hosts. The contract that it gives: the
//! subscribers that are found under a host and a session are those that were noted under both. A note takes no memory: a call of its
//! own takes the memory for the note before, and changes no finding.
#![tactic(auto)]

mod found;
mod names;
mod openers;

pub use found::Found;
pub use openers::Openers;
