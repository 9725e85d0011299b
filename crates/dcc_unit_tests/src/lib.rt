//! Tests of crates that no other test calls so: messages and streams, charging, the ledger, lanes, connections and counters. They make the calls that
//! no run of the program makes. They stand apart, since a crate with tests of its own is proved a second time with them, and together, since each
//! crate of tests loads all that it names. `tests/rows` has what a run makes of requests, also where memory is refused.
#![tactic(auto)]

#[cfg(test)]
mod acts;
#[cfg(test)]
mod connect;
#[cfg(test)]
mod expiry;
#[cfg(test)]
mod lane;
#[cfg(test)]
mod ledger;
#[cfg(test)]
mod message;
#[cfg(test)]
mod metrics;
#[cfg(test)]
mod model;
#[cfg(test)]
mod record;
#[cfg(test)]
mod session;
#[cfg(test)]
mod streams;
