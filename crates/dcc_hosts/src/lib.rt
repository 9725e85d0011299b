//! The hosts of peers change no outcome of an act.
//!
//! Stands on `dcc_model`, `dcc_act` and `dcc_tariff`. An initial request keeps its peer's host, so that the opener of its
//! session is known later. The contract that this crate gives: no outcome depends on a host, nor does the account, the place
//! of an act, or whether an act is made.
#![tactic(auto)]

mod laws;

pub use laws::{alike_come_to_the_same, hosts_change_nothing};
