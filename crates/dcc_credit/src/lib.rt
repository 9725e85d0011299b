//! From a credit-control request to its act, and from an outcome or a refusal to the octets of an answer.
//!
//! Stands on `dcc_ccr` for requests, on `dcc_answer` for what all answers have in common, on `dcc_message`, `dcc_avp` and
//! `dcc_octets` for octets, on `dcc_act` for acts and outcomes, and on `dcc_tariff` for the plan. The contract that it gives:
//! a request's act is the act that the definition gives under the plan. An answer's octets are those of the definition, for
//! each outcome that a request can have and for each refusal of a request (RFC 8506). No answer of this crate is the busy
//! one, by its octets.
#![tactic(auto)]

mod act;
mod answer;
mod laws;
mod refusal;
mod services;
mod session;
mod told;
mod use_of_grants;

pub use act::to_act;
pub use answer::{USER_UNKNOWN, write_cca};
pub use laws::{numbers_are_given, read_back, told_apart};
pub use refusal::{write_refusal, write_unfound, write_unread};
pub use session::lend_session;
