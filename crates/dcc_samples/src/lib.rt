//! Samples for tests and measurements: a plan, and messages of a gateway with their answers, each once.
//!
//! Stands on nothing, and nothing but tests and measurements stands on it: no part of the program reads it. It gives
//! constants of text and no contract; messages are hex digits, two for an octet.
#![tactic(auto)]

mod messages;
mod plan;

pub use messages::{
    ANSWER, BUSY, CAPABILITIES, CAPABILITIES_ANSWER, COPIED_PROXIES, DEBIT, PROXIES, PROXY_INFO,
    WATCHDOG, WATCHDOG_ANSWER,
};
pub use plan::PLAN;
