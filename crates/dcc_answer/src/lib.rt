//! What the answers to all commands have in common: the AVPs that are sent, the copies from the request, the header,
//! and the answer that reports a protocol error.
//!
//! Stands on `dcc_request`, `dcc_message`, `dcc_avp` and `dcc_octets`, and each crate that answers a command stands on it. The
//! contract that it gives: each call writes exactly the octets of its definition or, if memory is refused, no octets that are sent;
//! an answer is read back as it was written; and the Result-Code alone decides whether an answer is the busy one.
#![tactic(auto)]

mod answer;
mod avps;
mod failed;
mod laws;
mod protocol_error;
mod proxies;
mod session;

pub use answer::{MAX_ANSWER, MAX_OWN, begin_answer, finish_answer};
pub use avps::{put, put_u32, put_u64};
pub use failed::put_failed;
pub use laws::{busy_by_result, numbers_are_given, proxies_are_spelled, read_back};
pub use protocol_error::{TOO_BUSY, write_busy, write_error};
pub use proxies::Proxies;
pub use session::{Session, session_id};
