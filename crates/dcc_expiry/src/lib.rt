//! The ends of one subscriber's open sessions, if no request comes for them.
//!
//! Stands on `dcc_act`, for the names of sessions and for moments. The contract that it gives: each session has at most one
//! deadline, the deadline that was set last. Setting or clearing it leaves every other session's as it was. A session that
//! is due at a moment has the least deadline, and that is the moment or before it. A refusal changes nothing. Memory for one
//! more deadline can be taken beforehand: setting the deadline then takes none.
#![tactic(auto)]

mod due;
mod row;

pub use due::Due;
