//! Counters of a server that runs, and their page in the text format 0.0.4 of Prometheus.
//!
//! Stands on `dcc_octets` alone, for numbers in octets. The contract that it gives: a page is the text of some counts, line for line; a message
//! is counted by its command and its CC-Request-Type, an answer by its Result-Code, and a time in the first bucket that it fits. No contract says
//! which number an atomic counter has. Counting takes no lock and no memory; the table of the gateways' hosts has a lock of its own.
#![tactic(auto)]

mod bounds;
mod counts;
mod family;
mod hosts;
mod laws;
mod meters;
mod numbers;
mod page;
mod requests;
mod results;
mod row;
mod shard;

pub use bounds::BOUNDS;
pub use laws::numbers_are_given;
pub use meters::Meters;
pub use requests::{KINDS, RequestKind, kind_of};
pub use results::{RESULTS, TOO_BUSY, result_of};
