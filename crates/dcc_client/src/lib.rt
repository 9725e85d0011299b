//! The calls of an operator's client: a request over HTTP/1.1 to a server that runs, and the finding of its answer.
//!
//! Stands on `dcc_act` for subscribers, on the kit's `http1` for requests and responses, on `serde_json` for their bodies, and on
//! `percent_encoding` for paths. The contract that it gives: [`ask`] writes exactly the octets of the call's request, reads the answer to its
//! end, and returns the finding that the definitions give for the status and the body of the response with which these octets begin. Each
//! error is named ([`CallFault`]).
#![tactic(auto)]

mod asking;
mod body;
mod call;
mod fault;
mod finding;
mod money;
mod reading;
mod reply;
mod request;

pub use asking::ask;
pub use call::Call;
pub use fault::CallFault;
pub use finding::{Answer, Finding, Told};
pub use money::Money;
pub use reading::MOST_OCTETS;
