//! Credit-control requests, read whole: the request that a message holds, or its first fault (RFC 8506, section 3.1).
//!
//! Stands on `dcc_request` for the checks that all commands share and for refusals, on `dcc_act` for subscribers and the
//! two forms of a service, and on `dcc_avp`, `dcc_message` and `dcc_octets` for messages. The contract that it gives:
//! `read_ccr` returns the result of `request_of` (in `specs/Requests.antt`) for the list of a message, or want of memory.
//! Each of these steps is made over the whole message before the next:
//!
//! 1. the checks of lists (`dcc_request::check`): layout, unknown AVPs, AVPs that stand too often, missing AVPs;
//! 2. values, in this order: Session-Id, Auth-Application-Id, CC-Request-Type, CC-Request-Number, Requested-Action in events,
//!    Subscription-Id, Service-Identifier, Requested-Service-Unit, Used-Service-Unit, Multiple-Services-Credit-Control;
//! 3. contradictions between AVPs.
//!
//! A `Request` keeps its limits. Its Session-Id has 1 to 255 octets. Its amounts are at most 10^12, and a service asks for at
//! most 2^32 - 1 seconds. It has at most 32 services, no two of one key; a service in single form is the only service, and an
//! event has exactly one service. Together they have at most 5,460 Service-Identifiers. These are few because the message is
//! short: `read_ccr` is called with a list that stands in at most 65,532 octets. The AVPs that a refusal shows fit as many
//! octets. A request keeps its amounts in each unit in which they may be counted: the plan says which unit counts.
#![tactic(auto)]

mod amounts;
mod contradiction;
mod laws;
mod read;
mod request;
mod request_type;
mod service;
mod steps;
mod subscription;

pub use amounts::Amounts;
pub use laws::numbers_are_given;
pub use read::read_ccr;
pub use request::{Request, subscriber};
pub use request_type::RequestType;
pub use service::Service;
