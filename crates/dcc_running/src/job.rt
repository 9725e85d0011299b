//! What a caller asks of a shard.

use dcc_act::{Act, Sub};
use dcc_answer::Proxies;
use dcc_message::Header;

/// A request's work: whose it is, the act that it asks for, and what its answer takes over from it.
#[derive(Debug, Drop)]
pub struct Job {
    pub sub: Sub,
    pub act: Act,
    pub header: Header,
    pub proxies: Proxies,
}
