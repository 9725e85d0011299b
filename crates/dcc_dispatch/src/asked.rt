//! An act that is asked of a subscriber's account.

use dcc_act::{Act, Sub};
use dcc_answer::Proxies;
use dcc_message::Header;

/// An act that is asked of a subscriber's account. The answer is written under this header, with these proxies.
#[derive(Debug, Drop)]
pub struct Asked {
    pub sub: Sub,
    pub act: Act,
    pub header: Header,
    pub proxies: Proxies,
}
