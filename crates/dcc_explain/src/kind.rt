//! The kinds of words.

ghost use Rattle.std.specs.Prelude.{◌≡◌, IfOk};
ghost use Rattle.dcc_explain.specs.Words.{is_read};

use dcc_words::{any_u64, hex_octets, host, moment, peer, sub};
use std::alloc::{AllocError, Global};

/// What a word of a script or of a command line is to be read as.
#[derive(Clone, Copy, PartialEq, Eq)]
pub enum Kind {
    Peer,
    Host,
    Moment,
    Sub,
    /// A ticket.
    Number,
    /// An amount, inside its limits or not.
    Amount,
    /// The octets of a message.
    Message,
}

impl Kind {
    /// Whether a word is read as this.
    pub fn reads(self, alloc: Global, word: &[u8]) -> Result<bool, AllocError>
        ensures { IfOk result (λ reads. reads ≡ is_read self word.now) }
    {
        match self {
            Kind::Peer => Ok(peer(word).is_some()),
            Kind::Host => Ok(host(alloc, word)?.is_some()),
            Kind::Moment => Ok(moment(word).is_some()),
            Kind::Sub => Ok(sub(word).is_some()),
            Kind::Number | Kind::Amount => Ok(any_u64(word).is_some()),
            Kind::Message => Ok(hex_octets(alloc, word)?.is_some()),
        }
    }

    /// The words that are read as this, in words.
    pub fn wanted(self) -> &'static str {
        match self {
            Kind::Peer => "a number from 0 to 4294967295",
            Kind::Host => "1 to 255 octets",
            Kind::Moment => "seconds since 1970, 0 to 4102444799",
            Kind::Sub => {
                "a type from 0 to 4 and 1 to 64 visible characters of ASCII with a colon between, such as 0:491700000001"
            }
            Kind::Number => "a number from 0 to 18446744073709551615",
            Kind::Amount => {
                "a whole number of minor units, of which 1 to 1000000000000000000 are amounts"
            }
            Kind::Message => "1 to 65536 octets in hex digits",
        }
    }
}
