//! The reply to a message: its answer, and the end of its connection.

ghost use Rattle.std.specs.Prelude.{◌≡◌};
ghost use Rattle.dcc_base.specs.Peers.{silent as silence, shut as shutting};

use dcc_octets::OctetString;
use std::alloc::Global;

/// The reply to a message on a connection.
#[derive(Debug, Drop)]
pub struct Reply {
    /// The octets of the answer; empty if there is no answer.
    pub octets: OctetString,
    /// Whether the connection is closed, behind the answer if there is one.
    pub close: bool,
}

impl Reply {
    /// No answer, and the connection stays.
    pub(crate) fn silent(alloc: Global) -> Reply
        ensures { result ≡ silence }
    {
        Reply {
            octets: OctetString::new(alloc),
            close: false,
        }
    }

    /// No answer, and the connection is closed.
    pub(crate) fn shut(alloc: Global) -> Reply
        ensures { result ≡ shutting }
    {
        Reply {
            octets: OctetString::new(alloc),
            close: true,
        }
    }
}
