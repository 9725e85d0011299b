//! The name of a session that an answer copies from its request.

ghost use Rattle.std.specs.Prelude.{◌≡◌, true};
ghost use Rattle.dcc_octets.specs.Names.{is_short};
ghost use Rattle.dcc_request.specs.Sessions.{session_named, session_of};

use dcc_avp::{Avp, codes};
use dcc_octets::is_short;
use std::marker::Model;

/// The name of a session, lent: 1 to 255 octets of any value (Session-Id, RFC 6733, section 8.8).
#[derive(Debug, Drop)]
pub struct Session<'a> {
    octets: &'a [u8],
}

impl<'a> Model for Session<'a> {
    ghost use Rattle.std.specs.Prelude.{◌≡◌, true, List, ℕ};
    ghost use Rattle.dcc_octets.specs.Names.{is_short};

    ghost Value = { List ℕ };

    ghost view = { λ s. s.octets.now };

    ghost invariant = { λ s. is_short s.octets.now ≡ true };
}

impl<'a> Session<'a> {
    /// The session of this name. None if the name hasn't 1 to 255 octets.
    pub fn new(octets: &'a [u8]) -> Option<Session<'a>>
        ensures { result ≡ session_named octets.now }
    {
        if !is_short(octets) {
            return None;
        }
        Some(Session { octets })
    }

    /// The octets of the name.
    pub fn as_slice(&self) -> &'a [u8]
        ensures value { result.now ≡ self.now }
        ensures limits { is_short self.now ≡ true }
    {
        self.octets
    }
}

/// The session of a list: its first Session-Id that is no vendor's, if that has 1 to 255 octets.
#[tactic(auto, unfolding(dcc_request::specs::Sessions::session_of))]
pub fn session_id<'a>(avps: &[Avp<'a>]) -> Option<Session<'a>>
    ensures { result ≡ session_of avps.now }
{
    for avp in avps {
        if avp.has_code(codes::SESSION_ID) {
            return Session::new(avp.value());
        }
    }
    None
}
