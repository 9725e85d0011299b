//! The laws of replies and of numbers. Each is the contract of a function that does nothing.

ghost use Rattle.std.specs.Prelude.{◌≡◌, ℕ, ◌≤◌, ◌∷◌, [], true, false, codes, List, length, Ok, Err};
ghost use Rattle.std.specs.List.{sum_by};
ghost use Rattle.dcc_avp.specs.Spelling.{AvpView, padded_len};
ghost use Rattle.dcc_avp.specs.Reading.{FaultView};
ghost use Rattle.dcc_message.specs.HeaderView.{HeaderView};
ghost use Rattle.dcc_message.specs.declared.identity.Identity.{Identity};
ghost use Rattle.dcc_message.specs.declared.length.TheConstants.{HEADER_LENGTH, MAX_LENGTH};
ghost use Rattle.dcc_answer.specs.Answers.{IsServer};
ghost use Rattle.dcc_answer.specs.Proxies.{proxies_of, SpellProxies};
ghost use Rattle.dcc_answer.specs.Results.{is_busy};
ghost use Rattle.dcc_base.specs.declared.peer.Peer.{Peer as PeerView};
ghost use Rattle.dcc_base.specs.Requests.{Read};
ghost use Rattle.dcc_base.specs.Peers.{hears, replied};

use crate::answer::{FAMILY, OWN_VENDOR, PRODUCT, SUCCESS};
use crate::capabilities::NO_INBAND_SECURITY;
use crate::requests::LAST_DISCONNECT_CAUSE;
use dcc_answer::{busy_by_result, read_back};
use dcc_request::shown_within;

/// The numbers that definitions cite by name: DIAMETER_SUCCESS (RFC 6733, section 7.1.2), the address family of IPv4 (section 4.3.1), the server's Vendor-Id
/// and Product-Name (sections 5.3.3 and 5.3.7), NO_INBAND_SECURITY (section 6.10) and the greatest Disconnect-Cause (section 5.4.3).
pub fn numbers_are_given()
    ensures success { SUCCESS ≡ 2001 }
    ensures family { FAMILY ≡ 0 ∷ 1 ∷ [] }
    ensures vendor { OWN_VENDOR ≡ 0 }
    ensures product { PRODUCT ≡ codes "dcc" }
    ensures security { NO_INBAND_SECURITY ≡ 0 }
    ensures cause { LAST_DISCONNECT_CAUSE ≡ 2 }
{}

/// No reply is the busy answer, if the server's names and address are within their limits, the list fits a message, and
/// its proxies can be spelled. The reply to a heard message has at least a header.
pub fn told_apart()
    ensures read { (identity : Identity) (peer : PeerView) (header : HeaderView) (avps : List AvpView) →
        IsServer identity → length identity.address ≡ 4 → sum_by padded_len avps ≤ MAX_LENGTH → SpellProxies (proxies_of avps) →
        is_busy (replied identity peer header (Ok avps)).0.octets ≡ false }
    ensures unread { (identity : Identity) (peer : PeerView) (header : HeaderView) (fault : FaultView) →
        IsServer identity → length identity.address ≡ 4 →
        is_busy (replied identity peer header (Err fault)).0.octets ≡ false }
    ensures some { (identity : Identity) (peer : PeerView) (header : HeaderView) (read : Read) → hears peer header ≡ true →
        HEADER_LENGTH ≤ length (replied identity peer header read).0.octets }
{
    busy_by_result();
    read_back();
    shown_within();
}
