//! The reply of a peer to a message of the base protocol.

ghost use Rattle.std.specs.Prelude.{◌≡◌, true, false};
ghost use Rattle.dcc_dispatch.specs.Refusals.{IsBusyOrNothingUnder, is_refusal};
ghost use Rattle.dcc_dispatch.specs.Messages.{message_view};
ghost use Rattle.dcc_dispatch.specs.inner.Headings.{IsWhole};
ghost use Rattle.dcc_base.specs.Peers.{shut};
ghost use Rattle.dcc_dispatch.specs.Dispatches.{IsReplied};

use crate::message::Message;
use dcc_answer::{Proxies, Session, write_busy};
use dcc_base::{Peer, Reply};
use dcc_message::{Header, Identity};
use dcc_octets::OctetString;
use std::alloc::Global;

/// The reply of a peer to a message, from all its octets. A message that isn't heard is passed over before its list is read. A
/// heard message is answered; if memory is refused, the answer is the busy one or nothing, and then the peer is as it was.
pub(crate) fn reply_to(
    alloc: Global,
    identity: &Identity,
    peer: &mut Peer,
    header: Header,
    octets: &[u8],
) -> Reply
    requires { IsWhole octets.now }
    ensures { IsReplied identity.now peer.old peer.new (message_view header octets.now) result }
{
    if !peer.hears(&header) {
        return peer.pass_over(alloc);
    }
    let Ok(message) = Message::read(alloc, header, octets) else {
        return staying(OctetString::new(alloc));
    };
    match message.put_to(alloc, identity, peer) {
        Ok(reply) => reply,
        Err(_) => staying(message.busy(alloc, identity)),
    }
}

/// The busy answer under a header, or nothing if memory is refused for it too.
pub(crate) fn busy_or_nothing(
    alloc: Global,
    identity: &Identity,
    session: Option<Session<'_>>,
    header: &Header,
    proxies: &Proxies,
) -> OctetString
    ensures busy { IsBusyOrNothingUnder identity.now session.entry header.now proxies.now result }
    ensures refused { is_refusal result ≡ true }
{
    match write_busy(alloc, identity, session, header, proxies) {
        Ok(octets) => OctetString::from_vec(octets),
        Err(_) => OctetString::new(alloc),
    }
}

/// A reply of these octets, behind which the connection stays. Without octets there is no answer.
pub(crate) fn staying(octets: OctetString) -> Reply
    ensures { result ≡ record { octets = octets; close = false } }
{
    Reply {
        octets,
        close: false,
    }
}

/// No answer, and the connection is closed.
pub(crate) fn closing(alloc: Global) -> Reply
    ensures { result ≡ shut }
{
    Reply {
        octets: OctetString::new(alloc),
        close: true,
    }
}
