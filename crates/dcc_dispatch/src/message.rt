//! A message: its kind by its first octets, its list, and the values that an answer copies.

ghost use Rattle.std.specs.Prelude.{◌≡◌, ◌≤◌, ◌&&◌, [], true, false, length, Ok, Err, Some, IfOk, OnOk, OnErr, MatchBool};
ghost use Rattle.dcc_message.specs.declared.length.TheConstants.{HEADER_LENGTH};
ghost use Rattle.dcc_answer.specs.Results.{is_busy};
ghost use Rattle.dcc_base.specs.Peers.{hears, replied};
ghost use Rattle.dcc_dispatch.specs.Refusals.{IsBusyOrNothing, is_refusal};
ghost use Rattle.dcc_dispatch.specs.Messages.{message_view, session, received, is_charging};
ghost use Rattle.dcc_request.specs.Layout.{layout_fault};
ghost use Rattle.dcc_dispatch.specs.inner.Headings.{received_as, IsHeaded, IsWhole, fault_of};

use crate::reply::busy_or_nothing;
use dcc_answer::{Proxies, Session, session_id};
use dcc_avp::{Avp, AvpFault, read_list};
use dcc_base::{Peer, Reply};
use dcc_message::{HEADER_LENGTH, Header, Identity, read_header};
use dcc_octets::OctetString;
use std::alloc::{AllocError, Global};
use std::marker::Model;

/// The kind of a message by its first octets.
pub(crate) enum Heading {
    /// The peer is closed, so that nobody receives it.
    Ignored,
    /// It is no message.
    Broken,
    /// It is a credit-control request, under this header.
    Charging(Header),
    /// It is any other message, under this header.
    Base(Header),
}

/// The kind of a message to a peer.
#[tactic(auto, unfolding(crate::specs::Messages::received))]
pub(crate) fn receive(peer: &Peer, octets: &[u8]) -> Heading
    ensures received { received peer.now octets.now ≡ received_as peer.now result octets.now }
    ensures headed { IsHeaded peer.now result octets.now }
{
    if matches!(peer, Peer::Closed) {
        return Heading::Ignored;
    }
    match read_header(octets) {
        Err(_) => Heading::Broken,
        Ok(header) if is_charging(peer, &header) => Heading::Charging(header),
        Ok(header) => Heading::Base(header),
    }
}

/// Whether a message is a credit-control request to an open peer, which doesn't hear it.
fn is_charging(peer: &Peer, header: &Header) -> bool
    ensures { result ≡ is_charging peer.now header.now }
{
    matches!(peer, Peer::Open(_)) && header.is_request() && !peer.hears(header)
}

/// A message: the header, and the list behind it or the fault of a list that can't be read.
#[derive(Drop)]
pub(crate) struct Message<'a> {
    pub(crate) header: Header,
    pub(crate) list: Result<Vec<Avp<'a>>, AvpFault>,
    pub(crate) proxies: Proxies,
}

impl<'a> Model for Message<'a> {
    ghost use Rattle.std.specs.Prelude.{◌≡◌};
    ghost use Rattle.dcc_dispatch.specs.Messages.{MessageView, proxies_of_list};
    ghost use Rattle.dcc_dispatch.specs.inner.Headings.{list_with, IsListed};

    ghost Value = { MessageView };

    ghost view = { λ m. record { header = m.header; list = list_with (λ avps. avps.items) m.list } };

    ghost invariant = { λ m. (m.proxies ≡ proxies_of_list (list_with (λ avps. avps.items) m.list))
        × IsListed (λ avps. avps.items) m.list };
}

impl<'a> Message<'a> {
    /// Reads a message behind its header, from all its octets. The only error is want of memory.
    pub(crate) fn read(
        alloc: Global,
        header: Header,
        octets: &'a [u8],
    ) -> Result<Message<'a>, AllocError>
        requires { IsWhole octets.now }
        ensures { IfOk result (λ message. message ≡ message_view header octets.now) }
    {
        match read_list(alloc, &octets[HEADER_LENGTH..]) {
            Ok(avps) => {
                let proxies = Proxies::of(alloc, &avps)?;
                Ok(Message {
                    header,
                    list: Ok(avps),
                    proxies,
                })
            }
            Err(fault) => Message::unread(alloc, header, fault),
        }
    }

    /// A message whose list can't be read; or want of memory if that is the fault. Reading a list never returns a wrong size.
    fn unread(alloc: Global, header: Header, fault: AvpFault) -> Result<Message<'a>, AllocError>
        ensures message { IfOk result (λ message. message ≡ record { header = header; list = Err (fault_of fault) }) }
        ensures layout { OnOk result (layout_fault fault ≡ Some (fault_of fault)) }
    {
        match fault {
            AvpFault::Memory | AvpFault::WrongSize => Err(AllocError),
            _ => Ok(Message {
                header,
                list: Err(fault),
                proxies: Proxies::none(alloc),
            }),
        }
    }

    /// The Session-Id that a busy answer copies.
    fn session(&self) -> Option<Session<'a>>
        ensures { result ≡ session self.now }
    {
        match &self.list {
            Ok(avps) => session_id(avps),
            Err(_) => None,
        }
    }

    /// The busy answer, or nothing if memory is refused for it too.
    pub(crate) fn busy(&self, alloc: Global, identity: &Identity) -> OctetString
        ensures busy { IsBusyOrNothing identity.now self.now result }
        ensures refused { is_refusal result ≡ true }
    {
        busy_or_nothing(alloc, identity, self.session(), &self.header, &self.proxies)
    }

    /// The peer's reply to the message. The only error is want of memory, and then the peer is as it was.
    pub(crate) fn put_to(
        &self,
        alloc: Global,
        identity: &Identity,
        peer: &mut Peer,
    ) -> Result<Reply, AllocError>
        ensures ok { IfOk result (λ reply. (reply, peer.new) ≡ replied identity.now peer.old self.now.header self.now.list) }
        ensures err { OnErr result (peer.new ≡ peer.old) }
        ensures busy { IfOk result (λ reply. is_busy reply.octets ≡ false) }
        ensures some { IfOk result (λ reply. MatchBool (hears peer.old self.now.header)
            (HEADER_LENGTH ≤ length reply.octets) (reply.octets ≡ [])) }
    {
        match &self.list {
            Ok(avps) => peer.take(alloc, identity, &self.header, avps),
            Err(fault) => peer.take_unread(alloc, identity, &self.header, fault),
        }
    }
}
