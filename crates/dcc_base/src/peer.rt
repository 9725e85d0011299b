//! A peer, and its replies.

ghost use Rattle.std.specs.Prelude.{◌≡◌, ◌≤◌, ◌&&◌, ℕ, List, [], false, length, Option, Ok, Err, is_some, option_map, IfOk, OnErr, MatchBool, true};
ghost use Rattle.std.specs.List.{sum_by};
ghost use Rattle.dcc_avp.specs.Spelling.{padded_len};
ghost use Rattle.dcc_request.specs.Layout.{layout_fault};
ghost use Rattle.dcc_answer.specs.Results.{is_busy};
ghost use Rattle.dcc_base.specs.Peers.{host_of_peer, is_closed as is_over, hears as answers_to, unheard, concluded, is_credit_control as is_charging, replied, replied_to_fault};

use crate::answer::{is_capabilities, write_accepted, write_refused};
use crate::effect::Effect;
use crate::reply::Reply;
use crate::requests::{judged, named};
use dcc_answer::{Proxies, Session, session_id};
use dcc_avp::{Avp, AvpFault};
use dcc_message::{HEADER_LENGTH, Header, Identity, MAX_LENGTH, applications, commands};
use dcc_octets::{Host, OctetString};
use dcc_request::{Refused, Stop, shown_within, unread};
use std::alloc::{AllocError, Global};

/// A peer, by the state of its connection (RFC 6733, section 5.6).
#[derive(Debug, Drop)]
pub enum Peer {
    /// The connection is there, and no capabilities were exchanged on it yet.
    Wait,
    /// Capabilities were exchanged: the peer's host has this name, by the last exchange.
    Open(Host),
    /// The connection is closed, or is about to be.
    Closed,
}

impl Peer {
    /// The name of the peer's host, while the peer is open.
    pub fn host(&self) -> Option<&[u8]>
        ensures { option_map (λ host. host.now) result ≡ host_of_peer self.now }
    {
        match self {
            Peer::Open(host) => Some(host.as_slice()),
            Peer::Wait | Peer::Closed => None,
        }
    }

    /// The same name as a [`Host`].
    pub fn name(&self) -> Option<&Host>
        ensures { option_map (λ host. host.now) result ≡ host_of_peer self.now }
    {
        match self {
            Peer::Open(host) => Some(host),
            Peer::Wait | Peer::Closed => None,
        }
    }

    /// Takes a message whose list was read, and returns the reply to it.
    ///
    /// A request to exchange capabilities (RFC 6733, section 5.3) that is accepted opens the peer, the first and each later
    /// one, under the name of its Origin-Host. If it is refused, it is answered, and the connection is closed. A waiting peer
    /// closes the connection without an answer at any other message. An open peer answers a watchdog request (section 5.5).
    /// It answers a request to disconnect (section 5.4), and then the connection is closed, since the server doesn't wait for
    /// the peer to close it. Any other refusal leaves the peer as it is. An open peer ignores answers that come in, and
    /// Credit-Control requests without E, which others answer. A closed peer replies nothing.
    ///
    /// A refusal is that of the first check that fails, in this order: the header (DIAMETER_INVALID_HDR_BITS, 3008,
    /// DIAMETER_APPLICATION_UNSUPPORTED, 3007, DIAMETER_COMMAND_UNSUPPORTED, 3001; section 7.1.3), the checks of
    /// `dcc_request::check` (5014, 5001, 5009, 5005; section 7.1.5), and the values. In a request to disconnect, the
    /// Disconnect-Cause has to be 0 to 2 (5014, 5004). In a request to exchange capabilities, the Origin-Host has to have 1
    /// to 255 octets. The numbers of its applications and securities, and of the first Auth-Application-Id inside each
    /// Vendor-Specific-Application-Id, have to have four octets (5014). One of these applications has to be credit control
    /// or that of relays (DIAMETER_NO_COMMON_APPLICATION, 5010). There has to be no Inband-Security-Id, or one with
    /// NO_INBAND_SECURITY (DIAMETER_NO_COMMON_SECURITY, 5017). A protocol error, 3xxx, is reported in the short layout of
    /// section 7.2, with E set and with the request's Session-Id if that has 1 to 255 octets.
    ///
    /// The reply to a heard message is a whole message, and the reply to another is empty. No reply is the busy answer.
    ///
    /// The list has with its padding at most 65,532 octets. The only error is want of memory, and then the peer is as it was.
    pub fn take(
        &mut self,
        alloc: Global,
        identity: &Identity,
        header: &Header,
        avps: &[Avp<'_>],
    ) -> Result<Reply, AllocError>
        requires small { sum_by padded_len avps.now ≤ MAX_LENGTH }
        ensures ok { IfOk result (λ reply. (reply, self.new) ≡ replied identity.now self.old header.now (Ok avps.now)) }
        ensures err { OnErr result (self.new ≡ self.old) }
        ensures busy { IfOk result (λ reply. is_busy reply.octets ≡ false) }
        ensures some { IfOk result (λ reply. MatchBool (answers_to self.old header.now)
            (HEADER_LENGTH ≤ length reply.octets) (reply.octets ≡ [])) }
    {
        if !self.hears(header) {
            return Ok(self.pass_over(alloc));
        }
        shown_within();
        let proxies = Proxies::of(alloc, avps)?;
        match judged(alloc, header, avps) {
            Ok(effect) => self.accept(alloc, identity, header, &proxies, effect),
            Err(Stop::Refused(refused)) => {
                let session = session_id(avps);
                self.refuse(alloc, identity, header, session, &proxies, &refused)
            }
            Err(Stop::Memory) => Err(AllocError),
        }
    }

    /// Takes a message whose list can't be read, by the fault of its layout, and returns the reply to it. It is as `take`, but
    /// if the header has no fault, the refusal is DIAMETER_INVALID_AVP_LENGTH (5014), with the AVP that stands for the broken
    /// one. The answer copies neither a session nor proxies from the list. The fault has to be of the layout: each error of
    /// reading a list is, except want of memory.
    ///
    /// The only error is want of memory, and then the peer is as it was.
    pub fn take_unread(
        &mut self,
        alloc: Global,
        identity: &Identity,
        header: &Header,
        fault: &AvpFault,
    ) -> Result<Reply, AllocError>
        requires { is_some (layout_fault fault.now) ≡ true }
        ensures ok { IfOk result (λ reply. (reply, self.new)
            ≡ replied_to_fault identity.now self.old header.now (layout_fault fault.now)) }
        ensures err { OnErr result (self.new ≡ self.old) }
        ensures busy { IfOk result (λ reply. is_busy reply.octets ≡ false) }
        ensures some { IfOk result (λ reply. MatchBool (answers_to self.old header.now)
            (HEADER_LENGTH ≤ length reply.octets) (reply.octets ≡ [])) }
    {
        let Some(broken) = unread(fault) else {
            unreachable!()
        };
        if !self.hears(header) {
            return Ok(self.pass_over(alloc));
        }
        shown_within();
        let proxies = Proxies::none(alloc);
        match named(header) {
            Ok(_) => self.refuse(alloc, identity, header, None, &proxies, &broken),
            Err(refused) => self.refuse(alloc, identity, header, None, &proxies, &refused),
        }
    }

    /// Whether the peer answers a message under this header, as `take` says, if memory suffices. A waiting peer answers a
    /// request to exchange capabilities, an open peer each request but those of Credit-Control without E, and a closed peer
    /// none.
    pub fn hears(&self, header: &Header) -> bool
        ensures { result ≡ answers_to self.now header.now }
    {
        match self {
            Peer::Wait => header.is_request() && is_capabilities(header),
            Peer::Open(_) => header.is_request() && !is_credit_control(header),
            Peer::Closed => false,
        }
    }

    /// Takes a message that isn't heard, whatever its list. A waiting peer is closed; an open or closed peer ignores the message.
    /// It takes no memory.
    pub fn pass_over(&mut self, alloc: Global) -> Reply
        ensures turn { (result, self.new) ≡ unheard self.old }
        ensures none { result.octets ≡ [] }
    {
        if matches!(self, Peer::Wait) {
            *self = Peer::Closed;
            return Reply::shut(alloc);
        }
        Reply::silent(alloc)
    }

    /// Whether the connection is closed.
    fn is_closed(&self) -> bool
        ensures { result ≡ is_over self.now }
    {
        matches!(self, Peer::Closed)
    }

    /// Answers a request that is accepted.
    fn accept(
        &mut self,
        alloc: Global,
        identity: &Identity,
        request: &Header,
        proxies: &Proxies,
        effect: Effect,
    ) -> Result<Reply, AllocError>
        ensures ok { (session : Option (List ℕ)) → IfOk result (λ reply. (reply, self.new)
            ≡ concluded identity.now self.old request.now (record { session = session; proxies = proxies.now }) (Ok effect)) }
        ensures err { OnErr result (self.new ≡ self.old) }
        ensures busy { IfOk result (λ reply. is_busy reply.octets ≡ false) }
        ensures some { IfOk result (λ reply. HEADER_LENGTH ≤ length reply.octets) }
    {
        let answer = write_accepted(alloc, identity, request, proxies)?;
        match effect {
            Effect::Opens(host) => *self = Peer::Open(host),
            Effect::Stays => {}
            Effect::Closes => *self = Peer::Closed,
        }
        Ok(Reply {
            octets: OctetString::from_vec(answer),
            close: self.is_closed(),
        })
    }

    /// Answers a request that is refused.
    fn refuse(
        &mut self,
        alloc: Global,
        identity: &Identity,
        request: &Header,
        session: Option<Session<'_>>,
        proxies: &Proxies,
        refused: &Refused<'_>,
    ) -> Result<Reply, AllocError>
        requires small { sum_by padded_len refused.now.failed ≤ MAX_LENGTH }
        ensures ok { IfOk result (λ reply. (reply, self.new)
            ≡ concluded identity.now self.old request.now (record { session = session.entry; proxies = proxies.now }) (Err refused.now)) }
        ensures err { OnErr result (self.new ≡ self.old) }
        ensures busy { IfOk result (λ reply. is_busy reply.octets ≡ false) }
        ensures some { IfOk result (λ reply. HEADER_LENGTH ≤ length reply.octets) }
    {
        let answer = write_refused(alloc, identity, request, session, proxies, refused)?;
        if is_capabilities(request) {
            *self = Peer::Closed;
        }
        Ok(Reply {
            octets: OctetString::from_vec(answer),
            close: self.is_closed(),
        })
    }
}

/// Whether a message is of Credit-Control and without E, and so not of the base protocol.
fn is_credit_control(header: &Header) -> bool
    ensures { result ≡ is_charging header.now }
{
    !header.is_error() && header.is_command(commands::CREDIT_CONTROL, applications::CREDIT_CONTROL)
}
