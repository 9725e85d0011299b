//! The decision on a message to a peer.

ghost use Rattle.std.specs.Prelude.{◌≡◌, true, Some, is_some};
ghost use Rattle.dcc_base.specs.Peers.{host_of_peer};
ghost use Rattle.dcc_model.specs.Keys.{request_key};
ghost use Rattle.dcc_dispatch.specs.Dispatches.{IfAsked, IfSought, IfCharging, IfReplied, IsAsked, IsSought, IsRepliedTo};
ghost use Rattle.dcc_dispatch.specs.Verdicts.{verdict_of};
ghost use Rattle.dcc_dispatch.specs.Sought.{is_report};
ghost use Rattle.dcc_dispatch.specs.Messages.{host_name, message_view, proxies, received};
ghost use Rattle.dcc_dispatch.specs.Messages.Received.{Charging};
ghost use Rattle.dcc_dispatch.specs.inner.Headings.{IsWhole};
ghost use Rattle.dcc_dispatch.specs.inner.Known.{IsCharged};

use crate::asked::Asked;
use crate::message::{Heading, Message, receive};
use crate::reply::{closing, reply_to, staying};
use crate::sought::Sought;
use crate::verdict::Verdict;
use dcc_act::{Act, Moment, Sub};
use dcc_base::{Peer, Reply};
use dcc_message::{Header, Identity};
use dcc_octets::{Host, OctetString};
use dcc_tariff::Plan;
use std::alloc::Global;

/// The decision on a message to a peer.
#[derive(Debug, Drop)]
pub enum Dispatched {
    /// It is answered with these octets, or without octets not at all, and the connection stays or is closed behind them.
    Replied(Reply),
    /// Its subscriber's account is asked for an act.
    Asked(Asked),
    /// It names nobody: the subscriber who opened its session from the host of its peer is sought, and then asked for an act.
    Sought(Sought),
}

/// Decides on a message to a peer, from all its octets, at the moment at which it came (RFC 6733, section 3; RFC 8506, section 3).
///
/// A closed peer replies nothing. Octets without a header close the peer without an answer. A credit-control request to an open peer leaves
/// the peer as it is. It asks its subscriber for the act that the definitions give under the plan, which keeps the peer's host if it opens a
/// session. If it is an update or a termination that names no subscriber, it asks the subscriber who opened its session from that host for
/// that act. If it has a fault, the reply is its refusal. The reply to any other message, and the peer afterwards, are as `Peer::take` says.
/// If memory is refused, the reply is the busy answer, or none if memory is refused for that too; then the connection stays and the peer is
/// as it was.
/// stays and the peer is as it was.
pub fn dispatch(
    alloc: Global,
    plan: &Plan,
    identity: &Identity,
    peer: &mut Peer,
    moment: Moment,
    octets: &[u8],
) -> Dispatched
    // Only a credit-control request to an open peer asks an account, or seeks one.
    ensures charging { IfCharging result (λ header.
        received peer.old octets.now ≡ Charging (host_name peer.old) (message_view header octets.now)) }
    // The account is asked for the request's act, from the peer's host. The answer will have the request's header and proxies.
    ensures asked { IfAsked result (λ asked. IsAsked (message_view asked.header octets.now) (verdict_of
        (record { plan = plan.now; identity = identity.now }) moment (host_name peer.old) (message_view asked.header octets.now)) asked) }
    // If the request names nobody, the same holds of the sought subscriber.
    ensures sought { IfSought result (λ sought. IsSought (message_view sought.header octets.now) (verdict_of
        (record { plan = plan.now; identity = identity.now }) moment (host_name peer.old) (message_view sought.header octets.now)) sought) }
    // The act is a request's.
    ensures request { IfAsked result (λ asked. is_some (request_key asked.act.kind) ≡ true) }
    // Then the peer is as it was, and has a host.
    ensures kept { IfCharging result (λ header. peer.new ≡ peer.old) }
    ensures open { IfCharging result (λ header. host_of_peer peer.old ≡ Some (host_name peer.old)) }
    // Any other message has the reply of its definition, and leaves the peer as that says.
    ensures replied { IfReplied result (λ reply. IsRepliedTo (record { plan = plan.now; identity = identity.now })
        moment (received peer.old octets.now) peer.old peer.new reply) }
{
    match receive(peer, octets) {
        Heading::Ignored => Dispatched::Replied(staying(OctetString::new(alloc))),
        Heading::Broken => {
            *peer = Peer::Closed;
            Dispatched::Replied(closing(alloc))
        }
        Heading::Charging(header) => {
            let Some(host) = peer.name() else {
                unreachable!()
            };
            charge(alloc, plan, identity, moment, host, header, octets)
        }
        Heading::Base(header) => {
            Dispatched::Replied(reply_to(alloc, identity, peer, header, octets))
        }
    }
}

/// Decides on a credit-control request from a peer of this host, from all its octets.
fn charge(
    alloc: Global,
    plan: &Plan,
    identity: &Identity,
    moment: Moment,
    host: &Host,
    header: Header,
    octets: &[u8],
) -> Dispatched
    requires { IsWhole octets.now }
    ensures { IsCharged (record { plan = plan.now; identity = identity.now }) moment host.now (message_view header octets.now) result }
{
    let Ok(message) = Message::read(alloc, header, octets) else {
        return Dispatched::Replied(staying(OctetString::new(alloc)));
    };
    let Ok(verdict) = message.verdict(alloc, plan, identity, moment, host) else {
        return Dispatched::Replied(staying(message.busy(alloc, identity)));
    };
    match verdict {
        Verdict::Asks { sub, act } => Dispatched::Asked(ask(message, sub, act)),
        Verdict::Seeks { act } => Dispatched::Sought(seek(message, act)),
        Verdict::Refused(refusal) => Dispatched::Replied(staying(refusal)),
    }
}

/// The message as an act that is asked of this subscriber.
fn ask(message: Message<'_>, sub: Sub, act: Act) -> Asked
    ensures { result ≡ record { sub = sub; act = act; header = message.entry.header; proxies = proxies message.entry } }
{
    let Message {
        header,
        list: _,
        proxies,
    } = message;
    Asked {
        sub,
        act,
        header,
        proxies,
    }
}

/// The message as an act that is asked of the subscriber who opened its session.
fn seek(message: Message<'_>, act: Act) -> Sought
    requires { is_report act.kind ≡ true }
    ensures { result ≡ record { act = act; header = message.entry.header; proxies = proxies message.entry } }
{
    let Message {
        header,
        list: _,
        proxies,
    } = message;
    Sought {
        act,
        header,
        proxies,
    }
}
