//! Requests of the base protocol, judged.

ghost use Rattle.std.specs.Prelude.{◌≡◌, Ok};
ghost use Rattle.dcc_request.specs.Answers.{Gives};
ghost use Rattle.dcc_base.specs.Requests.{capabilities, watchdog, disconnect, named, judged};

use crate::capabilities::host_of;
use crate::effect::Effect;
use dcc_avp::{Avp, codes};
use dcc_message::Header;
use dcc_octets::{Host, OctetString};
use dcc_request::{Command, Refused, Stop, check, command_of, number_within, required};
use std::alloc::Global;

/// The greatest Disconnect-Cause, DO_NOT_WANT_TO_TALK_TO_YOU (RFC 6733, section 5.4.3). The least is 0, REBOOTING.
pub const LAST_DISCONNECT_CAUSE: u32 = 2;

/// A request to exchange capabilities.
#[tactic(auto, unfolding(crate::specs::Requests::capabilities))]
fn capabilities<'a>(alloc: Global, avps: &[Avp<'a>]) -> Result<Effect, Stop<'a>>
    ensures { Gives (λ effect. effect) result (capabilities avps.now) }
{
    let groups = check(alloc, Command::CapabilitiesExchange, avps)?;
    let host = host_of(avps, &groups)?;
    Ok(Effect::Opens(Host::of(alloc, host)?))
}

/// A request for a sign of life of the connection.
#[tactic(auto, unfolding(crate::specs::Requests::watchdog))]
fn watchdog<'a>(alloc: Global, avps: &[Avp<'a>]) -> Result<Effect, Stop<'a>>
    ensures { Gives (λ effect. effect) result (watchdog avps.now) }
{
    check(alloc, Command::DeviceWatchdog, avps)?;
    Ok(Effect::Stays)
}

/// A request to end the connection.
#[tactic(auto, unfolding(crate::specs::Requests::disconnect))]
fn disconnect<'a>(alloc: Global, avps: &[Avp<'a>]) -> Result<Effect, Stop<'a>>
    ensures { Gives (λ effect. effect) result (disconnect avps.now) }
{
    check(alloc, Command::DisconnectPeer, avps)?;
    let avp = required(avps, codes::DISCONNECT_CAUSE)?;
    number_within(avp, 0, LAST_DISCONNECT_CAUSE)?;
    Ok(Effect::Closes)
}

/// The command that a header names, or the refusal of the header.
pub(crate) fn named(header: &Header) -> Result<Command, Refused<'static>>
    ensures { result ≡ named header.now }
{
    match command_of(header) {
        Ok(command) => Ok(command),
        Err(cause) => Err(Refused::bare(cause)),
    }
}

/// The effect of a request, or its refusal. The header is judged first.
#[tactic(auto, unfolding(crate::specs::Requests::judged))]
pub(crate) fn judged<'a>(
    alloc: Global,
    header: &Header,
    avps: &[Avp<'a>],
) -> Result<Effect, Stop<'a>>
    ensures { Gives (λ effect. effect) result (judged header.now (Ok avps.now)) }
{
    match named(header)? {
        Command::CapabilitiesExchange => capabilities(alloc, avps),
        Command::DeviceWatchdog => watchdog(alloc, avps),
        Command::DisconnectPeer => disconnect(alloc, avps),
        Command::CreditControl => Ok(Effect::Stays),
    }
}
