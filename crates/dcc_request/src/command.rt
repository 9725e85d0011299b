//! Which command a request is of, and the check of a whole request.

ghost use Rattle.std.specs.Prelude.{◌≡◌};
ghost use Rattle.dcc_request.specs.Answers.{Gives};
ghost use Rattle.dcc_request.specs.Commands.{served, command_of, is_event, is_report, table_for};
ghost use Rattle.dcc_request.specs.Checks.{checked};

use crate::cause::Cause;
use crate::checks::first_fault;
use crate::refused::clear;
use crate::stop::Stop;
use crate::table::{self, Row};
use crate::values::first;
use crate::walk::{Group, groups_of};
use dcc_avp::{Avp, codes};
use dcc_message::{Header, applications, commands};
use std::alloc::Global;

/// The commands whose requests the server answers.
#[derive(Clone, Copy, Debug, PartialEq, Eq)]
pub enum Command {
    /// Capabilities-Exchange (RFC 6733, section 5.3).
    CapabilitiesExchange,
    /// Device-Watchdog (RFC 6733, section 5.5).
    DeviceWatchdog,
    /// Disconnect-Peer (RFC 6733, section 5.4).
    DisconnectPeer,
    /// Credit-Control (RFC 8506, section 3.1).
    CreditControl,
}

/// The command that a header names together with its application, if it is served.
fn served(header: &Header) -> Option<Command>
    ensures { result ≡ served header.now }
{
    if header.is_command(commands::CAPABILITIES_EXCHANGE, applications::BASE) {
        Some(Command::CapabilitiesExchange)
    } else if header.is_command(commands::DEVICE_WATCHDOG, applications::BASE) {
        Some(Command::DeviceWatchdog)
    } else if header.is_command(commands::DISCONNECT_PEER, applications::BASE) {
        Some(Command::DisconnectPeer)
    } else if header.is_command(commands::CREDIT_CONTROL, applications::CREDIT_CONTROL) {
        Some(Command::CreditControl)
    } else {
        None
    }
}

/// The command of a request, or the fault of its header (RFC 6733, section 7.1.3). The faults come in this order:
/// `InvalidHeaderBits` if the flags have both R and E; `ApplicationUnsupported` if the application is neither the base
/// protocol nor credit control; `CommandUnsupported` if that application doesn't have the command here. The other bits of
/// the flags may have any value. A message without R is an answer; this function is for requests only.
pub fn command_of(header: &Header) -> Result<Command, Cause>
    ensures { result ≡ command_of header.now }
{
    if header.is_request() && header.is_error() {
        return Err(Cause::InvalidHeaderBits);
    }
    if header.app != applications::BASE && header.app != applications::CREDIT_CONTROL {
        return Err(Cause::ApplicationUnsupported);
    }
    served(header).ok_or(Cause::CommandUnsupported)
}

/// Whether the first CC-Request-Type has four octets with EVENT_REQUEST (RFC 8506, section 8.3).
fn is_event(avps: &[Avp<'_>]) -> bool
    ensures { result ≡ is_event avps.now }
{
    match first(avps, codes::CC_REQUEST_TYPE) {
        Some(avp) => matches!(avp.as_u32(), Ok(table::EVENT_TYPE)),
        None => false,
    }
}

/// Whether the first CC-Request-Type has four octets with UPDATE_REQUEST or TERMINATION_REQUEST (RFC 8506, section 8.3).
fn is_report(avps: &[Avp<'_>]) -> bool
    ensures { result ≡ is_report avps.now }
{
    match first(avps, codes::CC_REQUEST_TYPE) {
        Some(avp) => matches!(
            avp.as_u32(),
            Ok(table::UPDATE_TYPE | table::TERMINATION_TYPE)
        ),
        None => false,
    }
}

impl Command {
    /// The table of the message's list. For a Credit-Control request it depends on the request's type.
    #[tactic(auto, unfolding(crate::specs::Commands::table_for))]
    pub(crate) fn table_for(self, avps: &[Avp<'_>]) -> &'static [Row]
        ensures { result.now ≡ table_for self avps.now }
    {
        match self {
            Command::CapabilitiesExchange => &table::CAPABILITIES,
            Command::DeviceWatchdog => &table::WATCHDOG,
            Command::DisconnectPeer => &table::DISCONNECT,
            Command::CreditControl if is_event(avps) => &table::EVENT,
            Command::CreditControl if is_report(avps) => &table::REPORT,
            Command::CreditControl => &table::SESSION,
        }
    }
}

/// Checks the list of a message that is a request of this command. The result is its walked groups in the order in
/// which they stand, each read once, or the first fault.
///
/// The walked groups of a Credit-Control request are each Subscription-Id, Requested-Service-Unit, Used-Service-Unit
/// and Multiple-Services-Credit-Control, and in the latter the units inside it; of a Capabilities-Exchange request each
/// Vendor-Specific-Application-Id; of another request none. No other group is read. AVPs of vendors count nowhere.
///
/// Each check is made over the message's list, and then over the walked groups in their order, each before the groups
/// inside it. Only then the next check is made:
///
/// - `InvalidAvpLength`, of a walked group: the refusal `unread`; but if fewer octets are left than a header has, it
///   shows the code and the flags of the innermost walked group whose list ends so;
/// - `AvpUnsupported`: the first AVP with M and without a vendor that the dictionary doesn't have;
/// - `AvpOccursTooManyTimes`: by the table's rows, the first AVP beyond the most that there may be;
/// - `MissingAvp`: by the table's rows, an AVP that stands for the missing one, with M (Product-Name with no flag;
///   RFC 6733, section 5.3.7) and the least data of its format in zeros.
///
/// A refusal shows the message's AVPs themselves, without the groups round them. The only other error is want of memory
/// for the groups.
#[tactic(auto, unfolding(crate::specs::Checks::checked))]
pub fn check<'a>(
    alloc: Global,
    command: Command,
    avps: &[Avp<'a>],
) -> Result<Vec<Group<'a>>, Stop<'a>>
    ensures { Gives (λ groups. groups.items) result (checked command avps.now) }
{
    let groups = groups_of(alloc, command, avps)?;
    clear(first_fault(command.table_for(avps), avps, &groups))?;
    Ok(groups)
}
