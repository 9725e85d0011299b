//! The requests that are counted apart.

ghost use Rattle.std.specs.Prelude.{◌≡◌, slice_get, Some};
ghost use Rattle.dcc_metrics.specs.Messages.{command_kind, credit_kind, kind_of};

use crate::numbers::number_of;
use dcc_octets::u24_at;

/// What is counted apart: a command (RFC 6733, section 3.1), and of a Credit-Control-Request its CC-Request-Type (RFC 8506, section 8.3).
#[derive(Clone, Copy)]
pub enum RequestKind {
    /// Capabilities-Exchange-Request.
    Capabilities,
    /// Device-Watchdog-Request.
    Watchdog,
    /// Disconnect-Peer-Request.
    Disconnect,
    /// A Credit-Control-Request by its type.
    Initial,
    Update,
    Termination,
    Event,
    /// A Credit-Control-Request without such a type.
    Untyped,
    /// Any other message.
    Other,
}

/// The kinds in the order in which a page has them.
pub const KINDS: [RequestKind; 9] = [
    RequestKind::Capabilities,
    RequestKind::Watchdog,
    RequestKind::Disconnect,
    RequestKind::Initial,
    RequestKind::Update,
    RequestKind::Termination,
    RequestKind::Event,
    RequestKind::Untyped,
    RequestKind::Other,
];

/// The code of the AVP CC-Request-Type.
pub(crate) const CC_REQUEST_TYPE: u32 = 416;

/// The bit of the Command Flags that a request has.
pub(crate) const REQUEST: u8 = 0x80;

/// The kind of a message, by its header and, for credit control, by the first CC-Request-Type among its first 32 AVPs. It takes no memory.
pub fn kind_of(message: &[u8]) -> RequestKind
    ensures { result ≡ kind_of message.now }
{
    if message.len() < 8 || message[4] < REQUEST {
        return RequestKind::Other;
    }
    command_kind(u24_at(message, 5), message)
}

/// The kind of a request of this command.
fn command_kind(command: u32, message: &[u8]) -> RequestKind
    ensures { result ≡ command_kind command message.now }
{
    match command {
        257 => RequestKind::Capabilities,
        272 => credit_kind(number_of(message, CC_REQUEST_TYPE)),
        280 => RequestKind::Watchdog,
        282 => RequestKind::Disconnect,
        _ => RequestKind::Other,
    }
}

/// The kind of a Credit-Control-Request of this type.
fn credit_kind(number: Option<u32>) -> RequestKind
    ensures { result ≡ credit_kind number }
{
    match number {
        Some(1) => RequestKind::Initial,
        Some(2) => RequestKind::Update,
        Some(3) => RequestKind::Termination,
        Some(4) => RequestKind::Event,
        _ => RequestKind::Untyped,
    }
}

impl RequestKind {
    /// The index of the kind in [`KINDS`].
    pub(crate) fn index(self) -> usize
        ensures { slice_get KINDS result ≡ Some self }
    {
        match self {
            RequestKind::Capabilities => 0,
            RequestKind::Watchdog => 1,
            RequestKind::Disconnect => 2,
            RequestKind::Initial => 3,
            RequestKind::Update => 4,
            RequestKind::Termination => 5,
            RequestKind::Event => 6,
            RequestKind::Untyped => 7,
            RequestKind::Other => 8,
        }
    }
}
