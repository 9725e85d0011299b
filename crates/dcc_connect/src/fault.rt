//! The faults and ends of a connection.

ghost use Rattle.std.specs.Prelude.{◌≡◌};
ghost use Rattle.dcc_connect.specs.Faults.{connect_fault_number};

use dcc_message::{HeaderFault, LengthFault};
use std::alloc::AllocError;
use thiserror::Error;

/// The reason for which a connection, or one of its sides, doesn't go on.
#[derive(Clone, Copy, Debug, PartialEq, Eq, Error)]
pub enum ConnectFault {
    /// Fault 70: the reader failed.
    #[error("the reader failed")]
    Read,
    /// Fault 71: the writer failed, or took no octet. It took so many octets before, and none since.
    #[error("the writer failed after {written} octets")]
    Write { written: u64 },
    /// Fault 72: the bound on turns was reached.
    #[error("too many turns")]
    TooManyTurns,
    /// Fault 10, 11 or 12: the octets that were read are no message.
    #[error("no message can be read")]
    Header(HeaderFault),
    /// Memory was refused.
    #[error("out of memory")]
    Memory,
}

impl ConnectFault {
    /// The number of the fault: 70, 71, 72, or the header's 10, 11 or 12; none for want of memory.
    pub fn number(&self) -> Option<u8>
        ensures { result ≡ connect_fault_number self.now }
    {
        match self {
            ConnectFault::Read => Some(70),
            ConnectFault::Write { written: _ } => Some(71),
            ConnectFault::TooManyTurns => Some(72),
            ConnectFault::Header(fault) => Some(fault.number()),
            ConnectFault::Memory => None,
        }
    }
}

impl From<AllocError> for ConnectFault {
    ghost use Rattle.dcc_connect.specs.declared.fault.ConnectFault.TheVariants.{Memory};

    ghost from_gives = { λ _ fault. fault ≡ Memory };

    fn from(_error: AllocError) -> ConnectFault {
        ConnectFault::Memory
    }
}

impl From<HeaderFault> for ConnectFault {
    ghost use Rattle.dcc_connect.specs.declared.fault.ConnectFault.TheVariants.{Header};

    ghost from_gives = { λ given fault. fault ≡ Header given };

    fn from(fault: HeaderFault) -> ConnectFault {
        ConnectFault::Header(fault)
    }
}

impl From<LengthFault> for ConnectFault {
    ghost use Rattle.dcc_connect.specs.declared.fault.ConnectFault.TheVariants.{Header};
    ghost use Rattle.dcc_message.specs.declared.header.HeaderFault.TheVariants.{Length};

    ghost from_gives = { λ given fault. fault ≡ Header (Length given) };

    fn from(fault: LengthFault) -> ConnectFault {
        ConnectFault::Header(HeaderFault::Length(fault))
    }
}

/// The end of a connection, or of its reader's side.
#[derive(Clone, Copy, Debug, PartialEq, Eq)]
pub enum ConnectionEnd {
    /// The reader ended. A rest of less than a message is dropped.
    End,
    /// The connection closes behind the last message that was passed on. The octets behind this message are dropped.
    Closed,
    /// A fault ended the connection.
    Fault(ConnectFault),
}

impl From<ConnectFault> for ConnectionEnd {
    ghost use Rattle.dcc_connect.specs.declared.fault.ConnectionEnd.TheVariants.{Fault};

    ghost from_gives = { λ given end. end ≡ Fault given };

    fn from(fault: ConnectFault) -> ConnectionEnd {
        ConnectionEnd::Fault(fault)
    }
}

/// The end of the reader's side of a connection.
pub type ReadEnd = ConnectionEnd;
