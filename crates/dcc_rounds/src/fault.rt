//! Why a server ends before its rounds are over.

ghost use Rattle.std.specs.Prelude.{◌≡◌, true};
ghost use Rattle.dcc_lane.specs.Faults.{lane_fault_number};
ghost use Rattle.dcc_receipts.specs.Faults.{fault_number};
ghost use Rattle.dcc_rounds.specs.Lines.{is_of_lanes, of_number};
ghost use Rattle.dcc_rounds.specs.declared.fault.ServeFault.TheVariants as fault;

use dcc_lane::LaneFault;
use dcc_receipts::CloseFault;
use dcc_streams::WriteFault;
use std::alloc::{AllocError, AllocFailed};
use thiserror::Error;

/// Why a server ends before its rounds are over.
#[derive(Clone, Copy, Debug, PartialEq, Eq, Error)]
pub enum ServeFault {
    /// Memory was short for a round, or for its comparison.
    #[error("out of memory")]
    Memory,
    /// The output or the listener failed.
    #[error("the output or the listener failed")]
    Io,
    /// Receipts and books disagree, with this number: 60, 61 or 62; or 80, the sender of a lane is missing.
    #[error("receipts disagree, fault {0}")]
    Close(u8),
    /// A store has the fault with this number: 51, it failed in the round whose line was printed.
    #[error("store fault {0}")]
    Store(u8),
}

impl From<AllocError> for ServeFault {
    ghost from_gives = { λ _ given. given ≡ fault.Memory };

    fn from(_error: AllocError) -> ServeFault {
        ServeFault::Memory
    }
}

impl<T: Drop> From<AllocFailed<T>> for ServeFault {
    ghost from_gives = { λ _ given. given ≡ fault.Memory };

    fn from(_error: AllocFailed<T>) -> ServeFault {
        ServeFault::Memory
    }
}

impl From<WriteFault> for ServeFault {
    ghost from_gives = { λ _ given. given ≡ fault.Io };

    fn from(_fault: WriteFault) -> ServeFault {
        ServeFault::Io
    }
}

/// What a fault of a lane ends a server with.
pub(crate) fn of_lane(fault: LaneFault) -> ServeFault
    ensures value { result ≡ of_number (lane_fault_number fault) }
    ensures lanes { is_of_lanes result ≡ true }
{
    match fault {
        LaneFault::SenderMissing => ServeFault::Close(80),
        LaneFault::Memory => ServeFault::Memory,
    }
}

/// What a fault of the comparison ends a server with.
pub(crate) fn of_close(fault: CloseFault) -> ServeFault
    ensures value { result ≡ of_number (fault_number fault) }
{
    match fault.number() {
        Some(number) => ServeFault::Close(number),
        None => ServeFault::Memory,
    }
}
