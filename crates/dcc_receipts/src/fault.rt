//! The faults of a comparison of receipts with acts.

ghost use Rattle.std.specs.Prelude.{◌≡◌};
ghost use Rattle.dcc_receipts.specs.Faults.{fault_number};

use std::alloc::AllocError;
use thiserror::Error;

/// The reason for which receipts and acts disagree, or can't be compared.
#[derive(Clone, Copy, Debug, PartialEq, Eq, Error)]
pub enum CloseFault {
    /// Memory was refused.
    #[error("out of memory")]
    Memory,
    /// Fault 60: the acts don't begin with the acts at opening, a receipt isn't of these acts, or two fresh receipts have the same place.
    #[error("a receipt is not of these acts")]
    ReceiptStray,
    /// Fault 61: an act since opening has no fresh receipt.
    #[error("an act has no receipt")]
    ActWithoutReceipt,
    /// Fault 62: in a seat's receipts of a subscriber, a fresh receipt has no greater place than a receipt before it, or a receipt without a
    /// place, which is of an unknown subscriber, follows a receipt with a place.
    #[error("receipts are out of order")]
    OutOfOrder,
}

impl CloseFault {
    /// The number of the fault: 60, 61 or 62, and none for want of memory.
    pub fn number(&self) -> Option<u8>
        ensures { result ≡ fault_number self.now }
    {
        match self {
            CloseFault::Memory => None,
            CloseFault::ReceiptStray => Some(60),
            CloseFault::ActWithoutReceipt => Some(61),
            CloseFault::OutOfOrder => Some(62),
        }
    }
}

impl From<AllocError> for CloseFault {
    ghost use Rattle.dcc_receipts.specs.declared.fault.CloseFault.TheVariants.{Memory};

    ghost from_gives = { λ _ fault. fault ≡ Memory };

    fn from(_error: AllocError) -> CloseFault {
        CloseFault::Memory
    }
}
