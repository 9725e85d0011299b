//! Why a text isn't decoded whole.

ghost use Rattle.std.specs.Prelude.{◌≡◌};
ghost use Rattle.dcc_decode.specs.Faults.{of_read};
ghost use Rattle.dcc_decode.specs.declared.fault.DecodeFault.TheVariants as fault;

use dcc_streams::{ReadFault, WriteFault};
use std::alloc::AllocError;
use thiserror::Error;

/// Why a text isn't decoded, or what is decoded isn't written whole. No octets of a text are at fault.
#[derive(Clone, Copy, Debug, PartialEq, Eq, Error)]
pub enum DecodeFault {
    /// Memory was short.
    #[error("out of memory")]
    Memory,
    /// The text could not be read to its end.
    #[error("the text could not be read")]
    Input,
    /// What is decoded could not be written whole.
    #[error("the output could not be written")]
    Output,
}

impl From<AllocError> for DecodeFault {
    ghost from_gives = { λ _ given. given ≡ fault.Memory };

    fn from(_error: AllocError) -> DecodeFault {
        DecodeFault::Memory
    }
}

impl From<ReadFault> for DecodeFault {
    ghost from_gives = { λ fault given. given ≡ of_read fault };

    fn from(fault: ReadFault) -> DecodeFault {
        match fault {
            ReadFault::Memory => DecodeFault::Memory,
            ReadFault::Io => DecodeFault::Input,
        }
    }
}

impl From<WriteFault> for DecodeFault {
    ghost from_gives = { λ _ given. given ≡ fault.Output };

    fn from(_fault: WriteFault) -> DecodeFault {
        DecodeFault::Output
    }
}
