//! The faults of a replay.

ghost use Rattle.std.specs.Prelude.{◌≡◌};
ghost use Rattle.dcc_replay.specs.Faults.{of_script, of_read};
ghost use Rattle.dcc_replay.specs.declared.fault.ReplayFault.TheVariants as fault;

use crate::script::ScriptFault;
use dcc_streams::{ReadFault, WriteFault};
use std::alloc::AllocError;
use thiserror::Error;

/// The reason for which a replay isn't made, or isn't written whole.
#[derive(Clone, Copy, Debug, PartialEq, Eq, Error)]
pub enum ReplayFault {
    /// The line of the script with this number, from 1, has none of the forms.
    #[error("line {0} of the script has none of the forms")]
    Line(u64),
    /// Memory was short.
    #[error("out of memory")]
    Memory,
    /// The script could not be read to its end.
    #[error("the script could not be read")]
    Input,
    /// The output could not be written whole.
    #[error("the output could not be written")]
    Output,
}

impl From<AllocError> for ReplayFault {
    ghost from_gives = { λ _ given. given ≡ fault.Memory };

    fn from(_error: AllocError) -> ReplayFault {
        ReplayFault::Memory
    }
}

impl From<ReadFault> for ReplayFault {
    ghost from_gives = { λ fault given. given ≡ of_read fault };

    fn from(fault: ReadFault) -> ReplayFault {
        match fault {
            ReadFault::Memory => ReplayFault::Memory,
            ReadFault::Io => ReplayFault::Input,
        }
    }
}

impl From<WriteFault> for ReplayFault {
    ghost from_gives = { λ _ given. given ≡ fault.Output };

    fn from(_fault: WriteFault) -> ReplayFault {
        ReplayFault::Output
    }
}

impl From<ScriptFault> for ReplayFault {
    ghost from_gives = { λ fault given. given ≡ of_script fault };

    fn from(fault: ScriptFault) -> ReplayFault {
        match fault {
            ScriptFault::Line(line) => ReplayFault::Line(line),
            ScriptFault::Memory => ReplayFault::Memory,
        }
    }
}
