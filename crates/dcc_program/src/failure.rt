//! How the program ends where it can't do its work.

ghost use Rattle.std.specs.Prelude.{◌≡◌, Some};
ghost use Rattle.std.specs.IoError.{error_kind};
ghost use Rattle.dcc_program.specs.Failures.{status_of, line_of, of_plan, of_read, of_line, of_operator, of_serve, of_call, of_replay, of_decode, of_io_kind};
ghost use Rattle.dcc_program.specs.declared.failure.Failure.TheVariants as failure;

use crate::calling::CallFailure;
use dcc_client::CallFault;
use dcc_decode::DecodeFault;
use dcc_operator::{LineFault, OperatorFault};
use dcc_replay::ReplayFault;
use dcc_rounds::ServeFault;
use dcc_streams::{ReadFault, WriteFault};
use dcc_tariff::PlanFault;
use std::alloc::{AllocError, AllocFailed};
use std::{fmt, io};

/// Why the program could not do its work.
#[derive(Clone, Copy)]
pub enum Failure {
    /// The command line is none of the program's.
    Usage,
    /// Memory was short.
    Memory,
    /// A file or a stream could not be read or written, or the script did not end.
    Io,
    /// The plan file has the fault with this number.
    Plan(u8),
    /// The store of a shard has the fault with this number.
    Store(u8),
    /// The line of the script with this number has none of the forms.
    Script(u64),
    /// What callers were told and what the shards hold disagree, with this number.
    Close(u8),
}

impl Failure {
    /// The exit status of the program: 1 for memory and input or output, 2 for the command line, 3 for the plan, 4 for the store,
    /// 5 for the script, 6 for a server whose receipts and books disagree.
    pub fn status(&self) -> u8
        ensures { result ≡ status_of self.now }
    {
        match self {
            Failure::Memory | Failure::Io => 1,
            Failure::Usage => 2,
            Failure::Plan(_) => 3,
            Failure::Store(_) => 4,
            Failure::Script(_) => 5,
            Failure::Close(_) => 6,
        }
    }
}

/// The one line that goes to standard error.
impl fmt::Display for Failure {
    ghost output = { λ failure. Some (line_of failure) };

    fn fmt<W: fmt::Write>(&self, f: &mut fmt::Formatter<W>) -> fmt::Result {
        match self {
            Failure::Usage => write!(
                f,
                "dcc: usage: dcc COMMAND ..; the commands are balance, check, decode, help, ledger, replay, serve and topup; dcc help COMMAND prints the forms of one"
            ),
            Failure::Memory => write!(f, "dcc: memory"),
            Failure::Io => write!(f, "dcc: io"),
            Failure::Plan(number) => write!(f, "dcc: plan fault {number}"),
            Failure::Store(number) => write!(f, "dcc: store fault {number}"),
            Failure::Script(line) => write!(f, "dcc: script line {line}"),
            Failure::Close(number) => write!(f, "dcc: close fault {number}"),
        }
    }
}

impl From<AllocError> for Failure {
    ghost from_gives = { λ _ given. given ≡ failure.Memory };

    fn from(_error: AllocError) -> Failure {
        Failure::Memory
    }
}

impl<T: Drop> From<AllocFailed<T>> for Failure {
    ghost from_gives = { λ _ given. given ≡ failure.Memory };

    fn from(_error: AllocFailed<T>) -> Failure {
        Failure::Memory
    }
}

impl From<io::Error> for Failure {
    ghost from_gives = { λ error given. given ≡ of_io_kind (error_kind error) };

    fn from(error: io::Error) -> Failure {
        match error.kind() {
            io::ErrorKind::OutOfMemory => Failure::Memory,
            _ => Failure::Io,
        }
    }
}

impl From<LineFault> for Failure {
    ghost from_gives = { λ fault given. given ≡ of_line fault };

    fn from(fault: LineFault) -> Failure {
        match fault {
            LineFault::Memory => Failure::Memory,
            LineFault::Line(line) => Failure::Script(line),
        }
    }
}

impl From<PlanFault> for Failure {
    ghost from_gives = { λ fault given. given ≡ of_plan fault };

    fn from(fault: PlanFault) -> Failure {
        match fault.number() {
            Some(number) => Failure::Plan(number),
            None => Failure::Memory,
        }
    }
}

impl From<ReadFault> for Failure {
    ghost from_gives = { λ fault given. given ≡ of_read fault };

    fn from(fault: ReadFault) -> Failure {
        match fault {
            ReadFault::Memory => Failure::Memory,
            ReadFault::Io => Failure::Io,
        }
    }
}

impl From<WriteFault> for Failure {
    ghost from_gives = { λ _ given. given ≡ failure.Io };

    fn from(_fault: WriteFault) -> Failure {
        Failure::Io
    }
}

impl From<OperatorFault> for Failure {
    ghost from_gives = { λ fault given. given ≡ of_operator fault };

    fn from(fault: OperatorFault) -> Failure {
        match fault {
            OperatorFault::Memory => Failure::Memory,
            OperatorFault::Output => Failure::Io,
            OperatorFault::Store(number) => Failure::Store(number),
        }
    }
}

impl From<ServeFault> for Failure {
    ghost from_gives = { λ fault given. given ≡ of_serve fault };

    fn from(fault: ServeFault) -> Failure {
        match fault {
            ServeFault::Memory => Failure::Memory,
            ServeFault::Io => Failure::Io,
            ServeFault::Close(number) => Failure::Close(number),
            ServeFault::Store(number) => Failure::Store(number),
        }
    }
}

impl From<CallFailure> for Failure {
    ghost from_gives = { λ fault given. given ≡ of_call fault };

    fn from(failure: CallFailure) -> Failure {
        match failure {
            CallFailure::Memory | CallFailure::Call(CallFault::Memory) => Failure::Memory,
            _ => Failure::Io,
        }
    }
}

impl From<ReplayFault> for Failure {
    ghost from_gives = { λ fault given. given ≡ of_replay fault };

    fn from(fault: ReplayFault) -> Failure {
        match fault {
            ReplayFault::Line(line) => Failure::Script(line),
            ReplayFault::Memory => Failure::Memory,
            ReplayFault::Input | ReplayFault::Output => Failure::Io,
        }
    }
}

impl From<DecodeFault> for Failure {
    ghost from_gives = { λ fault given. given ≡ of_decode fault };

    fn from(fault: DecodeFault) -> Failure {
        match fault {
            DecodeFault::Memory => Failure::Memory,
            DecodeFault::Input | DecodeFault::Output => Failure::Io,
        }
    }
}
