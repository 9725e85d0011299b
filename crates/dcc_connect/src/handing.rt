//! The clock of a connection, and the receiver of its messages.

use dcc_act::Moment;
use std::sync::Wait;

/// A clock. Each reading is a step of the clock, so that contracts distinguish its readings.
pub trait Clock {
    ghost use Rattle.std.specs.Prelude.{ℕ};

    /// The relation of a reading: the clock before it, the moment, and the clock after it.
    ghost tells: { Self → ℕ → Self → Type 0 };

    /// The present moment.
    fn moment(&mut self) -> Moment
        ensures { tells self.old result self.new };
}

/// Whether the connection stays behind a message.
#[derive(Clone, Copy, Debug, PartialEq, Eq)]
pub enum Handed {
    /// More messages may follow.
    Stays,
    /// No message is handed on behind this one.
    Closes,
}

/// The receiver of a connection's messages, one after another.
pub trait Submitter {
    ghost use Rattle.std.specs.Prelude.{ℕ, List};
    ghost use Rattle.dcc_connect.specs.declared.handing.Handed.{Handed};

    /// The relation of a message that is handed on: the submitter before it, the moment, the message's octets, whether the connection stays,
    /// and the submitter after it.
    ghost hands: { Self → ℕ → List ℕ → Handed → Self → Type 0 };

    /// Takes one whole message, at this moment. It may wait.
    fn hand<W: Wait>(&mut self, rt: &W, moment: Moment, message: &[u8]) -> Handed
        ensures { hands self.old moment message.now result self.new };
}
