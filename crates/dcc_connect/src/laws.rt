//! Laws of the numbers of faults, and of messages in streams. Each law is the contract of a function that does nothing.

ghost use Rattle.std.specs.Prelude.{◌≡◌, ℕ, Some};
ghost use Rattle.dcc_connect.specs.Faults.{connect_fault_number};
ghost use Rattle.dcc_connect.specs.declared.fault.ConnectFault.TheVariants as fault;
ghost use Rattle.dcc_connect.specs.inner.Steps.{StreamLaws};

use dcc_message::any_pieces;

/// A reader's fault is 70, a writer's fault is 71, and the fault of used-up turns is 72.
pub fn numbers_are_given()
    ensures reader { connect_fault_number fault.Read ≡ Some 70 }
    ensures writer { (written : ℕ) → connect_fault_number (fault.Write written) ≡ Some 71 }
    ensures turns { connect_fault_number fault.TooManyTurns ≡ Some 72 }
{}

/// The law `any_pieces`, for a stream that is read piece by piece.
pub(crate) fn stream_laws()
    ensures { StreamLaws }
{
    any_pieces();
}
