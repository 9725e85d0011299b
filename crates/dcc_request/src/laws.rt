//! The laws of numbers, and of how many octets the AVPs of reading and checking have. Each is the contract of a function that
//! does nothing.

ghost use Rattle.std.specs.Prelude.{◌≡◌, ℕ, ◌≤◌, List, length, IfOk, IfErr};
ghost use Rattle.std.specs.Int.{next_multiple_of};
ghost use Rattle.std.specs.List.{sum_by, AllByRecursion};
ghost use Rattle.dcc_avp.specs.Spelling.{AvpView, padded_len};
ghost use Rattle.dcc_avp.specs.Reading.{FaultView};
ghost use Rattle.dcc_message.specs.declared.length.TheConstants.{MAX_LENGTH};
ghost use Rattle.dcc_request.specs.declared.command.Command.{Command};
ghost use Rattle.dcc_request.specs.Layout.{message_list, unread};
ghost use Rattle.dcc_request.specs.Checks.{checked, missing_avp};
ghost use Rattle.dcc_request.specs.Sizes.{AreWithin, IsGroupWithin};

use crate::table::{EVENT_TYPE, MAX_SERVICES, TERMINATION_TYPE, UPDATE_TYPE};

/// The numbers that definitions cite by name: 32 services for a request, and UPDATE_REQUEST, TERMINATION_REQUEST and
/// EVENT_REQUEST (RFC 8506, section 8.3).
pub fn numbers_are_given()
    ensures services { MAX_SERVICES ≡ 32 }
    ensures update { UPDATE_TYPE ≡ 2 }
    ensures termination { TERMINATION_TYPE ≡ 3 }
    ensures event { EVENT_TYPE ≡ 4 }
{}

/// If the message's list has at most the octets of a message, with padding, then the AVPs that a refusal shows have together
/// at most as many, and so has each AVP of the list and of the walked groups. An AVP that stands for a broken or a missing
/// one has at most 24 octets.
pub fn shown_within()
    ensures refused { (command : Command) (avps : List AvpView) → sum_by padded_len avps ≤ MAX_LENGTH →
        IfErr (checked command avps) (λ refusal. sum_by padded_len refusal.failed ≤ MAX_LENGTH) }
    ensures groups { (command : Command) (avps : List AvpView) → sum_by padded_len avps ≤ MAX_LENGTH →
        IfOk (checked command avps) (λ groups. AllByRecursion (IsGroupWithin MAX_LENGTH) groups) }
    ensures list { (avps : List AvpView) → sum_by padded_len avps ≤ MAX_LENGTH → AreWithin MAX_LENGTH avps }
    ensures unread { (fault : FaultView) → sum_by padded_len (unread fault).failed ≤ 24 }
    ensures missing { (code : ℕ) → padded_len (missing_avp code) ≤ 24 }
{}

/// The AVPs that were read from octets have together, with their padding, at most as many octets as these, rounded up
/// to whole words of four.
pub fn list_within()
    ensures { (octets : List ℕ) → IfOk (message_list octets) (λ avps. sum_by padded_len avps ≤ next_multiple_of (length octets) 4) }
{}
