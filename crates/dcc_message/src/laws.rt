//! The laws of headers and of streams. Each is the contract of a function that does nothing.

ghost use Rattle.std.specs.Prelude.{◌≡◌, ◌+◌, ◌++◌, ◌∷◌, [], true, false, ℕ, List, length, take, drop, Ok};
ghost use Rattle.dcc_message.specs.declared.applications.TheConstants as applications;
ghost use Rattle.dcc_message.specs.declared.commands.TheConstants as commands;
ghost use Rattle.dcc_message.specs.declared.command_flags.TheConstants as command_flags;
ghost use Rattle.dcc_message.specs.HeaderView.{HeaderView};
ghost use Rattle.dcc_message.specs.Headers.{header_of, message, IsHeader};
ghost use Rattle.std.specs.List.{concat};
ghost use Rattle.dcc_message.specs.Streams.{length_field, begins_whole, messages, rest, messages_by_pieces, rest_by_pieces};

use crate::length::{HEADER_LENGTH, MAX_LENGTH};

/// The numbers that definitions cite by name: the octets of a header and the most octets of a message (RFC 6733, section 3), the Command Codes (RFC 6733,
/// section 3.1, and RFC 8506, section 3), the Application-Ids (RFC 6733, section 2.4, and RFC 8506, section 1.3) and the Command Flags (RFC 6733, section 3).
pub fn numbers_are_given()
    ensures header { HEADER_LENGTH ≡ 20 }
    ensures most { MAX_LENGTH ≡ 65_532 }
    ensures capabilities { commands.CAPABILITIES_EXCHANGE ≡ 257 }
    ensures credit_control { commands.CREDIT_CONTROL ≡ 272 }
    ensures watchdog { commands.DEVICE_WATCHDOG ≡ 280 }
    ensures disconnect { commands.DISCONNECT_PEER ≡ 282 }
    ensures base { applications.BASE ≡ 0 }
    ensures charging { applications.CREDIT_CONTROL ≡ 4 }
    ensures relay { applications.RELAY ≡ 0xffff_ffff }
    ensures request { command_flags.REQUEST ≡ 0x80 }
    ensures proxiable { command_flags.PROXIABLE ≡ 0x40 }
    ensures error { command_flags.ERROR ≡ 0x20 }
    ensures retransmitted { command_flags.RETRANSMITTED ≡ 0x10 }
{}

/// The header of a written message is read back, with the length of the message, if its fields fit and the length is in
/// whole words of four octets and at most 65,532 octets.
pub fn header_read_back()
    ensures { (h : HeaderView) (avps : List ℕ) → let written = record h { length = HEADER_LENGTH + length avps } in
        IsHeader written → header_of (message h avps) ≡ Ok written }
{}

/// However a stream is cut into pieces, its messages are the same: those that are taken after each piece are those of the whole stream, and so
/// are the octets that are left.
pub fn any_pieces()
    ensures messages { (pieces : List (List ℕ)) → messages_by_pieces [] pieces ≡ messages (concat pieces) }
    ensures left { (pieces : List (List ℕ)) → rest_by_pieces [] pieces ≡ rest (concat pieces) }

    // The first message stands before the messages of the octets behind it.
    ensures first { (stream : List ℕ) → begins_whole stream ≡ true →
        messages stream ≡ take (length_field stream) stream ∷ messages (drop (length_field stream) stream) }
    ensures none { (stream : List ℕ) → begins_whole stream ≡ false → messages stream ≡ [] }
{}
