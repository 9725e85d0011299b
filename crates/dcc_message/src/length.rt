//! The length field of a message.

ghost use Rattle.std.specs.Prelude.{◌≡◌, ◌+◌, ◌≤◌, ◌++◌, length, true, IfSome, IfNone, IsTrue};
ghost use Rattle.dcc_message.specs.Streams.{length_field, length_fault, fault_at, begins_whole};

use dcc_octets::u24_at;

/// The most octets that a received message may have: 65,532, a limit of this server.
pub const MAX_LENGTH: usize = 65_532;

/// The octets of a header (RFC 6733, section 3).
pub const HEADER_LENGTH: usize = 20;

/// The octets up to the end of the length field: the version and the length.
pub(crate) const LENGTH_END: usize = 4;

/// A length field that no message can have.
#[derive(Clone, Copy, Debug, PartialEq, Eq)]
pub enum LengthFault {
    /// Fault 11: below 20 octets, or no multiple of 4. In the header of a whole message also: another number than that
    /// of its octets, or cut by the end of the octets.
    BadLength,
    /// Fault 12: above 65,532 octets.
    TooLong,
}

impl LengthFault {
    ghost use Rattle.dcc_message.specs.Faults.{length_fault_number};

    /// The number of the fault: 11 or 12.
    pub fn number(self) -> u8
        ensures { result ≡ length_fault_number self }
    {
        match self {
            LengthFault::BadLength => 11,
            LengthFault::TooLong => 12,
        }
    }
}

/// The length that the header's field states, in octets.
pub fn length_of(octets: &[u8]) -> usize
    requires { LENGTH_END ≤ length octets.now }
    ensures { result ≡ length_field octets.now }
{
    u24_at(octets, 1) as usize
}

/// The fault of the length field, if it is there and is at fault.
pub fn fault_in(octets: &[u8]) -> Option<LengthFault>
    ensures { result ≡ fault_at octets.now }
{
    if octets.len() < LENGTH_END {
        return None;
    }
    fault_of_length(length_of(octets))
}

/// The fault of a stated length, if it has any.
pub fn fault_of_length(stated: usize) -> Option<LengthFault>
    ensures { result ≡ length_fault stated }
{
    if stated > MAX_LENGTH {
        return Some(LengthFault::TooLong);
    }
    if stated < HEADER_LENGTH || !stated.is_multiple_of(4) {
        return Some(LengthFault::BadLength);
    }
    None
}

/// Whether a whole message stands at the front.
pub fn is_whole(octets: &[u8]) -> bool
    ensures { result ≡ begins_whole octets.now }
{
    octets.len() >= LENGTH_END && fault_in(octets).is_none() && length_of(octets) <= octets.len()
}
