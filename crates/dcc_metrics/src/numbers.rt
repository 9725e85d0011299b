//! A number among the AVPs of a message (RFC 6733, section 4.1).

ghost use Rattle.std.specs.Prelude.{◌≡◌, ◌+◌, ◌<◌, ◌≤◌, ◌^◌, length};
ghost use Rattle.dcc_metrics.specs.Messages.{has_number, number_of, step_at};

use dcc_octets::{u24_at, u32_at};

/// The number of octets of a header of a message.
pub(crate) const HEADER: usize = 20;

/// The most AVPs of a message that are looked at.
pub(crate) const MOST_AVPS: usize = 32;

/// The bit of the AVP Flags that says that a Vendor-Id follows.
pub(crate) const VENDOR: u8 = 0x80;

/// The number in the first AVP of this code, without a vendor, among the first [`MOST_AVPS`] AVPs of a message. None if no such AVP is there.
pub(crate) fn number_of(message: &[u8], code: u32) -> Option<u32>
    ensures { result ≡ number_of code message.now }
{
    let mut at = HEADER;
    for _passed in 0..MOST_AVPS {
        if message.len() < at + 12 {
            return None;
        }
        if has_number(message, at, code) {
            return Some(u32_at(message, at + 8));
        }
        at += step_at(message, at);
    }
    None
}

/// Whether an AVP of this code, without a vendor, begins here. The condition: twelve octets are there.
fn has_number(message: &[u8], at: usize, code: u32) -> bool
    requires { at + 12 ≤ length message.now }
    ensures { result ≡ has_number code message.now at }
{
    u32_at(message, at) == code && message[at + 4] < VENDOR
}

/// The number of octets of the AVP that begins here, with its padding. The condition: twelve octets are there.
fn step_at(message: &[u8], at: usize) -> usize
    requires { at + 12 ≤ length message.now }
    ensures value { result ≡ step_at message.now at }
    ensures below { result < 2 ^ 25 }
{
    let words = (u24_at(message, at + 5) + 3) / 4;
    (words * 4) as usize
}
