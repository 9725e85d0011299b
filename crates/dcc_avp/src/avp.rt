//! One AVP, lent from the octets that it stands in.

ghost use Rattle.std.specs.Prelude.{◌≡◌, ◌+◌, ◌^◌, ◌<◌, ◌≤◌, length, Some, None, is_some, bit_and, bit_or};
ghost use Rattle.std.specs.Int.{w32, w64};
ghost use Rattle.dcc_avp.specs.Spelling.{AvpView, IsAvp, header_len, avp_len, padded_len, vendor_octets, has_vendor, is_mandatory, has_code};
ghost use Rattle.dcc_avp.specs.Reading.{avp_of};
ghost use Rattle.dcc_avp.specs.Numbers.{unsigned_of, signed_of};

use crate::fault::AvpFault;
use dcc_octets::{u32_at, u32_in, u64_in};
use std::marker::Model;

/// The bits of an AVP's flags that this server reads (RFC 6733, section 4.1). It ignores the others.
pub mod flags {
    /// V: a Vendor-ID follows the length.
    pub const VENDOR: u8 = 0x80;
    /// M: a receiver that doesn't know the AVP has to reject the message.
    pub const MANDATORY: u8 = 0x40;
}

/// The length of a header in octets: 12 with a Vendor-ID, 8 without.
pub(crate) fn header_len(flags: u8) -> usize
    ensures { result ≡ header_len flags }
{
    if flags & flags::VENDOR != 0 { 12 } else { 8 }
}

/// An attribute-value pair (RFC 6733, section 4). It has a vendor if and only if its flags have V. Contracts see it as
/// an `AvpView`.
#[derive(Debug, Drop)]
pub struct Avp<'a> {
    code: u32,
    flags: u8,
    vendor: Option<u32>,
    value: &'a [u8],
}

impl<'a> Model for Avp<'a> {
    ghost use Rattle.dcc_avp.specs.Spelling.{AvpView, IsAvp};

    ghost Value = { AvpView };

    ghost view = { λ a. record { code = a.code; flags = a.flags; vendor = a.vendor; value = a.value.now } };

    ghost invariant = { λ a. IsAvp (record { code = a.code; flags = a.flags; vendor = a.vendor; value = a.value.now }) };
}

impl<'a> Avp<'a> {
    /// An AVP without a vendor: V is cleared in its flags.
    pub fn new(code: u32, flags: u8, value: &'a [u8]) -> Self
        ensures { result ≡ record { code = code; flags = bit_and flags 0x7f; vendor = None; value = value.now } }
    {
        Avp {
            code,
            flags: flags & !flags::VENDOR,
            vendor: None,
            value,
        }
    }

    /// An AVP of a vendor: V is set in its flags.
    pub fn with_vendor(code: u32, flags: u8, vendor: u32, value: &'a [u8]) -> Self
        ensures { result ≡ record { code = code; flags = bit_or flags 0x80; vendor = Some vendor; value = value.now } }
    {
        Avp {
            code,
            flags: flags | flags::VENDOR,
            vendor: Some(vendor),
            value,
        }
    }

    /// The AVP of a code, flags and the octets behind its length: the Vendor-ID, if the flags have V, and the data.
    pub(crate) fn of_body(code: u32, flags: u8, body: &'a [u8]) -> Self
        requires { header_len flags ≤ 8 + length body.now }
        ensures { result ≡ avp_of code flags body.now }
    {
        if flags & flags::VENDOR == 0 {
            return Avp {
                code,
                flags,
                vendor: None,
                value: body,
            };
        }
        let (vendor, value) = body.split_at(4);
        Avp {
            code,
            flags,
            vendor: Some(u32_at(vendor, 0)),
            value,
        }
    }

    /// The same AVP once more, over the same octets. It takes no memory.
    pub fn copy(&self) -> Self
        ensures { result ≡ self.now }
    {
        Avp {
            code: self.code,
            flags: self.flags,
            vendor: self.vendor,
            value: self.value,
        }
    }

    /// The number of octets of header and data, without padding, as AVP Length has it.
    pub fn length(&self) -> usize
        ensures counted { result ≡ avp_len self.now }
        ensures header { result ≡ 8 + length (vendor_octets self.now.vendor) + length self.now.value }
        ensures bound { result < 2 ^ 63 + 12 }
        ensures is_avp { IsAvp self.now }
    {
        header_len(self.flags) + self.value.len()
    }

    /// The number of octets of header, data and padding.
    pub fn padded_length(&self) -> usize
        ensures { result ≡ padded_len self.now }
    {
        self.length().next_multiple_of(4)
    }

    /// The AVP Code.
    pub fn code(&self) -> u32
        ensures { result ≡ self.now.code }
    {
        self.code
    }

    /// All eight bits of the flags, as received.
    pub fn flags(&self) -> u8
        ensures { result ≡ self.now.flags }
    {
        self.flags
    }

    /// Whether the flags have M.
    pub fn is_mandatory(&self) -> bool
        ensures { result ≡ is_mandatory self.now.flags }
    {
        self.flags() & flags::MANDATORY != 0
    }

    /// Whether a vendor defines it: the flags have V. Its code is then one of the vendor's own.
    pub fn is_vendor(&self) -> bool
        ensures value { result ≡ is_some self.now.vendor }
        ensures flag { result ≡ has_vendor self.now.flags }
    {
        self.vendor.is_some()
    }

    /// Whether it has this code and is no vendor's.
    pub fn has_code(&self, code: u32) -> bool
        ensures { result ≡ has_code code self.now }
    {
        self.code() == code && !self.is_vendor()
    }

    /// The Vendor-ID. It is there if and only if the flags have V.
    pub fn vendor(&self) -> Option<u32>
        ensures { result ≡ self.now.vendor }
    {
        self.vendor
    }

    /// The data, without padding.
    pub fn value(&self) -> &'a [u8]
        ensures { result.now ≡ self.now.value }
    {
        self.value
    }

    /// The data as an Unsigned32 or as an Enumerated; fault 4 if the data hasn't four octets.
    pub fn as_u32(&self) -> Result<u32, AvpFault>
        ensures { result ≡ unsigned_of w32 self.now.value }
    {
        u32_in(self.value).ok_or(AvpFault::WrongSize)
    }

    /// The data as an Unsigned64; fault 4 if the data hasn't eight octets.
    pub fn as_u64(&self) -> Result<u64, AvpFault>
        ensures { result ≡ unsigned_of w64 self.now.value }
    {
        u64_in(self.value).ok_or(AvpFault::WrongSize)
    }

    /// The data as an Integer32; fault 4 if the data hasn't four octets.
    pub fn as_i32(&self) -> Result<i32, AvpFault>
        ensures { result ≡ signed_of w32 self.now.value }
    {
        match self.value {
            [a, b, c, d] => Ok(i32::from_be_bytes([*a, *b, *c, *d])),
            _ => Err(AvpFault::WrongSize),
        }
    }

    /// The data as an Integer64; fault 4 if the data hasn't eight octets.
    pub fn as_i64(&self) -> Result<i64, AvpFault>
        ensures { result ≡ signed_of w64 self.now.value }
    {
        match self.value {
            [a, b, c, d, e, f, g, h] => { Ok(i64::from_be_bytes([*a, *b, *c, *d, *e, *f, *g, *h])) }
            _ => Err(AvpFault::WrongSize),
        }
    }
}
