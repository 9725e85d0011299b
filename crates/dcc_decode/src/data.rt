//! The data of an AVP, as text.

use crate::values::value_name;
use dcc_avp::{Avp, AvpFault, DataFormat, known};
use dcc_octets::are_visible;
use jiff::Timestamp;
use std::alloc::{AllocError, Global};
use std::fmt::{Display, Write};
use std::net::{Ipv4Addr, Ipv6Addr};
use std::str;

/// The seconds from the beginning of 1900, where Diameter's moments begin, to that of 1970.
const BEFORE_1970: i64 = 2_208_988_800;

/// As many seconds after its beginning the count of a moment begins anew, in February 2036 (RFC 6733, section 4.3.1).
const TURN: i64 = 1 << 32;

/// The data format of an AVP: that of the dictionary, and octets where it hasn't the AVP.
pub(crate) fn format_of(avp: &Avp<'_>) -> DataFormat {
    if avp.is_vendor() {
        return DataFormat::OctetString;
    }
    known(avp.code()).unwrap_or(DataFormat::OctetString)
}

/// Appends the data of an AVP in its format; nothing of a group. At data that is no number of the format, which is fault 4,
/// nothing is appended.
pub(crate) fn put_data(text: &mut String, alloc: Global, avp: &Avp<'_>) -> Result<(), AvpFault> {
    match format_of(avp) {
        DataFormat::Grouped => {}
        DataFormat::OctetString => put_octets(text, alloc, avp.value())?,
        DataFormat::Utf8String | DataFormat::DiameterIdentity => {
            put_text(text, alloc, avp.value())?
        }
        DataFormat::Address => put_address(text, alloc, avp.value())?,
        DataFormat::Time => put_moment(text, avp.as_u32()?)?,
        DataFormat::Unsigned32 | DataFormat::Enumerated => {
            put_value(text, avp.code(), avp.as_u32()?)?
        }
        DataFormat::Unsigned64 => put_number(text, avp.as_u64()?)?,
        DataFormat::Integer32 => put_number(text, avp.as_i32()?)?,
        DataFormat::Integer64 => put_number(text, avp.as_i64()?)?,
    }
    Ok(())
}

/// Appends a number in decimal.
fn put_number<N: Display + Drop>(text: &mut String, number: N) -> Result<(), AllocError> {
    write!(text, "{number}")
}

/// Appends octets in hex.
pub(crate) fn put_hex(text: &mut String, alloc: Global, octets: &[u8]) -> Result<(), AllocError> {
    let digits = hex::encode(alloc, octets)?;
    text.push_str("0x")?;
    text.push_str(digits.as_str())
}

/// Appends octets: as text between quotes where all are visible characters of ASCII, and else in hex.
fn put_octets(text: &mut String, alloc: Global, octets: &[u8]) -> Result<(), AllocError> {
    if are_visible(octets) {
        put_text(text, alloc, octets)
    } else {
        put_hex(text, alloc, octets)
    }
}

/// Appends a text between quotes, its controls, quotes and backslashes escaped. Octets that aren't UTF-8 are said to be none.
fn put_text(text: &mut String, alloc: Global, octets: &[u8]) -> Result<(), AllocError> {
    match str::from_utf8(octets) {
        Ok(words) => write!(text, "{words:?}"),
        Err(_) => {
            put_hex(text, alloc, octets)?;
            text.push_str(" (not UTF-8)")
        }
    }
}

/// Appends an address (RFC 6733, section 4.3.1): of IPv4, of IPv6, or in hex with the number of its family.
fn put_address(text: &mut String, alloc: Global, octets: &[u8]) -> Result<(), AllocError> {
    match octets {
        [0, 1, a, b, c, d] => {
            let address = Ipv4Addr::new(*a, *b, *c, *d);
            write!(text, "{address}")
        }
        [0, 2, address @ ..] => match address.first_chunk::<16>() {
            Some(whole) if address.len() == 16 => {
                let address = Ipv6Addr::from(*whole);
                write!(text, "{address}")
            }
            _ => put_hex(text, alloc, octets),
        },
        _ => put_hex(text, alloc, octets),
    }
}

/// Appends a moment in UTC. A number with its highest bit is of the years up to 2036, and one without it of those from then on.
fn put_moment(text: &mut String, seconds: u32) -> Result<(), AllocError> {
    let since_1900 = i64::from(seconds);
    let turn = if seconds >> 31 == 0 { TURN } else { 0 };
    match Timestamp::from_second(since_1900 + turn - BEFORE_1970) {
        Ok(moment) => write!(text, "{moment}"),
        Err(_) => write!(text, "{seconds}"),
    }
}

/// Appends a number, with its name in front where the number of this AVP has one.
fn put_value(text: &mut String, code: u32, number: u32) -> Result<(), AllocError> {
    match value_name(code, number) {
        Some(name) => write!(text, "{name} ({number})"),
        None => write!(text, "{number}"),
    }
}
