//! AVPs as a tree of lines.

ghost use Rattle.std.specs.Prelude.{◌≡◌, ◌<◌, true, IfOk};

use crate::data::{format_of, put_data, put_hex};
use crate::lists::read_as_far;
use crate::names::{put_avp_flags, put_avp_name};
use dcc_avp::{Avp, AvpFault, DataFormat};
use std::alloc::{AllocError, Global};
use std::fmt::Write;

/// The AVPs of a message stand at level 1, and those of a group at the next one, up to this. A group at it is shown in hex:
/// none that a standard defines is as deep.
pub const MAX_LEVEL: u32 = 16;

/// Appends the indentation of a level, two spaces for each.
pub(crate) fn put_indent(text: &mut String, level: u32) -> Result<(), AllocError> {
    for _ in 0..level {
        text.push_str("  ")?;
    }
    Ok(())
}

/// Appends the lines of a list of AVPs, as far as it can be read, and then its fault and the octets that are left. The list
/// begins at this octet of its message, counted from 0.
pub(crate) fn put_list(
    text: &mut String,
    alloc: Global,
    octets: &[u8],
    start: usize,
    level: u32,
) -> Result<(), AllocError> {
    let found = read_as_far(alloc, octets)?;
    let mut place = start;
    for avp in found.avps.iter() {
        // No message is so long that a place in it passes the limit of its type.
        let data = place.saturating_add(avp.length() - avp.value().len());
        if put_avp(text, alloc, avp, data, level)? {
            put_list(text, alloc, avp.value(), data, level + 1)?;
        }
        place = place.saturating_add(avp.padded_length());
    }
    match found.fault {
        Some(fault) => put_rest(text, alloc, fault, place, found.left, level),
        None => Ok(()),
    }
}

/// Appends the line of an AVP, whose data begins at this octet of the message, and says whether lines of a group are to follow.
fn put_avp(
    text: &mut String,
    alloc: Global,
    avp: &Avp<'_>,
    data: usize,
    level: u32,
) -> Result<bool, AllocError>
    ensures { IfOk result (λ is_open. is_open ≡ true → level < MAX_LEVEL) }
{
    put_indent(text, level)?;
    put_avp_name(text, avp)?;
    put_avp_flags(text, avp)?;
    text.push(':')?;
    if format_of(avp) != DataFormat::Grouped {
        text.push(' ')?;
        put_value_line(text, alloc, avp, data, level)?;
        return Ok(false);
    }
    if level >= MAX_LEVEL {
        text.push(' ')?;
        put_hex(text, alloc, avp.value())?;
        text.push_str(" (not shown deeper)\n")?;
        return Ok(false);
    }
    text.push('\n')?;
    Ok(true)
}

/// Appends the data of an AVP and ends its line. Data of another size than its number stands there in hex, and its fault
/// below.
fn put_value_line(
    text: &mut String,
    alloc: Global,
    avp: &Avp<'_>,
    data: usize,
    level: u32,
) -> Result<(), AllocError> {
    match put_data(text, alloc, avp) {
        Ok(()) => text.push('\n'),
        Err(AvpFault::Memory) => Err(AllocError),
        Err(fault) => {
            put_hex(text, alloc, avp.value())?;
            text.push('\n')?;
            put_fault(text, fault, data, level.saturating_add(1))
        }
    }
}

/// Appends the fault of a list and the octets that are left of it.
fn put_rest(
    text: &mut String,
    alloc: Global,
    fault: AvpFault,
    place: usize,
    left: &[u8],
    level: u32,
) -> Result<(), AllocError> {
    put_fault(text, fault, place, level)?;
    put_indent(text, level)?;
    text.push_str("octets left: ")?;
    put_hex(text, alloc, left)?;
    text.push('\n')
}

/// Appends the line of a fault that stands at an octet of the message.
fn put_fault(
    text: &mut String,
    fault: AvpFault,
    place: usize,
    level: u32,
) -> Result<(), AllocError> {
    put_indent(text, level)?;
    if let Some(number) = fault.number() {
        write!(text, "fault {number} at octet {place}: ")?;
    }
    writeln!(text, "{fault}")
}
