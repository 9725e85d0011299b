//! A message as a tree of lines.

ghost use Rattle.std.specs.Prelude.{◌≡◌, ◌++◌, ◌∷◌, [], IfOk, OnOk, string_bytes};
ghost use Rattle.dcc_decode.specs.Texts.{EndsLine, IsTree, IsTreeBelow, title_of};

use crate::data::put_hex;
use crate::names::{application_name, put_command, put_flags};
use crate::tree::put_list;
use crate::verdict::put_verdict;
use dcc_avp::{AvpFault, read_list};
use dcc_message::{HEADER_LENGTH, Header, HeaderFault, LengthFault, MAX_LENGTH, read_header};
use dcc_octets::{put_over, u24_at};
use std::alloc::{AllocError, Global};
use std::fmt::Write;

/// The version and the length of a header alone.
const HEADER_ALONE: [u8; 4] = [1, 0, 0, 20];

/// The tree of a message, of all its octets, whatever they are: its header, its AVPs as far as they can be read, each fault with
/// its number and the octet where it stands, counted from 0, and of a whole answer what it says, in words. Behind its lines, each
/// with a line feed at its end, stands an empty one. The only error is want of memory.
pub fn decode_message(alloc: Global, octets: &[u8]) -> Result<String, AllocError>
    ensures { IfOk result (λ text. IsTree octets.now (string_bytes text)) }
{
    match read_header(octets) {
        Ok(header) => whole_tree(alloc, &header, octets),
        Err(fault) => broken_tree(alloc, fault, octets),
    }
}

/// The tree of a message whose header can be read.
fn whole_tree(alloc: Global, header: &Header, octets: &[u8]) -> Result<String, AllocError>
    ensures { IfOk result (λ text. IsTreeBelow (title_of header.now) (string_bytes text)) }
{
    let mut below = String::new(alloc);
    put_header(&mut below, header)?;
    put_avps(&mut below, alloc, header, octets)?;
    let mut text = String::new(alloc);
    put_command(&mut text, header)?;
    put_below(&mut text, below.as_str())?;
    Ok(text)
}

/// Ends the first line of a tree, and appends the lines below it and an empty one.
fn put_below(text: &mut String, below: &str) -> Result<(), AllocError>
    ensures { OnOk result (string_bytes text.new ≡ string_bytes text.old ++ 10 ∷ (below.now ++ 10 ∷ [])) }
{
    text.push_str("\n")?;
    text.push_str(below)?;
    text.push_str("\n")
}

/// Appends the AVPs of a message whose header can be read, and what an answer says where all of them can be, too.
fn put_avps(
    text: &mut String,
    alloc: Global,
    header: &Header,
    octets: &[u8],
) -> Result<(), AllocError> {
    let avps = octets.get(HEADER_LENGTH..).unwrap_or_default();
    put_list(text, alloc, avps, HEADER_LENGTH, 1)?;
    if header.is_request() {
        return Ok(());
    }
    match read_list(alloc, avps) {
        Ok(avps) => put_verdict(text, alloc, avps.as_slice()),
        Err(AvpFault::Memory) => Err(AllocError),
        Err(_) => Ok(()),
    }
}

/// Appends the lines of a header.
fn put_header(text: &mut String, header: &Header) -> Result<(), AllocError> {
    let Header {
        length,
        flags,
        code: _,
        app,
        hop,
        end_to_end,
    } = *header;
    put_front(text, length, flags)?;
    put_application(text, app)?;
    put_identifiers(text, hop, end_to_end)
}

/// Appends the lines of a header's length and flags.
fn put_front(text: &mut String, length: u32, flags: u8) -> Result<(), AllocError> {
    writeln!(text, "  Message-Length: {length}")?;
    text.push_str("  Command-Flags: ")?;
    put_flags(text, flags)?;
    text.push('\n')
}

/// Appends the line of a header's application.
fn put_application(text: &mut String, app: u32) -> Result<(), AllocError> {
    match application_name(app) {
        Some(name) => writeln!(text, "  Application-Id: {app} ({name})"),
        None => writeln!(text, "  Application-Id: {app}"),
    }
}

/// Appends the lines of a header's identifiers.
fn put_identifiers(text: &mut String, hop: u32, end_to_end: u32) -> Result<(), AllocError> {
    writeln!(text, "  Hop-by-Hop-Identifier: 0x{hop:08x}")?;
    writeln!(text, "  End-to-End-Identifier: 0x{end_to_end:08x}")
}

/// The tree of octets that are no message, as far as they can be read as one.
fn broken_tree(alloc: Global, fault: HeaderFault, octets: &[u8]) -> Result<String, AllocError>
    ensures { IfOk result (λ text. EndsLine (string_bytes text)) }
{
    let mut below = String::new(alloc);
    put_fault(&mut below, fault, octets)?;
    put_broken(&mut below, alloc, octets)?;
    let mut text = String::new(alloc);
    put_broken_title(&mut text, octets)?;
    put_below(&mut text, below.as_str())?;
    Ok(text)
}

/// Appends the name of the command, where the octets are as many as a header has, and their number.
fn put_broken_title(text: &mut String, octets: &[u8]) -> Result<(), AllocError> {
    let count = octets.len();
    match header_as_far(octets) {
        Some(header) => {
            put_command(text, &header)?;
            write!(text, ", {count} octets")
        }
        None => write!(text, "Message, {count} octets"),
    }
}

/// Appends what can be read of octets that are no message.
fn put_broken(text: &mut String, alloc: Global, octets: &[u8]) -> Result<(), AllocError> {
    let Some(header) = header_as_far(octets) else {
        text.push_str("  octets left: ")?;
        put_hex(text, alloc, octets)?;
        return text.push('\n');
    };
    put_header(text, &header)?;
    let avps = octets.get(HEADER_LENGTH..).unwrap_or_default();
    put_list(text, alloc, avps, HEADER_LENGTH, 1)
}

/// The header of octets whose version or length is at fault, if there are as many as it has: the codec reads its fields as those
/// of a header alone, and the length is the one that stands there.
fn header_as_far(octets: &[u8]) -> Option<Header> {
    let mut alone = *octets.first_chunk::<20>()?;
    let length = u24_at(&alone, 1);
    put_over(&mut alone, 0, &HEADER_ALONE);
    let header = read_header(&alone).ok()?;
    Some(Header { length, ..header })
}

/// Appends the line of a header's fault.
fn put_fault(text: &mut String, fault: HeaderFault, octets: &[u8]) -> Result<(), AllocError> {
    let number = fault.number();
    match fault {
        HeaderFault::Version => {
            let version = octets.first().copied().unwrap_or(0);
            writeln!(
                text,
                "  fault {number} at octet 0: the version is {version}, not 1"
            )
        }
        HeaderFault::Length(LengthFault::TooLong) => {
            writeln!(
                text,
                "  fault {number} at octet 1: the length is above {MAX_LENGTH}"
            )
        }
        HeaderFault::Length(LengthFault::BadLength) => writeln!(
            text,
            "  fault {number} at octet 1: the length is below 20, no multiple of 4, or not the number of octets"
        ),
    }
}
