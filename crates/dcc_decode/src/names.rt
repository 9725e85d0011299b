//! The names of commands, applications, flags and AVPs.

ghost use Rattle.std.specs.Prelude.{◌≡◌, ◌++◌, OnOk, option_map, string_bytes};
ghost use Rattle.dcc_decode.specs.Texts.{command_name, kind_of, title_of};

use dcc_avp::{Avp, name_of};
use dcc_message::{Header, applications, command_flags, commands};
use std::alloc::AllocError;
use std::fmt::Write;

/// The bits of the Command Flags that stand for nothing (RFC 6733, section 3).
const RESERVED: u8 = 0x0f;

/// The P bit of an AVP's flags, which RFC 6733, section 4.1, keeps for security from end to end.
const PROTECTED: u8 = 0x20;

/// The bits of an AVP's flags that stand for nothing.
const AVP_RESERVED: u8 = 0x1f;

/// The name of a command, without the word that tells its request from its answer.
fn command_name(code: u32) -> Option<&'static str>
    ensures { option_map (λ name. name.now) result ≡ command_name code }
{
    match code {
        commands::CAPABILITIES_EXCHANGE => Some("Capabilities-Exchange"),
        commands::CREDIT_CONTROL => Some("Credit-Control"),
        commands::DEVICE_WATCHDOG => Some("Device-Watchdog"),
        commands::DISCONNECT_PEER => Some("Disconnect-Peer"),
        _ => None,
    }
}

/// The word that tells a request from an answer.
fn kind_of(header: &Header) -> &'static str
    ensures { result.now ≡ kind_of header.now }
{
    if header.is_request() {
        "Request"
    } else {
        "Answer"
    }
}

/// The Command Code.
fn code_of(header: &Header) -> u32
    ensures { result ≡ header.now.code }
{
    header.code
}

/// Appends the name of a message's command; one that isn't known goes by its number.
#[tactic(auto, unfolding(crate::specs::Texts::title_of))]
pub(crate) fn put_command(text: &mut String, header: &Header) -> Result<(), AllocError>
    ensures { OnOk result (string_bytes text.new ≡ string_bytes text.old ++ title_of header.now) }
{
    let kind = kind_of(header);
    let code = code_of(header);
    match command_name(code) {
        Some(name) => write!(text, "{name}-{kind}"),
        None => write!(text, "{kind} of command {code}"),
    }
}

/// The name of an application, if it is known.
pub(crate) fn application_name(app: u32) -> Option<&'static str> {
    match app {
        applications::BASE => Some("common messages"),
        applications::CREDIT_CONTROL => Some("credit control"),
        applications::RELAY => Some("relay"),
        _ => None,
    }
}

/// Appends the bits of the Command Flags that are set, by name; the first tells a request from an answer.
pub(crate) fn put_flags(text: &mut String, flags: u8) -> Result<(), AllocError> {
    if flags & command_flags::REQUEST != 0 {
        text.push_str("Request")?;
    } else {
        text.push_str("Answer")?;
    }
    if flags & command_flags::PROXIABLE != 0 {
        text.push_str(", Proxiable")?;
    }
    if flags & command_flags::ERROR != 0 {
        text.push_str(", Error")?;
    }
    if flags & command_flags::RETRANSMITTED != 0 {
        text.push_str(", Potentially re-transmitted")?;
    }
    match flags & RESERVED {
        0 => Ok(()),
        reserved => write!(text, ", reserved 0x{reserved:02x}"),
    }
}

/// Appends an AVP's name: that of the dictionary, or its code, and its vendor if it has one.
pub(crate) fn put_avp_name(text: &mut String, avp: &Avp<'_>) -> Result<(), AllocError> {
    let code = avp.code();
    if let Some(vendor) = avp.vendor() {
        return write!(text, "AVP {code} of vendor {vendor}");
    }
    match name_of(code) {
        Some(name) => text.push_str(name),
        None => write!(text, "AVP {code}"),
    }
}

/// Appends the bits of an AVP's flags that are set, by their letters between brackets; nothing where none is.
pub(crate) fn put_avp_flags(text: &mut String, avp: &Avp<'_>) -> Result<(), AllocError> {
    let flags = avp.flags();
    if flags == 0 {
        return Ok(());
    }
    text.push_str(" [")?;
    if avp.is_vendor() {
        text.push('V')?;
    }
    if avp.is_mandatory() {
        text.push('M')?;
    }
    if flags & PROTECTED != 0 {
        text.push('P')?;
    }
    let reserved = flags & AVP_RESERVED;
    if reserved != 0 {
        if reserved != flags {
            text.push(' ')?;
        }
        write!(text, "reserved 0x{reserved:02x}")?;
    }
    text.push(']')
}
