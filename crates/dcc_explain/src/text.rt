//! Words of an input, as a line shows them.

use std::alloc::{AllocError, Global};

/// So many characters of a word are shown at most.
const MOST: usize = 60;

/// A text, or its first characters and two dots.
pub(crate) fn shortened(alloc: Global, text: &str) -> Result<String, AllocError> {
    let mut shown: String = text.chars().take(MOST).collect(alloc)?;
    if shown.len() < text.len() {
        shown.push_str("..")?;
    }
    Ok(shown)
}

/// Octets in quotes: visible characters of ASCII and spaces as they are, others by their number.
pub fn quoted(alloc: Global, octets: &[u8]) -> Result<String, AllocError> {
    let mut shown = String::from_str(alloc, "\"")?;
    push_octets(&mut shown, octets)?;
    shown.push_str(if octets.len() > MOST { "..\"" } else { "\"" })?;
    Ok(shown)
}

/// Adds the first octets of a word.
fn push_octets(shown: &mut String, octets: &[u8]) -> Result<(), AllocError> {
    for octet in octets.iter().take(MOST) {
        push_octet(shown, *octet)?;
    }
    Ok(())
}

/// Adds an octet.
fn push_octet(shown: &mut String, octet: u8) -> Result<(), AllocError> {
    match octet {
        b'"' => shown.push_str("\\\""),
        b'\\' => shown.push_str("\\\\"),
        b' '..=b'~' => shown.push(char::from(octet)),
        other => write!(shown, "\\x{other:02x}"),
    }
}
