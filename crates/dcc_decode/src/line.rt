//! Lines of a text, and the messages in them.

ghost use Rattle.std.specs.Prelude.{◌≡◌, ◌==◌, ◌∷◌, ◌<◌, ◌≤◌, length, map, position, take, drop, IfOk, IfSome, option_map};
ghost use Rattle.std.specs.List.{position_or_len};
ghost use Rattle.dcc_decode.specs.Lines.{words_of, digits_of, before_digits, octets_of, message_of, front_of, lines_of};

use dcc_octets::OctetString;
use hex::FromHexError;
use std::alloc::{AllocError, Global};

/// Where the first line feed of a text stands.
fn line_feed(text: &[u8]) -> Option<usize>
    ensures { result ≡ position (λ octet. octet == 10) text.now }
{
    text.iter().position(|octet| *octet == b'\n')
}

/// The length of the first line of a text, without its line feed.
fn end_of(text: &[u8]) -> usize
    ensures value { result ≡ position_or_len (λ octet. octet == 10) text.now }
    ensures within { result ≤ length text.now }
{
    match line_feed(text) {
        Some(end) => end,
        None => text.len(),
    }
}

/// A line cut off a text.
#[derive(Clone, Copy, Debug)]
pub(crate) struct Cut<'a> {
    /// The line with its line feed, which the text's last one may lack.
    pub(crate) line: &'a [u8],
    /// The text behind it.
    pub(crate) rest: &'a [u8],
}

/// Cuts the first line off a text that isn't empty.
pub(crate) fn cut_line(text: &[u8]) -> Cut<'_>
    requires { 0 < length text.now }
    ensures lines { lines_of text.now ≡ result.line.now ∷ lines_of result.rest.now }
    ensures shorter { length result.rest.now < length text.now }
{
    let after = end_of(text) + 1;
    Cut {
        line: front(text, after),
        rest: behind(text, after),
    }
}

/// So many octets of a text, or all.
fn front(text: &[u8], count: usize) -> &[u8]
    ensures { result.now ≡ take count text.now }
{
    text.get(..count).unwrap_or(text)
}

/// The octets of a text behind so many.
fn behind(text: &[u8], count: usize) -> &[u8]
    ensures { result.now ≡ drop count text.now }
{
    text.get(count..).unwrap_or_default()
}

/// What a line with a message holds.
#[derive(Drop)]
pub(crate) struct Held<'a> {
    /// What stands in front of the message, without the space between.
    pub(crate) front: &'a [u8],
    /// The octets of the message, at least one.
    pub(crate) octets: OctetString,
}

/// The message in a line, if it holds one.
pub(crate) fn held_in(alloc: Global, line: &[u8]) -> Result<Option<Held<'_>>, AllocError>
    ensures octets { IfOk result (λ held. option_map (λ some. some.octets) held ≡ message_of line.now) }
    ensures front { IfOk result (λ held. IfSome held (λ some. some.front.now ≡ front_of line.now)) }
{
    let body = &line[..end_of(line)];
    let words = words_of(alloc, body)?;
    let Some(digits) = digits_of(words.as_slice()) else {
        return Ok(None);
    };
    let Some(octets) = octets_of(alloc, digits)? else {
        return Ok(None);
    };
    Ok(Some(Held {
        front: before_digits(body, digits),
        octets,
    }))
}

/// The words of a line, cut at each space.
fn words_of(alloc: Global, body: &[u8]) -> Result<Vec<&[u8]>, AllocError>
    ensures { IfOk result (λ words. map (λ word. word.now) words.items ≡ words_of body.now) }
{
    body.split(|octet| *octet == b' ').collect(alloc)
}

/// The digits of a message among the words of a line.
#[tactic(auto, unfolding(crate::specs::Lines::digits_of))]
fn digits_of<'a>(words: &[&'a [u8]]) -> Option<&'a [u8]>
    ensures { option_map (λ digits. digits.now) result ≡ digits_of (map (λ word. word.now) words.now) }
{
    match words {
        [only] => Some(*only),
        [first, second, _, fourth] => {
            let is_message = *first == b"message".as_slice();
            let is_answer = *second == b"answer".as_slice();
            if is_message || is_answer {
                Some(*fourth)
            } else {
                None
            }
        }
        _ => None,
    }
}

/// The octets that digits spell, at least one.
fn octets_of(alloc: Global, digits: &[u8]) -> Result<Option<OctetString>, AllocError>
    ensures { IfOk result (λ octets. octets ≡ octets_of (Some digits.now)) }
{
    match hex::decode(alloc, digits) {
        Ok(octets) if !octets.is_empty() => Ok(Some(OctetString::from_vec(octets))),
        Err(FromHexError::OutOfMemory) => Err(AllocError),
        _ => Ok(None),
    }
}

/// What stands in front of a line's digits, without the space between.
fn before_digits<'a>(body: &'a [u8], digits: &[u8]) -> &'a [u8]
    ensures { result.now ≡ before_digits body.now digits.now }
{
    let end = body.len().saturating_sub(digits.len()).saturating_sub(1);
    front(body, end)
}
