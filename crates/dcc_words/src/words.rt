//! The values of the words of a script.

ghost use Rattle.std.specs.Prelude.{◌≡◌, ◌<◌, ◌==◌, ◌≤◌, length, position, map, IfOk, IfSome};
ghost use Rattle.std.specs.List.{list_all, slice_split};
ghost use Rattle.std.specs.Char.{is_ascii_digit};
ghost use Rattle.dcc_words.specs.Words.{number, peer, any_u64, moment, host, hex_octets, known_sub, sub};

use dcc_act::{Moment, Sub};
use dcc_base::Host;
use dcc_octets::OctetString;
use dcc_tariff::LAST_SECOND;
use hex::FromHexError;
use std::alloc::{AllocError, Global};

/// A message of a script has at most so many octets.
const MOST_OCTETS: usize = 65_536;

/// The parts of a text, cut at each separator. The only error is want of memory.
pub fn parts(alloc: Global, text: &[u8], separator: u8) -> Result<Vec<&[u8]>, AllocError>
    ensures { IfOk result (λ parts. map (λ part. part.now) parts.items ≡ slice_split (λ octet. octet == separator) text.now) }
{
    text.split(|octet| *octet == separator).collect(alloc)
}

/// A number in decimal digits, 0 to `limit`.
fn number(word: &[u8], limit: u64) -> Option<u64>
    ensures value { result ≡ number limit word.now }
    ensures limit { IfSome result (λ number. number ≤ limit) }
{
    if !are_digits(word) {
        return None;
    }
    let Ok(text) = str::from_utf8(word) else {
        return None;
    };
    let Ok(number) = text.parse::<u64>() else {
        return None;
    };
    if number > limit { None } else { Some(number) }
}

fn are_digits(word: &[u8]) -> bool
    ensures { result ≡ list_all is_ascii_digit word.now }
{
    word.iter().all(|octet| octet.is_ascii_digit())
}

/// The number of a peer, 0 to 2^32 - 1.
pub fn peer(word: &[u8]) -> Option<u32>
    ensures { result ≡ peer word.now }
{
    let number = number(word, u32::MAX as u64)?;
    Some(number as u32)
}

/// A ticket, or an amount in minor units: 0 to 2^64 - 1.
pub fn any_u64(word: &[u8]) -> Option<u64>
    ensures { result ≡ any_u64 word.now }
{
    number(word, u64::MAX)
}

/// A moment, in seconds since 1970-01-01T00:00:00Z, up to the end of 2099.
pub fn moment(word: &[u8]) -> Option<Moment>
    ensures { result ≡ moment word.now }
{
    Moment::new(number(word, LAST_SECOND)?)
}

/// A host's name: any word of 1 to 255 octets. The only error is want of memory.
pub fn host(alloc: Global, word: &[u8]) -> Result<Option<Host>, AllocError>
    ensures { IfOk result (λ name. name ≡ host word.now) }
{
    let name = Vec::from_slice(alloc, word)?;
    Ok(Host::from_octets(OctetString::from_vec(name)))
}

/// 1 to 65,536 octets in hexadecimal digits of either case. The only error is want of memory.
#[tactic(auto, unfolding(crate::specs::Words::hex_octets))]
pub fn hex_octets(alloc: Global, word: &[u8]) -> Result<Option<OctetString>, AllocError>
    ensures { IfOk result (λ octets. octets ≡ hex_octets word.now) }
{
    match hex::decode(alloc, word) {
        Ok(octets) if !octets.is_empty() && octets.len() <= MOST_OCTETS => Ok(Some(
            OctetString::from_vec(octets),
        )),
        Err(FromHexError::OutOfMemory) => Err(AllocError),
        _ => Ok(None),
    }
}

/// A subscriber: its type and its data, on the two sides of the word's first colon.
#[tactic(auto, unfolding(crate::specs::Words::sub))]
pub fn sub(word: &[u8]) -> Option<Sub>
    ensures { result ≡ sub word.now }
{
    let colon = first_colon(word)?;
    let kind = number(&word[..colon], u8::MAX as u64)?;
    known_sub(kind as u8, &word[colon + 1..])
}

fn first_colon(word: &[u8]) -> Option<usize>
    ensures value { result ≡ position (λ octet. octet == 58) word.now }
    ensures within { IfSome result (λ colon. colon < length word.now) }
{
    word.iter().position(|octet| *octet == b':')
}

/// The subscriber of a type and data.
#[tactic(auto, unfolding(crate::specs::Words::known_sub))]
fn known_sub(kind: u8, name: &[u8]) -> Option<Sub>
    ensures { result ≡ known_sub name.now kind }
{
    Sub::new(kind, name)
}
