//! The header of a message (RFC 6733, section 3).

ghost use Rattle.std.specs.Int.{w32, to_be_bytes, bytes_high_first};
ghost use Rattle.std.specs.Prelude.{◌≡◌, ◌+◌, ◌*◌, ◌%◌, ◌<◌, ◌≤◌, ◌^◌, ◌∷◌, ◌++◌, Ok, List, ℕ, length, take, drop, replicate, vec_len, vec_capacity, IfOk, OnOk, OnErr};
ghost use Rattle.dcc_message.specs.HeaderView.{HeaderView};
ghost use Rattle.dcc_message.specs.Headers.{header as spelled, header_of, header_at, message, is_request, is_error, is_command, IsHeader};

use crate::command_flags;
use crate::length::{HEADER_LENGTH, LENGTH_END, LengthFault, fault_of_length, length_of};
use dcc_octets::{put_over, u24_at, u32_at};
use std::alloc::{AllocError, Global};
use std::marker::Model;

/// A message's header. Its version is 1.
#[derive(Clone, Copy, Debug, PartialEq, Eq)]
pub struct Header {
    /// The octets of the message with its header, as read. Writing states the written message's own length instead.
    pub length: u32,
    /// The Command Flags (`command_flags`), with the reserved bits as they were read.
    pub flags: u8,
    /// The Command Code, below 2^24.
    pub code: u32,
    /// The Application-Id.
    pub app: u32,
    /// The Hop-by-Hop Identifier.
    pub hop: u32,
    /// The End-to-End Identifier.
    pub end_to_end: u32,
}

impl Model for Header {
    ghost use Rattle.std.specs.Prelude.{◌<◌, ◌^◌};
    ghost use Rattle.dcc_message.specs.HeaderView.{HeaderView};

    ghost Value = { HeaderView };

    ghost view = { λ h. record { length = h.length; flags = h.flags; code = h.code; app = h.app; hop = h.hop; end_to_end = h.end_to_end } };

    ghost invariant = { λ h. h.code < 2 ^ 24 };

    ghost inverse = { λ v. record { length = v.length; flags = v.flags; code = v.code; app = v.app; hop = v.hop; end_to_end = v.end_to_end } };
}

impl Header {
    /// Whether the message is a request: the R bit.
    pub fn is_request(&self) -> bool
        ensures { result ≡ is_request self.now }
    {
        self.flags & command_flags::REQUEST != 0
    }

    /// Whether the message is an answer that reports a protocol error: the E bit.
    pub fn is_error(&self) -> bool
        ensures { result ≡ is_error self.now }
    {
        self.flags & command_flags::ERROR != 0
    }

    /// Whether the message is of this command in this application.
    pub fn is_command(&self, code: u32, app: u32) -> bool
        ensures { result ≡ is_command code app self.now }
    {
        self.code == code && self.app == app
    }
}

/// Why octets are no message, in the order of the tests: fault 10, then 12, then 11.
#[derive(Clone, Copy, Debug, PartialEq, Eq)]
pub enum HeaderFault {
    /// Fault 10: the version isn't 1.
    Version,
    /// Fault 12 or 11: no message can have the length field, or the field isn't the number of the octets.
    Length(LengthFault),
}

impl HeaderFault {
    ghost use Rattle.dcc_message.specs.Faults.{header_fault_number};

    /// The number of the fault: 10, 11 or 12.
    pub fn number(self) -> u8
        ensures { result ≡ header_fault_number self }
    {
        match self {
            HeaderFault::Version => 10,
            HeaderFault::Length(fault) => fault.number(),
        }
    }
}

//   0                   1                   2                   3
//   0 1 2 3 4 5 6 7 8 9 0 1 2 3 4 5 6 7 8 9 0 1 2 3 4 5 6 7 8 9 0 1
//  +-+-+-+-+-+-+-+-+-+-+-+-+-+-+-+-+-+-+-+-+-+-+-+-+-+-+-+-+-+-+-+-+
//  |    Version    |                 Message Length                |
//  +-+-+-+-+-+-+-+-+-+-+-+-+-+-+-+-+-+-+-+-+-+-+-+-+-+-+-+-+-+-+-+-+
//  | Command Flags |                  Command Code                 |
//  +-+-+-+-+-+-+-+-+-+-+-+-+-+-+-+-+-+-+-+-+-+-+-+-+-+-+-+-+-+-+-+-+
//  |                         Application-ID                        |
//  +-+-+-+-+-+-+-+-+-+-+-+-+-+-+-+-+-+-+-+-+-+-+-+-+-+-+-+-+-+-+-+-+
//  |                      Hop-by-Hop Identifier                    |
//  +-+-+-+-+-+-+-+-+-+-+-+-+-+-+-+-+-+-+-+-+-+-+-+-+-+-+-+-+-+-+-+-+
//  |                      End-to-End Identifier                    |
//  +-+-+-+-+-+-+-+-+-+-+-+-+-+-+-+-+-+-+-+-+-+-+-+-+-+-+-+-+-+-+-+-+
//  |  AVPs ...
//  +-+-+-+-+-+-+-+-+-+-+-+-+-
//
// The header of a message (RFC 6733, section 3). The flags begin with R, P, E and T.

/// Reads the header of a message from all octets of the message. It takes no memory.
pub fn read_header(octets: &[u8]) -> Result<Header, HeaderFault>
    ensures exact { result ≡ header_of octets.now }

    // The header that is read stands at the front, and states the length of the octets.
    ensures found { IfOk result (λ h. IsHeader h × (octets.now ≡ spelled h ++ drop HEADER_LENGTH octets.now) × (h.length ≡ length octets.now)) }

    // A header that states the length of the octets is read.
    ensures only { (h : HeaderView) (rest : List ℕ) →
        IsHeader h → octets.now ≡ spelled h ++ rest → h.length ≡ length octets.now → result ≡ Ok h }
{
    judged(octets)
}

/// The header, or the first fault.
#[tactic(auto, unfolding(crate::specs::Headers::header_of))]
fn judged(octets: &[u8]) -> Result<Header, HeaderFault>
    ensures { result ≡ header_of octets.now }
{
    if octets.len() < LENGTH_END {
        return Err(HeaderFault::Length(LengthFault::BadLength));
    }
    if octets[0] != 1 {
        return Err(HeaderFault::Version);
    }
    let stated = length_of(octets);
    if let Some(fault) = fault_of_length(stated) {
        return Err(HeaderFault::Length(fault));
    }
    if stated != octets.len() {
        return Err(HeaderFault::Length(LengthFault::BadLength));
    }
    Ok(header_in(octets))
}

/// The fields of a header at the front.
fn header_in(octets: &[u8]) -> Header
    requires { HEADER_LENGTH ≤ length octets.now }
    ensures { result ≡ header_at octets.now }
{
    Header {
        length: u24_at(octets, 1),
        flags: octets[4],
        code: u24_at(octets, 5),
        app: u32_at(octets, 8),
        hop: u32_at(octets, 12),
        end_to_end: u32_at(octets, 16),
    }
}

/// Writes a message at the end of `out`: the header, with the length of the whole message, and the AVPs, which are
/// spelled already. Header and AVPs together are whole words of four octets, and fewer than 2^24 octets. The only error
/// is want of memory; then nothing is written.
#[tactic(auto, unfolding(crate::specs::Headers::message))]
pub fn write_message(out: &mut Vec<u8>, header: &Header, avps: &[u8]) -> Result<(), AllocError>
    requires whole { (HEADER_LENGTH + length avps.now) % 4 ≡ 0 }
    requires fits { HEADER_LENGTH + length avps.now < 2 ^ 24 }
    ensures ok { OnOk result (out.new.items ≡ out.old.items ++ message header.now avps.now) }
    ensures err { OnErr result (out.new.items ≡ out.old.items) }
{
    let length = HEADER_LENGTH + avps.len();
    out.reserve(length)?;
    append_header(out, header, length as u32);
    out.extend_from_slice(avps).unwrap();
    Ok(())
}

/// Appends a header that states this length. `out` has room for it.
#[tactic(auto, unfolding(crate::specs::Headers::header))]
fn append_header(out: &mut Vec<u8>, header: &Header, len: u32)
    requires room { vec_len out.old + HEADER_LENGTH ≤ vec_capacity out.old }
    requires fits { len < 2 ^ 24 }
    ensures items { out.new.items ≡ out.old.items ++ spelled (record header.now { length = len }) }
    ensures len { vec_len out.new ≡ vec_len out.old + HEADER_LENGTH }
    ensures capacity { vec_capacity out.old ≤ vec_capacity out.new }
{
    out.extend_from_slice(&front_octets(header, len)).unwrap();
    out.extend_from_slice(&identifier_octets(header)).unwrap();
}

/// A message that is begun: room for its header, in a vector of at least this capacity. The caller writes the AVPs
/// behind it, and then `finish_message` writes the header. The only error is want of memory.
pub fn begin_message(alloc: Global, capacity: usize) -> Result<Vec<u8>, AllocError>
    ensures items { IfOk result (λ out. out.items ≡ replicate HEADER_LENGTH 0) }
    ensures len { IfOk result (λ out. vec_len out ≡ HEADER_LENGTH) }
    ensures capacity { IfOk result (λ out. capacity ≤ vec_capacity out) }
{
    let mut out = Vec::with_capacity(alloc, capacity)?;
    out.extend_from_slice(&[0; HEADER_LENGTH])?;
    Ok(out)
}

/// Makes all of `out` one message, in place: the header, with the length of `out`, goes over the first 20 octets, and
/// the octets behind are the AVPs, which are spelled already. `out` has at least 20 octets and fewer than 2^24, in
/// whole words of four. It takes no memory.
#[tactic(auto, unfolding(crate::specs::Headers::message))]
pub fn finish_message(out: &mut Vec<u8>, header: &Header)
    requires room { HEADER_LENGTH ≤ vec_len out.old }
    requires whole { vec_len out.old % 4 ≡ 0 }
    requires fits { vec_len out.old < 2 ^ 24 }
    ensures items { out.new.items ≡ message header.now (drop HEADER_LENGTH out.old.items) }
    ensures len { vec_len out.new ≡ vec_len out.old }
{
    let length = out.len() as u32;
    put_header(out.as_mut_slice(), header, length);
}

/// Writes a header that states this length over the first octets. Two pieces are cheaper than one.
#[tactic(auto, unfolding(crate::specs::Headers::header))]
fn put_header(all: &mut [u8], header: &Header, len: u32)
    requires room { HEADER_LENGTH ≤ length all.old }
    requires fits { len < 2 ^ 24 }
    ensures { all.new ≡ spelled (record header.now { length = len }) ++ drop HEADER_LENGTH all.old }
{
    put_over(all, 0, &front_octets(header, len));
    put_over(all, 12, &identifier_octets(header));
}

/// The first twelve octets of a header that states this length: all up to the application.
fn front_octets(header: &Header, length: u32) -> [u8; 12]
    requires { length < 2 ^ 24 }
    ensures { result ≡ (1 ∷ bytes_high_first 3 length) ++ (header.now.flags ∷ bytes_high_first 3 header.now.code) ++ to_be_bytes w32 header.now.app }
{
    let l = length.to_be_bytes();
    let c = header.code.to_be_bytes();
    let a = header.app.to_be_bytes();
    [
        1,
        l[1],
        l[2],
        l[3],
        header.flags,
        c[1],
        c[2],
        c[3],
        a[0],
        a[1],
        a[2],
        a[3],
    ]
}

/// The last eight octets of a header: the identifiers.
fn identifier_octets(header: &Header) -> [u8; 8]
    ensures { result ≡ to_be_bytes w32 header.now.hop ++ to_be_bytes w32 header.now.end_to_end }
{
    let h = header.hop.to_be_bytes();
    let e = header.end_to_end.to_be_bytes();
    [h[0], h[1], h[2], h[3], e[0], e[1], e[2], e[3]]
}
