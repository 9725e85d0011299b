//! A stream of requests, cut into pieces and framed.

use crate::checksum::marked;
use crate::debit::Debit;
use crate::fault::{Fault, Measured};
use crate::rounds::timed;
use dcc_message::Framer;
use std::alloc::Global;
use std::time::CpuClock;

/// Measures framing, where the messages are taken after each piece.
pub(crate) fn measure<R: AllocGlobal + Print + Eprint + CpuClock>(
    rt: &R,
    octets: u32,
    piece: u32,
) -> Measured<()> {
    let alloc = rt.alloc();
    let stream = stream_of(alloc, octets)?;
    let stream = stream.as_slice();
    let length = stream.len() as u64;
    let mark = timed(rt, "framer octet", length, || {
        framed(alloc, stream, piece as usize)
    })?;
    match println!(rt; "framer {octets} {piece} mark {mark:016x}") {
        Ok(()) => Ok(()),
        Err(_) => Err(Fault::Output),
    }
}

/// Requests one after another, of more octets than these.
fn stream_of(alloc: Global, octets: u32) -> Measured<Vec<u8>> {
    let mut debit = Debit::new()?;
    let mut stream = Vec::new(alloc);
    for i in 0..=octets / Debit::LENGTH {
        debit.set_identifiers(i);
        append(&mut stream, debit.as_slice())?;
    }
    Ok(stream)
}

fn append(stream: &mut Vec<u8>, octets: &[u8]) -> Measured<()> {
    match stream.extend_from_slice(octets) {
        Ok(()) => Ok(()),
        Err(_) => Err(Fault::Memory),
    }
}

/// A mark of the messages that the framer gives of the pieces.
fn framed(alloc: Global, stream: &[u8], piece: usize) -> Measured<u64> {
    let mut framer = Framer::new(alloc);
    fed(&mut framer, stream, piece)
}

fn fed(framer: &mut Framer, stream: &[u8], piece: usize) -> Measured<u64> {
    let mut mark = 0;
    for part in stream.chunks(piece.max(1)) {
        if framer.feed(part).is_err() {
            return Err(Fault::Memory);
        }
        mark = taken(framer, mark)?;
    }
    Ok(mark)
}

/// The mark with the messages that are whole.
fn taken(framer: &mut Framer, mark: u64) -> Measured<u64> {
    let mut mark = mark;
    for _ in 0..u64::MAX {
        match framer.next() {
            Ok(Some(message)) => mark = marked(mark, message.as_slice(), 15),
            Ok(None) => return Ok(mark),
            Err(_) => return Err(Fault::Sample),
        }
    }
    Ok(mark)
}
