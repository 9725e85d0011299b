//! What no run of the program shows: a message that is written at once, and streams that are cut at each place.

use dcc_message::{Framer, Header, MAX_LENGTH, read_header, write_message};
use dcc_samples::{DEBIT, WATCHDOG};
use std::alloc::Global;
use std::process::Abort;
use std::test::Fail;

/// Appends the message of this header and these AVPs.
fn write(out: &mut Vec<u8>, header: &Header, avps: &[u8]) -> Result<(), Fail> {
    if avps.len() > MAX_LENGTH || avps.len() % 4 != 0 {
        return Err("no AVPs".into());
    }
    write_message(out, header, avps)?;
    Ok(())
}

/// The header of this message.
fn header(message: &[u8]) -> Result<Header, Fail> {
    match read_header(message) {
        Ok(header) => Ok(header),
        Err(_) => Err("a header".into()),
    }
}

/// Appends the octets of this sample.
fn append(alloc: Global, stream: &mut Vec<u8>, sample: &str) -> Result<(), Fail> {
    let octets = hex::decode(alloc, sample)?;
    stream.extend_from_slice(&octets)?;
    Ok(())
}

/// This message, written of its header and its AVPs.
fn written(alloc: Global, message: &[u8]) -> Result<Vec<u8>, Fail> {
    let header = header(message)?;
    let avps = message.get(20..).ok_or("a list")?;
    let mut out = Vec::new(alloc);
    write(&mut out, &header, avps)?;
    Ok(out)
}

/// A request that is written of its header and its AVPs is the request.
#[test]
fn written_at_once(rt: HostRuntime) -> Result<(), Fail> {
    let mut request = Vec::new(rt.alloc());
    append(rt.alloc(), &mut request, DEBIT)?;
    let out = written(rt.alloc(), &request)?;
    assert!(rt; out.as_slice() == request.as_slice());
    Ok(())
}

/// The first whole message of the stream, taken off.
fn first(framer: &mut Framer) -> Option<Vec<u8>> {
    match framer.next() {
        Ok(message) => message,
        Err(_) => None,
    }
}

/// Appends the octets of a message and where they end.
fn put(given: &mut Vec<u8>, ends: &mut Vec<usize>, message: &[u8]) -> Result<(), Fail> {
    given.extend_from_slice(message)?;
    ends.push(given.len())?;
    Ok(())
}

/// Takes a message off, where one is whole, and appends its octets and where they end.
fn take(framer: &mut Framer, given: &mut Vec<u8>, ends: &mut Vec<usize>) -> Result<(), Fail> {
    match first(framer) {
        Some(message) => put(given, ends, &message),
        None => Ok(()),
    }
}

/// Feeds a stream in pieces of this size. A message is taken behind each piece, and all that are left at the end.
fn feed(
    framer: &mut Framer,
    given: &mut Vec<u8>,
    ends: &mut Vec<usize>,
    stream: &[u8],
    size: usize,
) -> Result<(), Fail> {
    for piece in stream.chunks(size.max(1)) {
        framer.feed(piece)?;
        take(framer, given, ends)?;
    }
    for _ in 0..3 {
        take(framer, given, ends)?;
    }
    Ok(())
}

/// Asserts that a stream in pieces of this size gives the messages that end at these places.
fn check(
    rt: &(impl Abort + AllocGlobal),
    stream: &[u8],
    size: usize,
    wanted: &[usize],
) -> Result<(), Fail> {
    let mut given = Vec::new(rt.alloc());
    let mut ends = Vec::new(rt.alloc());
    let mut framer = Framer::new(rt.alloc());
    feed(&mut framer, &mut given, &mut ends, stream, size)?;
    assert!(rt; given.as_slice() == stream, "pieces of {size}");
    assert_eq!(rt; ends.as_slice(), wanted, "pieces of {size}");
    Ok(())
}

/// Two watchdog requests of 56 octets, and a debit of 228 between them.
fn three(alloc: Global) -> Result<Vec<u8>, Fail> {
    let mut stream = Vec::new(alloc);
    append(alloc, &mut stream, WATCHDOG)?;
    append(alloc, &mut stream, DEBIT)?;
    append(alloc, &mut stream, WATCHDOG)?;
    Ok(stream)
}

/// Pieces of each size, from one octet to the whole.
#[test]
fn stream_in_pieces(rt: HostRuntime) -> Result<(), Fail> {
    let stream = three(rt.alloc())?;
    for size in 1..=stream.len() {
        check(&rt, &stream, size, &[56, 284, 340])?;
    }
    Ok(())
}

/// The longest message, and a debit behind it.
fn longest(alloc: Global) -> Result<Vec<u8>, Fail> {
    let mut debit = Vec::new(alloc);
    append(alloc, &mut debit, DEBIT)?;
    let mut stream = Vec::new(alloc);
    write(&mut stream, &header(&debit)?, &[0x61; 65_512])?;
    stream.extend_from_slice(&debit)?;
    Ok(stream)
}

/// The longest message in one piece with another, and in two.
#[test]
fn longest_message(rt: HostRuntime) -> Result<(), Fail> {
    let stream = longest(rt.alloc())?;
    for size in [65_760, 40_000] {
        check(&rt, &stream, size, &[MAX_LENGTH, 65_760])?;
    }
    Ok(())
}
