//! Readers and writers that take their time, or fail.

use dcc_streams::{ReadFault, WriteFault, read_all, write_all};
use std::alloc::Global;
use std::io::{self, Error, ErrorKind, Read, Write};
use std::process::Abort;
use std::test::Fail;

const TEXT: &[u8] = b"a text";

/// Gives one octet at a time, and instead of each second one an interruption; fails at the end, if it is to.
#[derive(Drop)]
struct Slow<'a> {
    rest: &'a [u8],
    interrupts: bool,
    failure: Option<ErrorKind>,
}

impl Read for Slow<'_> {
    fn read(&mut self, buf: &mut [u8]) -> io::Result<usize> {
        self.interrupts = !self.interrupts;
        if self.interrupts {
            return Err(Error::from(ErrorKind::Interrupted));
        }
        let Some((first, rest)) = self.rest.split_first() else {
            return match self.failure {
                Some(kind) => Err(Error::from(kind)),
                None => Ok(0),
            };
        };
        let Some(room) = buf.first_mut() else {
            return Ok(0);
        };
        *room = *first;
        self.rest = rest;
        Ok(1)
    }
}

/// Takes one octet at a time, and instead of each second one an interruption, and no more than it has room for; what it took it
/// may not send on.
#[derive(Drop)]
struct Narrow {
    taken: Vec<u8>,
    room: usize,
    refuses: bool,
    sends: bool,
    interrupts: bool,
}

impl Write for Narrow {
    fn write(&mut self, buf: &[u8]) -> io::Result<usize> {
        self.interrupts = !self.interrupts;
        if self.interrupts {
            return Err(Error::from(ErrorKind::Interrupted));
        }
        if self.room == 0 {
            return if self.refuses {
                Err(Error::from(ErrorKind::BrokenPipe))
            } else {
                Ok(0)
            };
        }
        let Some(first) = buf.first() else {
            return Ok(0);
        };
        self.taken.push(*first)?;
        self.room -= 1;
        Ok(1)
    }

    fn flush(&mut self) -> io::Result<()> {
        if self.sends {
            Ok(())
        } else {
            Err(Error::from(ErrorKind::StorageFull))
        }
    }
}

/// Asserts what is read of a reader of this text that fails so at its end, if it does.
fn check_read(
    rt: &(impl Abort + AllocGlobal),
    wanted: &[u8],
    failure: Option<ErrorKind>,
    fault: Option<ReadFault>,
) {
    let mut input = Slow {
        rest: wanted,
        interrupts: false,
        failure,
    };
    match read_all(rt.alloc(), &mut input, 100) {
        Ok(text) => {
            assert!(rt; fault.is_none());
            assert_eq!(rt; text.as_slice(), wanted);
        }
        Err(told) => assert_eq!(rt; Some(told), fault),
    }
}

/// The same for an end, a failed read and want of memory.
fn check_each_end(rt: &(impl Abort + AllocGlobal), text: &[u8]) {
    let reset = Some(ErrorKind::ConnectionReset);
    let short = Some(ErrorKind::OutOfMemory);
    check_read(rt, text, None, None);
    check_read(rt, text, reset, Some(ReadFault::Io));
    check_read(rt, text, short, Some(ReadFault::Memory));
}

#[test]
fn reads_however_a_text_comes(rt: HostRuntime) -> Result<(), Fail> {
    check_each_end(&rt, TEXT);
    Ok(())
}

/// The fault of an endless reader.
fn fault_of_endless(alloc: Global) -> Option<ReadFault> {
    let mut input = io::repeat(b'#');
    match read_all(alloc, &mut input, 3) {
        Ok(_) => None,
        Err(fault) => Some(fault),
    }
}

/// Whether all of a text is read by two calls.
fn is_read(alloc: Global, text: &[u8]) -> bool {
    let mut input = text;
    read_all(alloc, &mut input, 2).is_ok()
}

#[test]
fn gives_up_on_a_reader_that_does_not_end(rt: HostRuntime) -> Result<(), Fail> {
    assert_eq!(&rt; fault_of_endless(rt.alloc()), Some(ReadFault::Io));
    assert!(&rt; is_read(rt.alloc(), TEXT));
    Ok(())
}

/// What a text comes to if all of it is written and sent on, or else if there is room for so many octets.
fn expected(is_sent: bool, room: usize) -> Result<(), WriteFault> {
    if is_sent {
        Ok(())
    } else {
        Err(WriteFault { written: room })
    }
}

/// Asserts what is written of a text, and what is told of it, where there is room for so many octets.
fn check_write(
    rt: &(impl Abort + AllocGlobal),
    text: &[u8],
    refuses: bool,
    sends: bool,
    room: usize,
) {
    let mut output = Narrow {
        taken: Vec::new(rt.alloc()),
        room,
        refuses,
        sends,
        interrupts: false,
    };
    let told = write_all(&mut output, text);
    let is_sent = sends && room == text.len();
    assert_eq!(rt; told, expected(is_sent, room), "room for {room}");
    assert_eq!(rt;
        Some(output.taken.as_slice()),
        text.get(..room),
        "room for {room}"
    );
}

/// The same for each room.
fn check_each_room(rt: &(impl Abort + AllocGlobal), text: &[u8], refuses: bool, sends: bool) {
    for room in 0..=text.len() {
        check_write(rt, text, refuses, sends, room);
    }
}

/// A writer that fails, one that takes no octet any more, and one that fails to send on what it took.
#[test]
fn writes_whole_or_tells_how_much(rt: HostRuntime) -> Result<(), Fail> {
    check_each_room(&rt, TEXT, true, true);
    check_each_room(&rt, TEXT, false, true);
    check_each_room(&rt, TEXT, true, false);
    Ok(())
}

/// How many octets are read of a reader of so many.
fn length_of_all(alloc: Global, count: u64) -> Result<usize, ReadFault> {
    let mut input = io::repeat(b'#').take(count);
    let text = read_all(alloc, &mut input, 100)?;
    Ok(text.len())
}

/// Meant for refused allocations.
#[test]
fn a_refusal_is_told(rt: HostRuntime) -> Result<(), Fail> {
    match length_of_all(rt.alloc(), 10_000) {
        Ok(length) => assert!(&rt; length == 10_000),
        Err(fault) => {
            assert_eq!(&rt; fault, ReadFault::Memory);
            return Err(Fail::from("memory was refused"));
        }
    }
    Ok(())
}
