//! Connections whose reader comes to its end or fails: which faults come, and that what a lane has goes out at once, no clause says.

use crate::acts::moment;
use dcc_act::Moment;
use dcc_base::Reply;
use dcc_connect::{
    Answerer, Clock, ConnectFault, ConnectionEnd, Handed, Item, Submitter, WriteEnd, read_side,
    serve_connection, write_side,
};
use dcc_lane::{Lane, Receiver, Sender};
use dcc_message::HeaderFault;
use dcc_octets::OctetString;
use dcc_samples::{CAPABILITIES, CAPABILITIES_ANSWER, WATCHDOG, WATCHDOG_ANSWER};
use std::alloc::Global;
use std::io::{self, Error, ErrorKind, Read, Write};
use std::process::Abort;
use std::sync::Wait;
use std::test::Fail;

/// A capabilities exchange, and then a device watchdog: their headers alone (RFC 6733, sections 5.3.1 and 5.5.1).
const MESSAGES: &[u8] = &[
    1, 0, 0, 20, 0x80, 0, 1, 1, 0, 0, 0, 0, 0, 0, 0, 1, 0, 0, 0, 1, //
    1, 0, 0, 20, 0x80, 0, 1, 24, 0, 0, 0, 0, 0, 0, 0, 2, 0, 0, 0, 2,
];

/// So many octets its answer has, and both answers together.
const FIRST_ANSWER: usize = 120;

const BOTH_ANSWERS: usize = 188;

/// A header of version 2, of a message that has nothing else.
const VERSION_TWO: &str = "0200001480000118000000000000000500000006";

/// More turns, and more reads or octets, than any of these connections takes.
const ENOUGH: u32 = 1000;

const MANY: usize = 1000;

/// Gives so many octets at a time, and fails at the read after so many.
#[derive(Drop)]
struct Source<'a> {
    rest: &'a [u8],
    most: usize,
    reads: usize,
    failure: ErrorKind,
}

impl Read for Source<'_> {
    fn read(&mut self, buf: &mut [u8]) -> io::Result<usize> {
        if self.reads == 0 {
            self.reads = MANY;
            return Err(Error::from(self.failure));
        }
        self.reads -= 1;
        let count = self.rest.len().min(self.most).min(buf.len());
        let (front, rest) = self.rest.split_at(count);
        buf[..count].copy_from_slice(front);
        self.rest = rest;
        Ok(count)
    }
}

/// Takes so many octets at a time, and in all no more than it has room for; then it fails, or takes none.
#[derive(Drop)]
struct Sink {
    taken: Vec<u8>,
    most: usize,
    room: usize,
    refuses: bool,
    /// How often it was called.
    calls: u32,
}

impl Write for Sink {
    fn write(&mut self, buf: &[u8]) -> io::Result<usize> {
        self.calls = self.calls.saturating_add(1);
        if self.room == 0 && self.refuses {
            return Err(Error::from(ErrorKind::BrokenPipe));
        }
        let count = self.room.min(self.most).min(buf.len());
        self.taken.extend_from_slice(&buf[..count])?;
        self.room -= count;
        Ok(count)
    }

    fn flush(&mut self) -> io::Result<()> {
        Ok(())
    }
}

#[derive(Drop)]
struct Stopped(Moment);

impl Clock for Stopped {
    ghost tells = { λ _ _ _. Unit {0} };

    fn moment(&mut self) -> Moment {
        self.0
    }
}

/// A clock that stands at these seconds.
fn clock_at(seconds: u64) -> Result<Stopped, Fail> {
    Ok(Stopped(moment(seconds)?))
}

/// Answers the messages by their turn, with these octets; it closes behind the one that it is told, and for want of memory.
#[derive(Drop)]
struct InTurn<'a> {
    alloc: Global,
    answers: &'a [u8],
    answered: u32,
    last: u32,
}

impl Answerer for InTurn<'_> {
    ghost answers = { λ _ _ _ _ _. Unit {0} };

    fn answer(&mut self, _moment: Moment, _message: &[u8]) -> Reply {
        let (first, second) = self.answers.split_at(FIRST_ANSWER.min(self.answers.len()));
        let octets = if self.answered == 0 { first } else { second };
        self.answered = self.answered.saturating_add(1);
        match Vec::from_slice(self.alloc, octets) {
            Ok(octets) => Reply {
                octets: OctetString::from_vec(octets),
                close: self.answered == self.last,
            },
            Err(_) => Reply {
                octets: OctetString::new(self.alloc),
                close: true,
            },
        }
    }
}

/// Counts the messages, and closes behind the one that it is told.
#[derive(Drop)]
struct Counter {
    handed: u32,
    last: u32,
}

impl Submitter for Counter {
    ghost hands = { λ _ _ _ _ _. Unit {0} };

    fn hand<W: Wait>(&mut self, _rt: &W, _moment: Moment, _message: &[u8]) -> Handed {
        self.handed = self.handed.saturating_add(1);
        if self.handed == self.last {
            Handed::Closes
        } else {
            Handed::Stays
        }
    }
}

/// A connection: what it reads, so many octets at a time, and how the read after so many fails; for how many octets its writer has room, and whether
/// it then fails; behind which message it closes; and how many turns it has.
#[derive(Clone, Copy)]
struct Given<'a> {
    octets: &'a [u8],
    most: usize,
    reads: usize,
    failure: ErrorKind,
    room: usize,
    refuses: bool,
    last: u32,
    turns: u32,
}

/// Two headers in one piece.
const WHOLE: Given<'static> = Given {
    octets: MESSAGES,
    most: 100,
    reads: MANY,
    failure: ErrorKind::ConnectionReset,
    room: MANY,
    refuses: true,
    last: 9,
    turns: ENOUGH,
};

/// The same octet by octet.
const BY_OCTETS: Given<'static> = Given { most: 1, ..WHOLE };

fn input_of(given: Given<'_>) -> Source<'_> {
    Source {
        rest: given.octets,
        most: given.most,
        reads: given.reads,
        failure: given.failure,
    }
}

/// The messages of a peer, and what they are answered.
#[derive(Drop)]
struct Samples {
    messages: Vec<u8>,
    answers: Vec<u8>,
}

/// The octets of two samples, one behind the other.
fn decoded(alloc: Global, first: &str, second: &str) -> Result<Vec<u8>, Fail> {
    let mut octets = hex::decode(alloc, first)?;
    let more = hex::decode(alloc, second)?;
    octets.extend_from_slice(&more)?;
    Ok(octets)
}

/// The exchange of capabilities and a watchdog.
fn decoded_samples(alloc: Global) -> Result<Samples, Fail> {
    Ok(Samples {
        messages: decoded(alloc, CAPABILITIES, WATCHDOG)?,
        answers: decoded(alloc, CAPABILITIES_ANSWER, WATCHDOG_ANSWER)?,
    })
}

/// Serves a connection, and asserts how it ends, and that so many octets of the answers are written, octet by octet.
fn check(
    rt: &(impl Abort + AllocGlobal),
    answers: &[u8],
    given: Given<'_>,
    end: ConnectionEnd,
    written: usize,
) -> Result<(), Fail> {
    let alloc = rt.alloc();
    let mut input = input_of(given);
    let mut output = Sink {
        taken: Vec::new(alloc),
        most: 1,
        room: given.room,
        refuses: given.refuses,
        calls: 0,
    };
    let mut answerer = InTurn {
        alloc,
        answers,
        answered: 0,
        last: given.last,
    };
    let mut clock = clock_at(1_700_000_000)?;
    let told = serve_connection(
        alloc,
        &mut input,
        &mut output,
        &mut clock,
        &mut answerer,
        given.turns,
    );
    assert_eq!(rt; told, end);
    assert_eq!(rt; Some(output.taken.as_slice()), answers.get(..written));
    Ok(())
}

/// Both messages are answered, at once and octet by octet; also where a read is interrupted. A connection is closed behind an answer, and ends
/// when its turns are used up.
fn check_ends(rt: &(impl Abort + AllocGlobal), octets: &[u8], answers: &[u8]) -> Result<(), Fail> {
    let whole = Given { octets, ..WHOLE };
    let by_octets = Given {
        octets,
        ..BY_OCTETS
    };
    let interrupted = Given {
        reads: 1,
        failure: ErrorKind::Interrupted,
        ..by_octets
    };
    let closing = Given { last: 1, ..whole };
    let short = Given {
        turns: 3,
        ..by_octets
    };
    let used_up = ConnectionEnd::Fault(ConnectFault::TooManyTurns);
    check(rt, answers, whole, ConnectionEnd::End, BOTH_ANSWERS)?;
    check(rt, answers, by_octets, ConnectionEnd::End, BOTH_ANSWERS)?;
    check(rt, answers, interrupted, ConnectionEnd::End, BOTH_ANSWERS)?;
    check(rt, answers, closing, ConnectionEnd::Closed, FIRST_ANSWER)?;
    check(rt, answers, short, used_up, 0)
}

#[test]
fn connections_end(rt: HostRuntime) -> Result<(), Fail> {
    let samples = decoded_samples(rt.alloc())?;
    check_ends(&rt, &samples.messages, &samples.answers)
}

/// So many octets are answered to the messages that are whole behind so many octets: the first has 108, and both have 164.
fn answered(octets: usize) -> usize {
    if octets < 108 {
        0
    } else if octets < 164 {
        FIRST_ANSWER
    } else {
        BOTH_ANSWERS
    }
}

/// A reader that fails at each read in turn, of both messages octet by octet.
fn fail_each_read(
    rt: &(impl Abort + AllocGlobal),
    octets: &[u8],
    answers: &[u8],
) -> Result<(), Fail> {
    let failed = ConnectionEnd::Fault(ConnectFault::Read);
    for reads in 0..=octets.len() {
        let given = Given {
            octets,
            reads,
            ..BY_OCTETS
        };
        check(rt, answers, given, failed, answered(reads))?;
    }
    Ok(())
}

#[test]
fn the_reader_fails_at_each_read(rt: HostRuntime) -> Result<(), Fail> {
    let samples = decoded_samples(rt.alloc())?;
    fail_each_read(&rt, &samples.messages, &samples.answers)
}

/// A writer that has so much room, and fails or takes nothing behind it.
fn fail_write(
    rt: &(impl Abort + AllocGlobal),
    given: Given<'_>,
    answers: &[u8],
) -> Result<(), Fail> {
    let failed = ConnectionEnd::Fault(ConnectFault::Write {
        written: given.room as u64,
    });
    check(rt, answers, given, failed, given.room)?;
    let full = Given {
        refuses: false,
        ..given
    };
    check(rt, answers, full, failed, given.room)
}

/// A writer that fails behind each octet in turn.
fn fail_each_write(
    rt: &(impl Abort + AllocGlobal),
    octets: &[u8],
    answers: &[u8],
) -> Result<(), Fail> {
    assert_eq!(rt; answers.len(), BOTH_ANSWERS);
    for room in 0..answers.len() {
        let given = Given {
            octets,
            room,
            ..WHOLE
        };
        fail_write(rt, given, answers)?;
    }
    Ok(())
}

#[test]
fn the_writer_fails_behind_each_octet(rt: HostRuntime) -> Result<(), Fail> {
    let samples = decoded_samples(rt.alloc())?;
    fail_each_write(&rt, &samples.messages, &samples.answers)
}

/// A message, and then a header of version 2: how the connection ends, and what is written.
fn end_at_a_version(
    rt: &(impl Abort + AllocGlobal),
    octets: &[u8],
    answers: &[u8],
) -> Result<(), Fail> {
    let fault = ConnectFault::Header(HeaderFault::Version);
    assert_eq!(rt; fault.number(), Some(10));
    let given = Given { octets, ..WHOLE };
    let ended = ConnectionEnd::Fault(fault);
    check(rt, answers, given, ended, FIRST_ANSWER)
}

#[test]
fn a_version_ends_a_connection(rt: HostRuntime) -> Result<(), Fail> {
    let octets = decoded(rt.alloc(), CAPABILITIES, VERSION_TWO)?;
    let answers = decoded(rt.alloc(), CAPABILITIES_ANSWER, WATCHDOG_ANSWER)?;
    end_at_a_version(&rt, &octets, &answers)
}

/// Hands messages on: how that ends, and how many were handed on.
fn handed<W: Wait + AllocGlobal>(rt: &W, given: Given<'_>) -> Result<(ConnectionEnd, u32), Fail> {
    let mut counter = Counter {
        handed: 0,
        last: given.last,
    };
    let mut input = input_of(given);
    let mut clock = clock_at(1_700_000_000)?;
    let end = read_side(
        rt,
        rt.alloc(),
        &mut input,
        &mut clock,
        &mut counter,
        given.turns,
    );
    Ok((end, counter.handed))
}

/// Asserts how that ends, and how many were handed on.
fn check_handed<W: Wait + Abort + AllocGlobal>(
    rt: &W,
    given: Given<'_>,
    end: ConnectionEnd,
    count: u32,
) -> Result<(), Fail> {
    let (told, found) = handed(rt, given)?;
    assert_eq!(rt; told, end);
    assert_eq!(rt; found, count);
    Ok(())
}

#[test]
fn hands_each_message_on(rt: HostRuntime) -> Result<(), Fail> {
    let closing = Given { last: 1, ..WHOLE };
    let failing = Given {
        reads: 39,
        ..BY_OCTETS
    };
    let failed = ConnectionEnd::Fault(ConnectFault::Read);
    check_handed(&rt, BY_OCTETS, ConnectionEnd::End, 2)?;
    check_handed(&rt, closing, ConnectionEnd::Closed, 1)?;
    check_handed(&rt, failing, failed, 1)
}

/// Meant for refused allocations.
#[test]
fn a_refusal_is_told(rt: HostRuntime) -> Result<(), Fail> {
    let (end, count) = handed(&rt, BY_OCTETS)?;
    if end == ConnectionEnd::Fault(ConnectFault::Memory) {
        assert!(&rt; count < 2);
        return Err(Fail::from("memory was refused"));
    }
    assert_eq!(&rt; end, ConnectionEnd::End);
    assert_eq!(&rt; count, 2);
    Ok(())
}

/// A lane of items: its only sender, and its receiver.
fn lane(alloc: Global) -> Result<(Sender<Item>, Receiver<Item>), Fail> {
    let (mut senders, receiver) = Lane::<Item>::new(alloc, 8, 1)?;
    match senders.pop() {
        Some(sender) => Ok((sender, receiver)),
        None => Err("no sender".into()),
    }
}

/// Puts three items, and then that it ends.
fn put_three<W: Wait>(rt: &W, alloc: Global, sender: &mut Sender<Item>) {
    for _ in 0..3u32 {
        if let Ok(octets) = Vec::from_slice(alloc, MESSAGES) {
            sender.put(rt, Item::Octets(OctetString::from_vec(octets)));
        }
    }
    sender.put(rt, Item::End);
}

/// Three answers that were all written, and then an end.
const ALL: WriteEnd = WriteEnd {
    fault: None,
    answers: 3,
    ended: 1,
};

/// Writes what a lane has of three items, and asserts that it goes out in one call.
fn check_one_call<W: Wait + Abort + AllocGlobal>(rt: &W, receiver: &mut Receiver<Item>) {
    let mut output = Sink {
        taken: Vec::new(rt.alloc()),
        most: 200,
        room: MANY,
        refuses: true,
        calls: 0,
    };
    let end = write_side(rt, rt.alloc(), &mut output, receiver, ENOUGH);
    assert_eq!(rt; end, ALL);
    assert_eq!(rt; output.calls, 1);
    assert_eq!(rt; output.taken.len(), 3 * MESSAGES.len());
}

#[test]
fn what_the_lane_has_goes_out_in_one_call(rt: HostRuntime) -> Result<(), Fail> {
    let (mut sender, mut receiver) = lane(rt.alloc())?;
    put_three(&rt, rt.alloc(), &mut sender);
    check_one_call(&rt, &mut receiver);
    Ok(())
}
