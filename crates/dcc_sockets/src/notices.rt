//! What happened, as lines on standard error and in counters.

use crate::audits::{AuditReports, Audits, Disagreement};
use dcc_connect::{ConnectFault, ConnectionEnd, WriteEnd};
use dcc_metrics::Meters;
use dcc_octets::{FIRST_VISIBLE, LAST_VISIBLE};
use dcc_receipts::{Receipt, Told};
use dcc_rounds::{Event, Notice, Notices, Sign, WINDOW};
use std::fmt;
use std::io::Eprint;
use std::sync::Wait;
use std::time::{Clock, Duration, Instant};

/// After so many milliseconds at most a reader looks again whether its gateway is owed fewer answers. The first look comes after one.
const ROOM_MILLIS: u64 = 16;

/// Writes each notice as a line to standard error, whatever octets a peer's name has: all but `!` to `~`, and the backslash, stand as `\xNN`.
/// A line that can't be written is left out. It counts notices, events and signs. Audits have a line together, at most once a minute if the system has a clock.
#[derive(Drop)]
pub struct NoticeLines<'r, P: Eprint> {
    print: &'r P,
    meters: &'r Meters,
    /// The moment from which the microseconds of events are counted. None if the system has no clock: then all are 0.
    begun: Option<Instant>,
    audits: &'r AuditReports,
}

impl<'r, P: Eprint + Clock> NoticeLines<'r, P> {
    /// Lines on the standard error of this runtime, these counters, and these audits without a line.
    pub fn new(print: &'r P, meters: &'r Meters, audits: &'r AuditReports) -> NoticeLines<'r, P> {
        NoticeLines {
            print,
            meters,
            begun: Instant::now(print).ok(),
            audits,
        }
    }
}

impl<P: Eprint + Clock> NoticeLines<'_, P> {
    /// Counts an audit of a shard's receipts, and writes the line of audits if it is due. Without a receipt it does nothing.
    fn audited<W: Wait>(&self, rt: &W, shard: usize, receipts: usize, micros: u64) {
        if receipts == 0 {
            return;
        }
        self.meters.audited(shard, receipts, micros);
        self.report(rt, Audits::one(receipts, micros));
    }

    /// Counts one audit of receipts of many shards, so many of each. It counts as an audit of each shard that has some, and its time for the first of these. Then it
    /// writes the line of audits if it is due.
    pub(crate) fn audited_together<W: Wait>(&self, rt: &W, receipts: &[usize], micros: u64) {
        let mut left = micros;
        let mut all: usize = 0;
        for (shard, &receipts) in receipts.iter().enumerate() {
            if receipts > 0 {
                self.meters.audited(shard, receipts, left);
                left = 0;
                all = all.saturating_add(receipts);
            }
        }
        self.report(rt, Audits::one(all, micros));
    }

    /// Writes the line of audits if it is due.
    fn report<W: Wait>(&self, rt: &W, audits: Audits) {
        if let Some(audits) = self.audits.add(rt, self.print, audits) {
            let _lost = self.print.eprintln(audits);
        }
    }
}

impl<P: Eprint + Clock> Notices for NoticeLines<'_, P> {
    ghost has_told = { λ _. Unit {0} };

    fn tell_stop<W: Wait>(&self, _rt: &W, shard: usize) {
        let _lost = self
            .print
            .eprintln(format_args!("dcc: shard {shard} stopped: store fault 51"));
    }

    fn tell<W: Wait>(&self, rt: &W, notice: Notice<'_>) {
        match notice {
            Notice::Came { .. } => self.meters.came(),
            Notice::Host { gate, host } => {
                self.meters.opened(gate.saturating_sub(1));
                self.meters.host(rt, gate, host);
            }
            Notice::Written { gate, .. } => self.meters.went(rt, gate),
            Notice::Audited {
                shard,
                receipts,
                micros,
            } => {
                self.audited(rt, shard, receipts, micros);
                return;
            }
            Notice::Disagrees { fault, .. } => {
                // Without a number nothing was compared: memory was short.
                if fault.number().is_some() {
                    self.meters.disagreed();
                }
            }
            Notice::Read { .. } => {}
        }
        let line = NoticeLine { notice };
        let _lost = self.print.eprintln(line);
    }

    fn ticks(&self) -> u64 {
        match self.begun {
            Some(begun) => match begun.elapsed(self.print) {
                Ok(passed) => passed
                    .as_secs()
                    .saturating_mul(1_000_000)
                    .saturating_add(u64::from(passed.subsec_micros())),
                Err(_) => 0,
            },
            None => 0,
        }
    }

    fn count(&self, event: Event<'_>) {
        match event {
            Event::Read { message } => self.meters.read(message),
            Event::Replied { octets } => self.meters.replied(octets),
            Event::Answered {
                shard,
                octets,
                micros,
            } => self.meters.answered(shard, octets, micros),
            Event::Took { shard, items } => self.meters.took(shard, items),
            Event::Swept { shard } => self.meters.swept(shard),
            Event::Receipt { shard, receipt } => count_receipt(self.meters, shard, receipt),
        }
    }

    fn sign(&self, gate: usize, sign: Sign) {
        match sign {
            Sign::Writes => self.meters.began(gate),
            Sign::Asked => self.meters.asked(gate),
            Sign::Done => self.meters.done(gate),
            Sign::Put => self.meters.put(gate),
        }
    }

    fn wait_for_room<W: Wait>(&self, rt: &W, gate: usize) {
        let mut millis = 1u64;
        for _ in rt.forever() {
            if self.meters.has_room(gate, WINDOW) {
                return;
            }
            self.print.sleep(Duration::from_millis(millis));
            millis = millis.saturating_mul(2).min(ROOM_MILLIS);
        }
        unreachable!()
    }
}

/// Counts the act, or the repeat, of a receipt. An unknown subscriber has neither.
fn count_receipt(meters: &Meters, shard: usize, receipt: &Receipt) {
    if receipt.fresh {
        meters.act(shard, receipt.place);
    } else if receipt.place != 0 {
        meters.repeat(shard);
    }
    if let Told::Closed { sessions } = receipt.answer {
        meters.ended(shard, sessions);
    }
}

/// A notice as one line, without its line feed. What a peer sent stands in it escaped.
#[derive(Clone, Copy)]
struct NoticeLine<'a> {
    notice: Notice<'a>,
}

impl fmt::Display for NoticeLine<'_> {
    fn fmt<W: fmt::Write>(&self, f: &mut fmt::Formatter<W>) -> fmt::Result {
        match self.notice {
            Notice::Came { gate, name } => {
                let name = Escaped(name);
                write!(f, "dcc: gateway {gate} came from {name}")
            }
            Notice::Host { gate, host } => {
                let host = Escaped(host);
                write!(f, "dcc: gateway {gate} is {host}")
            }
            Notice::Read { gate, end } => {
                let end = ReadEndText(end);
                write!(f, "dcc: gateway {gate} {end}")
            }
            Notice::Written { gate, end } => {
                let WriteEnd {
                    fault,
                    answers,
                    ended: _,
                } = end;
                match fault {
                    None => write!(f, "dcc: gateway {gate} took {answers} answers"),
                    Some(fault) => {
                        write!(f, "dcc: gateway {gate} took {answers} answers: {fault}")
                    }
                }
            }
            Notice::Audited {
                receipts,
                micros,
                ..
            } => {
                let audits = Audits::one(receipts, micros);
                write!(f, "{audits}")
            }
            Notice::Disagrees { shard, fault } => {
                let disagreement = Disagreement(fault);
                write!(f, "dcc: shard {shard}: {disagreement}")
            }
        }
    }
}

/// Octets of a name that a peer chose, which neither end a line nor drive a terminal: `!` to `~` as they are but for the backslash, each
/// other octet as `\xNN`, its two lower-case hexadecimal digits.
#[derive(Clone, Copy)]
struct Escaped<'a>(&'a [u8]);

impl fmt::Display for Escaped<'_> {
    fn fmt<W: fmt::Write>(&self, f: &mut fmt::Formatter<W>) -> fmt::Result {
        for &octet in self.0 {
            match octet {
                b'\\' => f.write_str("\\x5c")?,
                FIRST_VISIBLE..=LAST_VISIBLE => f.write_char(char::from(octet))?,
                _ => write!(f, "\\x{octet:02x}")?,
            }
        }
        Ok(())
    }
}

/// Why nothing more is read of a gateway.
#[derive(Clone, Copy)]
struct ReadEndText(ConnectionEnd);

impl fmt::Display for ReadEndText {
    fn fmt<W: fmt::Write>(&self, f: &mut fmt::Formatter<W>) -> fmt::Result {
        match self.0 {
            ConnectionEnd::End => f.write_str("went"),
            ConnectionEnd::Closed => f.write_str("was closed"),
            ConnectionEnd::Fault(fault) => fault_text(fault, f),
        }
    }
}

fn fault_text<W: fmt::Write>(fault: ConnectFault, f: &mut fmt::Formatter<W>) -> fmt::Result {
    write!(f, "was dropped: {fault}")
}
