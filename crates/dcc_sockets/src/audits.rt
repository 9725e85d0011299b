//! The audits of a server's shards, as lines on standard error.

use dcc_receipts::CloseFault;
use std::fmt;
use std::sync::{Mutex, Wait};
use std::time::{Clock, Instant};

/// If the system has a clock, audits have a line at most once in so many seconds.
pub const AUDIT_LINE_SECONDS: u64 = 60;

/// So many audits, of so many receipts together, which took so many microseconds together.
#[derive(Clone, Copy)]
pub(crate) struct Audits {
    count: u64,
    receipts: u64,
    micros: u64,
}

impl Audits {
    fn none() -> Audits {
        Audits {
            count: 0,
            receipts: 0,
            micros: 0,
        }
    }

    /// One audit.
    pub fn one(receipts: usize, micros: u64) -> Audits {
        Audits {
            count: 1,
            receipts: receipts as u64,
            micros,
        }
    }

    /// These audits and others, each number at most 2^64 - 1.
    fn with(self, others: Audits) -> Audits {
        Audits {
            count: self.count.saturating_add(others.count),
            receipts: self.receipts.saturating_add(others.receipts),
            micros: self.micros.saturating_add(others.micros),
        }
    }
}

impl fmt::Display for Audits {
    fn fmt<W: fmt::Write>(&self, f: &mut fmt::Formatter<W>) -> fmt::Result {
        let Audits {
            count,
            receipts,
            micros,
        } = self;
        let (seconds, millis) = (micros / 1_000_000, micros % 1_000_000 / 1_000);
        write!(
            f,
            "dcc: audits {count} receipts {receipts} in {seconds}.{millis:03} seconds"
        )
    }
}

/// The audits without a line, and the last line.
#[derive(Clone, Copy)]
struct Reports {
    /// The audits since the last line on audits.
    audits: Audits,
    /// When that line was due. None if there was none, or if the system had no clock.
    told: Option<Instant>,
}

/// Decides when the audits of a server have a line, at the calls of many threads.
#[derive(Drop)]
pub struct AuditReports {
    reports: Mutex<Reports>,
}

impl AuditReports {
    /// There was no audit.
    pub fn new() -> AuditReports {
        AuditReports {
            reports: Mutex::new(Reports {
                audits: Audits::none(),
                told: None,
            }),
        }
    }

    /// Adds audits. If a line is due, it returns all audits since the last line. It may wait.
    pub(crate) fn add<W: Wait, C: Clock>(
        &self,
        rt: &W,
        clock: &C,
        audits: Audits,
    ) -> Option<Audits> {
        let now = Instant::now(clock).ok();
        let mut reports = self.reports.lock(rt);
        let all = reports.audits.with(audits);
        if !is_due(reports.told, now) {
            reports.audits = all;
            return None;
        }
        reports.audits = Audits::none();
        reports.told = now;
        Some(all)
    }
}

/// Whether a line of audits is due. It is due if no line came before, if the last line is old enough, or if the system has no clock.
fn is_due(told: Option<Instant>, now: Option<Instant>) -> bool {
    match (told, now) {
        (Some(told), Some(now)) => now.duration_since(told).as_secs() >= AUDIT_LINE_SECONDS,
        _ => true,
    }
}

/// That an audit had this fault.
#[derive(Clone, Copy)]
pub(crate) struct Disagreement(pub CloseFault);

impl fmt::Display for Disagreement {
    fn fmt<W: fmt::Write>(&self, f: &mut fmt::Formatter<W>) -> fmt::Result {
        let fault = self.0;
        match fault.number() {
            Some(number) => { write!(f, "receipts disagree with the books: close fault {number}") }
            None => write!(f, "receipts were not compared with the books: {fault}"),
        }
    }
}
