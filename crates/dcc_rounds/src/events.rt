//! Events that are counted.

ghost use Rattle.std.specs.Prelude.{◌≡◌, length};

use crate::batch::BATCH;
use crate::face::{Event, Notice, Notices};
use crate::work::Request;
use dcc_receipts::CloseFault;
use dcc_running::{Naming, Seat, Shards};
use dcc_shard::RequestAnswer;
use dcc_store::Records;
use std::sync::Wait;

/// Counts the receipts of a seat behind its first `counted` receipts, and returns the number of all its receipts. It takes no memory.
pub fn count_receipts<R: Records, J: Naming, N: Notices>(
    notices: &N,
    shards: &Shards<R, J>,
    seat: &Seat,
    counted: usize,
) -> usize {
    let receipts = seat.receipts();
    for receipt in receipts.get(counted..).unwrap_or(&[]) {
        let shard = shards.index_of(&receipt.sub);
        notices.count(Event::Receipt { shard, receipt });
    }
    receipts.len()
}

/// Who counts the events of a shard's worker.
#[derive(Drop)]
pub(crate) struct Events<'a, N> {
    pub notices: &'a N,
    pub shard: usize,
}

impl<N: Notices> Events<'_, N> {
    /// Counts that the worker took so many items together.
    pub fn took(&self, items: usize) {
        let shard = self.shard;
        self.notices.count(Event::Took { shard, items });
    }

    /// Counts that the worker was asked for a sweep.
    pub fn swept(&self) {
        let shard = self.shard;
        self.notices.count(Event::Swept { shard });
    }

    /// Counts the receipts of the worker's seat behind its first `counted` receipts, and returns the number of all its receipts.
    pub fn told(&self, seat: &Seat, counted: usize) -> usize
        ensures { result ≡ length seat.now }
    {
        let shard = self.shard;
        let receipts = seat.receipts();
        for receipt in receipts.get(counted..).unwrap_or(&[]) {
            self.notices.count(Event::Receipt { shard, receipt });
        }
        receipts.len()
    }

    /// Reports an audit of the worker's receipts that began at this tick. An audit for which memory was short isn't reported.
    pub fn audited<W: Wait>(&self, rt: &W, audited: Result<usize, CloseFault>, begun: u64) {
        let shard = self.shard;
        match audited {
            Ok(receipts) => {
                let micros = self.notices.ticks().saturating_sub(begun);
                self.notices.tell(
                    rt,
                    Notice::Audited {
                        shard,
                        receipts,
                        micros,
                    },
                );
            }
            Err(CloseFault::Memory) => {}
            Err(fault) => self.notices.tell(rt, Notice::Disagrees { shard, fault }),
        }
    }

    /// Counts an answer to a request that was read at this tick.
    pub fn answered(&self, answer: &RequestAnswer, ticks: u64) {
        self.count(answer, self.notices.ticks().saturating_sub(ticks));
    }

    /// Counts answers to requests that were read at these ticks, in order.
    pub fn all_answered(&self, answers: &[RequestAnswer], read: &[u64; BATCH]) {
        let now = self.notices.ticks();
        for (answer, ticks) in answers.iter().zip(read.iter()) {
            self.count(answer, now.saturating_sub(*ticks));
        }
    }

    /// Counts an answer behind so many microseconds, if there is one.
    fn count(&self, answer: &RequestAnswer, micros: u64) {
        let shard = self.shard;
        match answer {
            RequestAnswer::Done {
                octets,
                place: _,
                fresh: _,
            }
            | RequestAnswer::Unknown { octets }
            | RequestAnswer::Busy { octets } => {
                let octets = octets.as_slice();
                self.notices.count(Event::Answered {
                    shard,
                    octets,
                    micros,
                });
            }
            RequestAnswer::Silent => {}
        }
    }
}

/// The ticks at which these requests were read, in order. Of more than [`BATCH`] requests it has the first.
pub(crate) fn ticks_of(batch: &[Request]) -> [u64; BATCH] {
    let mut read = [0u64; BATCH];
    for (ticks, request) in read.iter_mut().zip(batch) {
        *ticks = request.ticks;
    }
    read
}
