//! The counters of a shard. Its worker alone counts by most of them, so that no two threads take them from each other.

ghost use Rattle.std.specs.Prelude.{◌≡◌, ◌+◌, IfOk, length};

use crate::bounds::{BOUNDS, bucket_of};
use crate::results::RESULTS;
use crate::row::Row;
use std::alloc::{AllocError, Global};

/// What is counted of a shard as one number.
#[derive(Clone, Copy)]
pub(crate) enum Count {
    Acts,
    Repeats,
    Busy,
    Subscribers,
    Sweeps,
    Ended,
    Batches,
    Items,
    /// The sum of the times of its answers, in microseconds.
    Micros,
    Audits,
    /// The receipts that audits compared.
    AuditedReceipts,
    /// The sum of the times of its audits, in microseconds.
    AuditMicros,
    /// Its audits when `Meters::acts_to_keep` last returned its acts. It is on no page.
    AuditsSeen,
    /// The acts that `Meters::acts_to_keep` last returned. They are on no page.
    ActsSeen,
}

/// How many of these there are.
const COUNTS: usize = 14;

impl Count {
    /// The index of its counter.
    fn index(self) -> usize {
        match self {
            Count::Acts => 0,
            Count::Repeats => 1,
            Count::Busy => 2,
            Count::Subscribers => 3,
            Count::Sweeps => 4,
            Count::Ended => 5,
            Count::Batches => 6,
            Count::Items => 7,
            Count::Micros => 8,
            Count::Audits => 9,
            Count::AuditedReceipts => 10,
            Count::AuditMicros => 11,
            Count::AuditsSeen => 12,
            Count::ActsSeen => 13,
        }
    }
}

/// The counters of a shard.
#[derive(Drop)]
pub(crate) struct ShardMeters {
    counts: Row,
    /// By Result-Code.
    answers: Row,
    /// By the time of an answer.
    buckets: Row,
}

impl ShardMeters {
    /// The counters of a shard, each at 0. The only error is want of memory.
    pub fn new(alloc: Global) -> Result<ShardMeters, AllocError> {
        let counts = Row::new(alloc, COUNTS)?;
        let answers = Row::new(alloc, RESULTS.len() + 1)?;
        let buckets = Row::new(alloc, BOUNDS.len() + 1)?;
        Ok(ShardMeters {
            counts,
            answers,
            buckets,
        })
    }

    /// Counts so many more.
    pub fn add(&self, count: Count, more: u64) {
        self.counts.add(count.index(), more);
    }

    /// Sets what is counted.
    pub fn set(&self, count: Count, number: u64) {
        self.counts.set(count.index(), number);
    }

    /// What is counted now.
    pub fn at(&self, count: Count) -> u64 {
        self.counts.at(count.index())
    }

    /// Counts an answer with the Result-Code of this index, behind so many microseconds.
    pub fn answer(&self, code: usize, micros: u64) {
        self.answers.add(code, 1);
        self.buckets.add(bucket_of(micros), 1);
        self.add(Count::Micros, micros);
    }
}

/// A count of each shard. The only error is want of memory.
pub(crate) fn column(
    alloc: Global,
    shards: &[ShardMeters],
    count: Count,
) -> Result<Vec<u64>, AllocError>
    ensures { IfOk result (λ numbers. length numbers.items ≡ length shards.now) }
{
    let mut numbers = Vec::new(alloc);
    for shard in shards {
        numbers.push(shard.at(count))?;
    }
    Ok(numbers)
}

/// The answers by Result-Code: those of all workers, and those that no worker gave. The only error is want of memory.
pub(crate) fn answers_of(
    alloc: Global,
    replies: &Row,
    shards: &[ShardMeters],
) -> Result<Vec<u64>, AllocError>
    ensures { IfOk result (λ numbers. length numbers.items ≡ length RESULTS + 1) }
{
    let mut numbers = Vec::new(alloc);
    for code in 0..RESULTS.len() + 1 {
        let mut number = replies.at(code);
        for shard in shards {
            number = number.saturating_add(shard.answers.at(code));
        }
        numbers.push(number)?;
    }
    Ok(numbers)
}

/// The times of all workers' answers by bucket. The only error is want of memory.
pub(crate) fn buckets_of(alloc: Global, shards: &[ShardMeters]) -> Result<Vec<u64>, AllocError>
    ensures { IfOk result (λ numbers. length numbers.items ≡ length BOUNDS + 1) }
{
    let mut numbers = Vec::new(alloc);
    for bucket in 0..BOUNDS.len() + 1 {
        let mut number = 0u64;
        for shard in shards {
            number = number.saturating_add(shard.buckets.at(bucket));
        }
        numbers.push(number)?;
    }
    Ok(numbers)
}

/// The sum of a count of all shards.
pub(crate) fn sum_of(shards: &[ShardMeters], count: Count) -> u64 {
    let mut sum = 0u64;
    for shard in shards {
        sum = sum.saturating_add(shard.at(count));
    }
    sum
}
