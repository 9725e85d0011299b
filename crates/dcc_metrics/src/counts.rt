//! What the counters had when they were read.

/// The counts of a server and of its messages.
#[derive(Drop)]
pub(crate) struct ServerCounts {
    /// Gateways that are connected.
    pub gateways: u64,
    /// Gateways that have connected.
    pub came: u64,
    /// By kind of request.
    pub requests: Vec<u64>,
    /// By Result-Code, and behind these the others.
    pub answers: Vec<u64>,
}

/// The counts of acts, by shard.
#[derive(Drop)]
pub(crate) struct ActCounts {
    pub acts: Vec<u64>,
    pub repeats: Vec<u64>,
    pub busy: Vec<u64>,
    pub subscribers: Vec<u64>,
}

/// The counts of the work of shards, by shard.
#[derive(Drop)]
pub(crate) struct WorkCounts {
    pub sweeps: Vec<u64>,
    /// Sessions that sweeps ended.
    pub ended: Vec<u64>,
    pub batches: Vec<u64>,
    /// The items that were taken last.
    pub items: Vec<u64>,
}

/// The counts of audits.
#[derive(Drop)]
pub(crate) struct AuditCounts {
    /// By shard.
    pub audits: Vec<u64>,
    /// The receipts that were audited, by shard.
    pub receipts: Vec<u64>,
    /// The sum of the times of all audits, in microseconds.
    pub micros: u64,
}

/// The counts of times.
#[derive(Drop)]
pub(crate) struct TimeCounts {
    /// By bucket, each without those before it.
    pub buckets: Vec<u64>,
    /// The sum of all times, in microseconds.
    pub micros: u64,
}
