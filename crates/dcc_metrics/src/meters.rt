//! The counters of a server.

ghost use Rattle.std.specs.Prelude.{◌≡◌, IfOk, OnOk};
ghost use Rattle.dcc_metrics.specs.Meters.{AddsActs, AddsAudits, AddsHosts, AddsServer, AddsTimes, AddsWork, IsPage};

use crate::counts::{ActCounts, AuditCounts, ServerCounts, TimeCounts, WorkCounts};
use crate::hosts::Hosts;
use crate::page::{put_acts, put_audits, put_server, put_times, put_work};
use crate::requests::{KINDS, kind_of};
use crate::results::{RESULTS, TOO_BUSY, index_of_result, result_of};
use crate::row::Row;
use crate::shard::{Count, ShardMeters, answers_of, buckets_of, column, sum_of};
use dcc_octets::OctetString;
use std::alloc::{AllocError, Global};
use std::marker::Model;
use std::sync::atomic::{AtomicU64, Ordering};
use std::sync::{Mutex, Wait};

/// The counters of a server, by which many threads count at once. Contracts see the number of its shards, and not what it has counted. The counters of
/// places and of disagreements are on no page: the server itself reads them.
#[derive(Drop)]
pub struct Meters {
    alloc: Global,
    came: AtomicU64,
    went: AtomicU64,
    requests: Row,
    /// Of the answers that no worker gave.
    replies: Row,
    shards: Vec<ShardMeters>,
    hosts: Mutex<Hosts>,
    /// By place: the writers that have begun.
    writers: Row,
    /// By place: the requests of its gateway that went to workers, and those with which workers are done.
    asked: Row,
    done: Row,
    /// By place: the answers that were put into the lane to its writer, and those that went out whole.
    put: Row,
    written: Row,
    /// By place: 1 once its gateway has exchanged capabilities.
    opened: Row,
    /// By place: 1 once nothing more reaches its gateway.
    gone: Row,
    /// Of all shards.
    disagreements: AtomicU64,
}

impl Model for Meters {
    ghost use Rattle.std.specs.Prelude.{ℕ, length};

    ghost Value = { ℕ };

    ghost view = { λ meters. length meters.shards.items };
}

impl Meters {
    /// The counters of a server of so many shards and so many places, each at 0. The only error is want of memory.
    pub fn new(alloc: Global, shards: usize, places: usize) -> Result<Meters, AllocError>
        ensures { IfOk result (λ meters. meters ≡ shards) }
    {
        let requests = Row::new(alloc, KINDS.len())?;
        let replies = Row::new(alloc, RESULTS.len() + 1)?;
        let mut meters = Vec::new(alloc);
        for _made in 0..shards {
            meters.push(ShardMeters::new(alloc)?)?;
        }
        let hosts = Hosts::new(alloc, places)?;
        let writers = Row::new(alloc, places)?;
        let asked = Row::new(alloc, places)?;
        let done = Row::new(alloc, places)?;
        let put = Row::new(alloc, places)?;
        let written = Row::new(alloc, places)?;
        let opened = Row::new(alloc, places)?;
        let gone = Row::new(alloc, places)?;
        Ok(Meters {
            alloc,
            came: AtomicU64::new(0),
            went: AtomicU64::new(0),
            requests,
            replies,
            shards: meters,
            hosts: Mutex::new(hosts),
            writers,
            asked,
            done,
            put,
            written,
            opened,
            gone,
            disagreements: AtomicU64::new(0),
        })
    }

    /// The number of shards.
    pub fn shards(&self) -> usize
        ensures { result ≡ self.now }
    {
        self.shards.len()
    }

    /// Sets what a shard holds as it is opened.
    pub fn open(&self, shard: usize, subscribers: u64, acts: u64) {
        if let Some(meters) = self.shards.get(shard) {
            meters.set(Count::Subscribers, subscribers);
            meters.set(Count::Acts, acts);
        }
    }

    /// Counts a gateway that has connected.
    pub fn came(&self) {
        self.came.fetch_add(1, Ordering::SeqCst);
    }

    /// Keeps the host of the gateway with this number, counted from 1. If memory is short, it keeps none. It may wait.
    pub fn host<W: Wait>(&self, rt: &W, gate: usize, host: &[u8]) {
        let kept = match Vec::from_slice(self.alloc, host) {
            Ok(octets) => OctetString::from_vec(octets),
            Err(_) => OctetString::new(self.alloc),
        };
        self.hosts.lock(rt).set(gate.saturating_sub(1), kept);
    }

    /// Counts that the gateway with this number has gone, and keeps no host of it. It may wait.
    pub fn went<W: Wait>(&self, rt: &W, gate: usize) {
        let none = OctetString::new(self.alloc);
        self.hosts.lock(rt).set(gate.saturating_sub(1), none);
        self.went.fetch_add(1, Ordering::SeqCst);
    }

    /// Counts a thread that has begun to write to the gateway of the place of this index.
    pub fn began(&self, place: usize) {
        self.writers.add(place, 1);
    }

    /// The number of threads that have begun to write to gateways of this place.
    pub fn writers(&self, place: usize) -> u64 {
        self.writers.at(place)
    }

    /// Begins the place of this index anew, for a gateway that comes: all that was asked there before is answered.
    pub fn begin(&self, place: usize) {
        for row in [
            &self.asked,
            &self.done,
            &self.put,
            &self.written,
            &self.opened,
            &self.gone,
        ] {
            row.set(place, 0);
        }
    }

    /// Counts a request of this place's gateway that goes to a worker.
    pub fn asked(&self, place: usize) {
        self.asked.add(place, 1);
    }

    /// Counts a request of this place's gateway with which a worker is done.
    pub fn done(&self, place: usize) {
        self.done.add(place, 1);
    }

    /// Counts an answer that goes into the lane to the writer of this place.
    pub fn put(&self, place: usize) {
        self.put.add(place, 1);
    }

    /// The number of answers that were put into the lane to the writer of this place, since its gateway came.
    pub fn puts(&self, place: usize) -> u64 {
        self.put.at(place)
    }

    /// Counts so many answers that went out whole to this place's gateway, and returns how many that are since it came.
    pub fn wrote(&self, place: usize, count: u64) -> u64 {
        self.written.add(place, count);
        self.written.at(place)
    }

    /// Keeps that this place's gateway has exchanged capabilities.
    pub fn opened(&self, place: usize) {
        self.opened.set(place, 1);
    }

    /// Whether this place's gateway has exchanged capabilities.
    pub fn is_open(&self, place: usize) -> bool {
        self.opened.at(place) > 0
    }

    /// Keeps that nothing more reaches this place's gateway.
    pub fn gone(&self, place: usize) {
        self.gone.set(place, 1);
    }

    /// Whether this place's gateway is owed fewer answers than so many: those of requests that workers have, and those that were put into the lane to its
    /// writer and have not gone out. Also true if nothing more reaches the gateway. If threads count meanwhile, it may see too many answers, and never too few.
    pub fn has_room(&self, place: usize, window: u64) -> bool {
        let (done, written) = (self.done.at(place), self.written.at(place));
        let (asked, put) = (self.asked.at(place), self.put.at(place));
        let owed = asked
            .saturating_sub(done)
            .saturating_add(put.saturating_sub(written));
        owed < window || self.gone.at(place) > 0
    }

    /// Counts a message of a gateway.
    pub fn read(&self, message: &[u8]) {
        self.requests.add(kind_of(message).index(), 1);
    }

    /// Counts an answer that no worker gave.
    pub fn replied(&self, octets: &[u8]) {
        self.replies.add(index_of_result(result_of(octets)), 1);
    }

    /// Counts the answer of a shard's worker, so many microseconds after its request was read.
    pub fn answered(&self, shard: usize, octets: &[u8], micros: u64) {
        let code = result_of(octets);
        if let Some(meters) = self.shards.get(shard) {
            meters.answer(index_of_result(code), micros);
            if code == Some(TOO_BUSY) {
                meters.add(Count::Busy, 1);
            }
        }
    }

    /// Counts a batch that a shard's worker took: so many items together.
    pub fn took(&self, shard: usize, items: usize) {
        if let Some(meters) = self.shards.get(shard) {
            meters.add(Count::Batches, 1);
            meters.set(Count::Items, items as u64);
        }
    }

    /// Counts an audit of a shard's receipts: it compared so many receipts with the books, and took so many microseconds.
    pub fn audited(&self, shard: usize, receipts: usize, micros: u64) {
        if let Some(meters) = self.shards.get(shard) {
            meters.add(Count::Audits, 1);
            meters.add(Count::AuditedReceipts, receipts as u64);
            meters.add(Count::AuditMicros, micros);
        }
    }

    /// Counts an audit whose receipts disagree with the books.
    pub fn disagreed(&self) {
        self.disagreements.fetch_add(1, Ordering::SeqCst);
    }

    /// The number of audits whose receipts disagreed with the books.
    pub fn disagreements(&self) -> u64 {
        self.disagreements.load(Ordering::SeqCst)
    }

    /// Counts a sweep that a shard was asked for.
    pub fn swept(&self, shard: usize) {
        self.count(shard, Count::Sweeps, 1);
    }

    /// Counts an act that a shard made, at this place among its subscriber's acts, counted from 1.
    pub fn act(&self, shard: usize, place: u64) {
        self.count(shard, Count::Acts, 1);
        if place == 1 {
            self.count(shard, Count::Subscribers, 1);
        }
    }

    /// The acts of a shard, those at its opening and those since, if they have grown since the last call that returned them, and if either the call is due or the
    /// shard was audited since then; else none. Calls for one shard come one after another.
    pub fn acts_to_keep(&self, shard: usize, is_due: bool) -> Option<u64> {
        let meters = self.shards.get(shard)?;
        // The audits first, so that the number has the acts of each audit that is seen here.
        let audits = meters.at(Count::Audits);
        let acts = meters.at(Count::Acts);
        let is_audited = audits != meters.at(Count::AuditsSeen);
        if acts == meters.at(Count::ActsSeen) || !(is_due || is_audited) {
            return None;
        }
        meters.set(Count::AuditsSeen, audits);
        meters.set(Count::ActsSeen, acts);
        Some(acts)
    }

    /// Counts a call that repeated an act of a shard.
    pub fn repeat(&self, shard: usize) {
        self.count(shard, Count::Repeats, 1);
    }

    /// Counts sessions of a shard that a sweep ended.
    pub fn ended(&self, shard: usize, sessions: u64) {
        self.count(shard, Count::Ended, sessions);
    }

    /// Counts so many more of a shard.
    fn count(&self, shard: usize, count: Count, more: u64) {
        if let Some(meters) = self.shards.get(shard) {
            meters.add(count, more);
        }
    }

    /// The page of the counters, each as it was at some moment of the call. The only error is want of memory. It may wait.
    pub fn page<W: Wait>(&self, rt: &W, alloc: Global) -> Result<Vec<u8>, AllocError>
        ensures { IfOk result (λ page. IsPage self.now page.items) }
    {
        let mut page = Vec::new(alloc);
        self.put_server(alloc, &mut page)?;
        self.put_hosts(rt, alloc, &mut page)?;
        self.put_acts(alloc, &mut page)?;
        self.put_work(alloc, &mut page)?;
        self.put_audits(alloc, &mut page)?;
        self.put_times(alloc, &mut page)?;
        Ok(page)
    }

    /// Appends the families of the server and of its messages.
    fn put_server(&self, alloc: Global, page: &mut Vec<u8>) -> Result<(), AllocError>
        ensures { OnOk result (AddsServer page.old.items page.new.items) }
    {
        // Who has gone is read first, so that no gateway seems to have gone before it came.
        let went = self.went.load(Ordering::SeqCst);
        let came = self.came.load(Ordering::SeqCst);
        let requests = self.requests.read(alloc, KINDS.len())?;
        let answers = answers_of(alloc, &self.replies, self.shards.as_slice())?;
        let counts = ServerCounts {
            gateways: came.saturating_sub(went),
            came,
            requests,
            answers,
        };
        put_server(alloc, page, &counts)
    }

    /// Appends the family of hosts.
    fn put_hosts<W: Wait>(
        &self,
        rt: &W,
        alloc: Global,
        page: &mut Vec<u8>,
    ) -> Result<(), AllocError>
        ensures { OnOk result (AddsHosts page.old.items page.new.items) }
    {
        let hosts = self.hosts.lock(rt);
        hosts.put(alloc, page)
    }

    /// Appends the families of acts.
    fn put_acts(&self, alloc: Global, page: &mut Vec<u8>) -> Result<(), AllocError>
        ensures { OnOk result (AddsActs self.now page.old.items page.new.items) }
    {
        let shards = self.shards.as_slice();
        let acts = column(alloc, shards, Count::Acts)?;
        let repeats = column(alloc, shards, Count::Repeats)?;
        let busy = column(alloc, shards, Count::Busy)?;
        let subscribers = column(alloc, shards, Count::Subscribers)?;
        let counts = ActCounts {
            acts,
            repeats,
            busy,
            subscribers,
        };
        put_acts(alloc, page, &counts)
    }

    /// Appends the families of the work of shards.
    fn put_work(&self, alloc: Global, page: &mut Vec<u8>) -> Result<(), AllocError>
        ensures { OnOk result (AddsWork self.now page.old.items page.new.items) }
    {
        let shards = self.shards.as_slice();
        let sweeps = column(alloc, shards, Count::Sweeps)?;
        let ended = column(alloc, shards, Count::Ended)?;
        let batches = column(alloc, shards, Count::Batches)?;
        let items = column(alloc, shards, Count::Items)?;
        let counts = WorkCounts {
            sweeps,
            ended,
            batches,
            items,
        };
        put_work(alloc, page, &counts)
    }

    /// Appends the families of audits.
    fn put_audits(&self, alloc: Global, page: &mut Vec<u8>) -> Result<(), AllocError>
        ensures { OnOk result (AddsAudits self.now page.old.items page.new.items) }
    {
        let shards = self.shards.as_slice();
        let audits = column(alloc, shards, Count::Audits)?;
        let receipts = column(alloc, shards, Count::AuditedReceipts)?;
        let counts = AuditCounts {
            audits,
            receipts,
            micros: sum_of(shards, Count::AuditMicros),
        };
        put_audits(alloc, page, &counts)
    }

    /// Appends the histogram of times.
    fn put_times(&self, alloc: Global, page: &mut Vec<u8>) -> Result<(), AllocError>
        ensures { OnOk result (AddsTimes page.old.items page.new.items) }
    {
        let shards = self.shards.as_slice();
        let counts = TimeCounts {
            buckets: buckets_of(alloc, shards)?,
            micros: sum_of(shards, Count::Micros),
        };
        put_times(alloc, page, &counts)
    }
}
