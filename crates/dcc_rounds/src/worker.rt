//! The worker of a shard.

ghost use Rattle.std.specs.Prelude.{◌≡◌, ◌<◌, ◌≤◌, ◌+◌, ◌∷◌, [], Some, count_by, drop, if◌then◌else◌, length, MatchOption, take};
ghost use Rattle.dcc_lane.specs.Ends.{IsSameReceiver, TakesOne, senders_of, taken_of};
ghost use Rattle.dcc_rounds.specs.Handing.{one_more};
ghost use Rattle.dcc_rounds.specs.Lanes.{all_put, lanes_of};
ghost use Rattle.dcc_rounds.specs.Working.{Answers, AreListed, CountsFor, DoesItem, ExpiresEach, Goes, HasDone, IsCounted, KeepsCalls, doing_of, is_over, left_of, octets_in};
ghost use Rattle.dcc_rounds.specs.inner.Auditing.{AsksOnce, AuditsIfDue};
ghost use Rattle.dcc_rounds.specs.inner.Batches.{AnswersTaken};

use crate::batch::{BATCH, answer_batch, gather, leave_answer};
use crate::counter::CallCounter;
use crate::events::Events;
use crate::face::Notices;
use crate::lanes::{leave_in, ring_all};
use crate::rest::Rest;
use crate::work::{Request, Work};
use dcc_act::{Moment, Sub};
use dcc_connect::Item;
use dcc_lane::{Receiver, Sender};
use dcc_octets::OctetString;
use dcc_running::{Naming, Seat, Shards};
use dcc_shard::RequestAnswer;
use dcc_store::Records;
use std::alloc::Global;
use std::sync::Wait;

/// A worker that took so many items without a wait has more to do than it can: from then on it wakes writers once for so many items, in which
/// their threads don't take the processor from it.
const BUSY: u32 = 32;

/// The most subscribers that are asked of a sweep before the lane is looked at again.
const PIECE: usize = 64;

/// The most receipts that a worker keeps before it audits them.
const STRETCH: usize = 65_536;

/// A worker's ends of lanes, and its seat.
#[derive(Drop)]
pub(crate) struct Worker {
    /// The index of its shard.
    pub shard: usize,
    pub seat: Seat,
    /// Counts the calls of its sweeps and audits, from none on in each run.
    pub counter: CallCounter,
    pub from: Receiver<Work>,
    /// One for each place's writer, by its index.
    pub writers: Vec<Sender<Item>>,
}

/// When the next audit of a worker's receipts is due.
#[derive(Clone, Copy)]
struct Due {
    /// It keeps so many receipts.
    receipts: usize,
    /// Or an audit was asked for, alone or with a sweep, once more than so often.
    asked: u64,
}

impl Worker {
    /// Does what its lane asks for, and goes on with its sweep in between, until none of its senders puts anything more and no subscriber is left
    /// to be asked. Each time that it keeps [`STRETCH`] receipts, when it is asked to, and behind each sweep's list, it audits them.
    pub fn run<W: Wait, R: Records, J: Naming, N: Notices>(
        &mut self,
        rt: &W,
        alloc: Global,
        shards: &Shards<R, J>,
        notices: &N,
    )
        requires { self.old.shard < shards.now.count }
        ensures { HasDone J.opening self.old self.new (senders_of self.old.from) }
    {
        self.counter = CallCounter::new(self.shard);
        let shard = self.shard;
        let events = Events { notices, shard };
        let mut counted = self.seat.receipts().len();
        let mut due = Due {
            receipts: STRETCH,
            asked: self.counter.asked(),
        };
        let mut rest = Rest::new(alloc);
        let mut batch = Vec::new(alloc);
        let senders = self.from.senders();
        let mut ended = 0usize;
        let mut since = 0u32;
        for _ in rt.forever() {
            wake(self.writers.as_slice(), since);
            if ended < senders {
                if self.take_some(
                    rt, alloc, shards, &events, &mut rest, &mut batch, &mut since,
                ) {
                    ended += 1;
                }
            } else if rest.count() == 0 {
                // By a call: requests that are let go in place are proved part by part.
                drop(batch);
                return;
            }
            self.ask_piece(rt, alloc, shards, &mut rest);
            counted = self.tell_receipts(rt, alloc, shards, &events, &rest, &mut due, counted);
        }
        unreachable!()
    }

    /// Counts the receipts of its seat behind the first `counted`, and audits all of them if that is due. It reports how the audit ended, and returns how
    /// many receipts it keeps. If memory was short, or receipts and books disagree, the receipts that were not compared stay, and are compared again at
    /// the next audit.
    fn tell_receipts<W: Wait, R: Records, J: Naming, N: Notices>(
        &mut self,
        rt: &W,
        alloc: Global,
        shards: &Shards<R, J>,
        events: &Events<'_, N>,
        rest: &Rest,
        due: &mut Due,
        counted: usize,
    ) -> usize
        requires { IsCounted self.old.counter rest.now }
        ensures goes { Goes J.opening self.old self.new rest.now rest.now 0 }
        ensures counted { IsCounted self.new.counter rest.now }
        ensures audited { AuditsIfDue due.old (length self.old.seat) self.old.counter self.new.counter }
        ensures due { due.new.asked ≡ self.new.counter.asked }
    {
        let counted = events.told(&self.seat, counted);
        let asked = self.counter.asked();
        if counted < due.receipts && asked == due.asked {
            return counted;
        }
        let begun = events.notices.ticks();
        let audited = self.counter.audit(rt, alloc, shards, &mut self.seat);
        events.audited(rt, audited, begun);
        let kept = self.seat.receipts().len();
        *due = Due {
            receipts: kept.saturating_add(STRETCH),
            asked,
        };
        kept
    }

    /// Takes requests and answers them, and then does the item behind them, if it took one. If a subscriber is left to be asked, it waits for no item.
    /// It returns whether it took an item whose sender puts nothing more.
    fn take_some<W: Wait, R: Records, J: Naming, N: Notices>(
        &mut self,
        rt: &W,
        alloc: Global,
        shards: &Shards<R, J>,
        events: &Events<'_, N>,
        rest: &mut Rest,
        batch: &mut Vec<Request>,
        since: &mut u32,
    ) -> bool
        requires shard { self.old.shard < shards.now.count }
        requires counted { IsCounted self.old.counter rest.old }
        requires empty { batch.old.items ≡ [] }
        ensures goes { Goes J.opening self.old self.new rest.old rest.new (if result then 1 else 0) }
        ensures counted { IsCounted self.new.counter rest.new }
        ensures asked { AsksOnce self.old.counter self.new.counter }
        ensures empty { batch.new.items ≡ [] }
    {
        let waits = rest.count() == 0;
        match self.take_requests(rt, alloc, shards, events, batch, since, waits) {
            Some(work) => self.do_one(rt, alloc, shards, events, rest, work),
            None => false,
        }
    }

    /// Takes the requests that its lane has without a wait, up to [`BATCH`] of different subscribers, and answers them together. If no item is there, it
    /// takes none, or waits for one if `waits` is set. It returns the item behind these requests, if it took one: this item isn't done yet. Behind several
    /// requests, and before such an item, it wakes all that sleep.
    fn take_requests<W: Wait, R: Records, J: Naming, N: Notices>(
        &mut self,
        rt: &W,
        alloc: Global,
        shards: &Shards<R, J>,
        events: &Events<'_, N>,
        batch: &mut Vec<Request>,
        since: &mut u32,
        waits: bool,
    ) -> Option<Work>
        requires { batch.old.items ≡ [] }
        ensures taken { AnswersTaken self.old self.new result }
        ensures empty { batch.new.items ≡ [] }
    {
        let work = next(rt, &mut self.from, self.writers.as_slice(), since, waits)?;
        let request = match work {
            Work::Request(request) => request,
            other => return Some(other),
        };
        let Ok(()) = batch.reserve(BATCH) else {
            let (seat, writers) = (&mut self.seat, &mut self.writers);
            answer(rt, alloc, shards, events, seat, writers, request);
            return None;
        };
        batch.push_reserved(request);
        let behind = gather(rt, &mut self.from, shards, batch, since);
        events.took(batch.len());
        let is_long = batch.len() > 1 || behind.is_some();
        let (seat, writers) = (&mut self.seat, &mut self.writers);
        answer_batch(rt, alloc, shards, events, seat, writers, batch);
        if is_long {
            self.from.ring();
            ring_all(self.writers.as_slice());
        }
        behind
    }

    /// Does an item that it took. It returns whether the item's sender puts nothing more.
    fn do_one<W: Wait, R: Records, J: Naming, N: Notices>(
        &mut self,
        rt: &W,
        alloc: Global,
        shards: &Shards<R, J>,
        events: &Events<'_, N>,
        rest: &mut Rest,
        work: Work,
    ) -> bool
        requires shard { self.old.shard < shards.now.count }
        requires counted { IsCounted self.old.counter rest.old }
        ensures does { DoesItem (doing_of self.old rest.old) work (doing_of self.new rest.new) }
        ensures calls { CountsFor self.old.shard self.old.counter (Some work) self.new.counter }
        ensures counted { IsCounted self.new.counter rest.new }
        ensures over { count_by is_over (work ∷ []) ≡ (if result then 1 else 0) }
        ensures from { self.new.from ≡ self.old.from }
        ensures lanes { lanes_of self.new.writers.items ≡ lanes_of self.old.writers.items }
        ensures shard { self.new.shard ≡ self.old.shard }
    {
        match work {
            Work::Request(request) => {
                let (seat, writers) = (&mut self.seat, &mut self.writers);
                answer(rt, alloc, shards, events, seat, writers, request);
                false
            }
            Work::Sweep(moment) => {
                events.swept();
                let (seat, counter) = (&mut self.seat, &mut self.counter);
                sweep(rt, alloc, shards, self.shard, seat, counter, rest, moment);
                false
            }
            Work::Audit => {
                self.counter.ask_audit();
                false
            }
            Work::End(gate) => {
                leave_in(rt, &mut self.writers, gate, Item::End);
                ring_all(self.writers.as_slice());
                false
            }
            Work::Over => true,
        }
    }

    /// Asks the next piece of its sweep, if a subscriber is left. Before a piece it wakes all threads that sleep, since a piece takes long.
    fn ask_piece<W: Wait, R: Records, J: Naming>(
        &mut self,
        rt: &W,
        alloc: Global,
        shards: &Shards<R, J>,
        rest: &mut Rest,
    )
        requires { IsCounted self.old.counter rest.old }
        ensures goes { Goes J.opening self.old self.new rest.old rest.new 0 }
        ensures counted { IsCounted self.new.counter rest.new }
        ensures calls { KeepsCalls self.old.counter self.new.counter }
    {
        let count = rest.count().min(PIECE);
        if count == 0 {
            return;
        }
        self.from.ring();
        ring_all(self.writers.as_slice());
        ask_next(
            rt,
            alloc,
            shards,
            &mut self.seat,
            &mut self.counter,
            rest,
            count,
        );
    }
}

/// Takes the next item, and counts the items that were there without a wait. If no item is there, it returns none, or waits if `waits` is set.
/// Before it waits, it wakes the writers that were let sleep. Before an item that is no request, it wakes all that sleep, since a sweep takes
/// long, and an end may have to wait for room.
fn next<W: Wait>(
    rt: &W,
    from: &mut Receiver<Work>,
    writers: &[Sender<Item>],
    since: &mut u32,
    waits: bool,
) -> Option<Work>
    ensures same { IsSameReceiver from.old from.new }
    ensures taken { MatchOption result (taken_of from.new ≡ taken_of from.old) (λ work. TakesOne from.old work from.new) }
{
    let work = more_or_wait(rt, from, writers, since, waits)?;
    if !matches!(work, Work::Request(_)) {
        from.ring();
        ring_all(writers);
    }
    Some(work)
}

/// Takes the next item, and counts the items that were there without a wait. If no item is there, it returns none, or waits if `waits` is set.
/// Before it waits, it wakes the writers that were let sleep.
fn more_or_wait<W: Wait>(
    rt: &W,
    from: &mut Receiver<Work>,
    writers: &[Sender<Item>],
    since: &mut u32,
    waits: bool,
) -> Option<Work>
    ensures same { IsSameReceiver from.old from.new }
    ensures taken { MatchOption result (taken_of from.new ≡ taken_of from.old) (λ work. TakesOne from.old work from.new) }
{
    if let Some(work) = more(rt, from, since) {
        return Some(work);
    }
    *since = 0;
    if !waits {
        return None;
    }
    ring_all(writers);
    Some(from.take(rt))
}

/// Takes an item that is there without a wait, and counts it.
pub(crate) fn more<W: Wait>(rt: &W, from: &mut Receiver<Work>, since: &mut u32) -> Option<Work>
    ensures same { IsSameReceiver from.old from.new }
    ensures taken { MatchOption result (taken_of from.new ≡ taken_of from.old) (λ work. TakesOne from.old work from.new) }
{
    let work = from.try_take(rt)?;
    *since = since.wrapping_add(1);
    Some(work)
}

/// Wakes the writers for which answers were left, by how many items were there without a wait.
fn wake(writers: &[Sender<Item>], since: u32) {
    if since < BUSY || since % BUSY == 0 {
        ring_all(writers);
    }
}

/// Makes a request and puts its answer into its gateway's lane, whose writer isn't woken yet. If there is no answer, it puts nothing.
pub(crate) fn answer<W: Wait, R: Records, J: Naming, N: Notices>(
    rt: &W,
    alloc: Global,
    shards: &Shards<R, J>,
    events: &Events<'_, N>,
    seat: &mut Seat,
    writers: &mut Vec<Sender<Item>>,
    request: Request,
)
    ensures answered { Answers request seat.old (all_put writers.old.items) seat.new (all_put writers.new.items) }
    ensures lanes { lanes_of writers.new.items ≡ lanes_of writers.old.items }
{
    let Request { gate, job, ticks } = request;
    let answer = shards.submit(rt, alloc, seat, job);
    events.answered(&answer, ticks);
    leave_answer(rt, events.notices, writers, gate, answer);
}

/// Asks all subscribers that an earlier sweep has left, and then lists the subscribers of the shard. If memory is short for the list, no
/// subscriber is left to be asked.
fn sweep<W: Wait, R: Records, J: Naming>(
    rt: &W,
    alloc: Global,
    shards: &Shards<R, J>,
    shard: usize,
    seat: &mut Seat,
    counter: &mut CallCounter,
    rest: &mut Rest,
    moment: Moment,
)
    requires shard { shard < shards.now.count }
    requires counted { IsCounted counter.old rest.old }
    ensures asked { ExpiresEach rest.old.moment (left_of rest.old) seat.old seat.new }
    ensures listed { AreListed (left_of rest.new) }
    ensures moment { rest.new.moment ≡ moment }
    ensures calls { (counter.new.lists ≡ one_more counter.old.lists) × (counter.new.shard ≡ shard) × (counter.new.asked ≡ one_more counter.old.asked)
        × (counter.new.audits ≡ counter.old.audits) }
    ensures counted { IsCounted counter.new rest.new }
{
    let left = rest.count();
    ask_next(rt, alloc, shards, seat, counter, rest, left);
    let subs = match counter.list(rt, alloc, shards, shard) {
        Some(subs) => subs,
        None => Vec::new(alloc),
    };
    *rest = Rest {
        moment,
        subs,
        asked: 0,
    };
}

/// Asks the expiries of the next `count` subscribers of a sweep. The condition: so many are left.
fn ask_next<W: Wait, R: Records, J: Naming>(
    rt: &W,
    alloc: Global,
    shards: &Shards<R, J>,
    seat: &mut Seat,
    counter: &mut CallCounter,
    rest: &mut Rest,
    count: usize,
)
    requires few { rest.old.asked + count ≤ length rest.old.subs.items }
    requires counted { IsCounted counter.old rest.old }
    ensures expired { ExpiresEach rest.old.moment (take count (left_of rest.old)) seat.old seat.new }
    ensures left { left_of rest.new ≡ drop count (left_of rest.old) }
    ensures fewer { counter.new.left + count ≡ counter.old.left }
    ensures moment { rest.new.moment ≡ rest.old.moment }
    ensures calls { KeepsCalls counter.old counter.new × (counter.new.shard ≡ counter.old.shard) }
    ensures counted { IsCounted counter.new rest.new }
{
    let end = rest.asked + count;
    expire_pieces(
        rt,
        alloc,
        shards,
        seat,
        counter,
        &rest.subs[rest.asked..end],
        rest.moment,
    );
    rest.pass(alloc, count);
}

/// Ends the due sessions of each of these subscribers, in order, in pieces of at most [`PIECE`].
fn expire_pieces<W: Wait, R: Records, J: Naming>(
    rt: &W,
    alloc: Global,
    shards: &Shards<R, J>,
    seat: &mut Seat,
    counter: &mut CallCounter,
    subs: &[Sub],
    moment: Moment,
)
    requires { length subs.now ≤ counter.old.left }
    ensures expired { ExpiresEach moment subs.now seat.old seat.new }
    ensures asked { counter.new.left + length subs.now ≡ counter.old.left }
    ensures calls { KeepsCalls counter.old counter.new × (counter.new.shard ≡ counter.old.shard) }
{
    let mut left = subs;
    while !left.is_empty() {
        let (piece, others) = left.split_at(left.len().min(PIECE));
        expire_piece(rt, alloc, shards, seat, counter, piece, moment);
        left = others;
    }
}

/// Ends the due sessions of each of these subscribers, in order: together, if they may be asked together.
fn expire_piece<W: Wait, R: Records, J: Naming>(
    rt: &W,
    alloc: Global,
    shards: &Shards<R, J>,
    seat: &mut Seat,
    counter: &mut CallCounter,
    subs: &[Sub],
    moment: Moment,
)
    requires { length subs.now ≤ counter.old.left }
    ensures expired { ExpiresEach moment subs.now seat.old seat.new }
    ensures asked { counter.new.left + length subs.now ≡ counter.old.left }
    ensures calls { KeepsCalls counter.old counter.new × (counter.new.shard ≡ counter.old.shard) }
{
    if shards.is_one_batch(subs) {
        counter.ask_all(rt, alloc, shards, seat, subs, moment);
    } else {
        expire_each(rt, alloc, shards, seat, counter, subs, moment);
    }
}

/// Ends the due sessions of each of these subscribers, one after another. A refused expiry leaves the other expiries.
fn expire_each<W: Wait, R: Records, J: Naming>(
    rt: &W,
    alloc: Global,
    shards: &Shards<R, J>,
    seat: &mut Seat,
    counter: &mut CallCounter,
    subs: &[Sub],
    moment: Moment,
)
    requires { length subs.now ≤ counter.old.left }
    ensures expired { ExpiresEach moment subs.now seat.old seat.new }
    ensures asked { counter.new.left + length subs.now ≡ counter.old.left }
    ensures calls { KeepsCalls counter.old counter.new × (counter.new.shard ≡ counter.old.shard) }
{
    for sub in subs {
        let _answer = counter.ask(rt, alloc, shards, seat, *sub, moment);
    }
}

/// The octets of an answer, if it has any.
pub(crate) fn octets_of(answer: RequestAnswer) -> Option<OctetString>
    ensures { result ≡ octets_in answer }
{
    match answer {
        RequestAnswer::Done {
            octets,
            place: _,
            fresh: _,
        } => Some(octets),
        RequestAnswer::Unknown { octets } => Some(octets),
        RequestAnswer::Busy { octets } => Some(octets),
        RequestAnswer::Silent => None,
    }
}
