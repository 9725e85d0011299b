//! The calls of many threads: each takes one lock, and adds its receipt to its caller's seat before it lets go of it.

ghost use Rattle.std.specs.Prelude.{◌≡◌, ◌≤◌, ◌<◌, ◌+◌, ◌++◌, [], true, false, is_some, length, vec_len, vec_capacity, IfOk, OnOk};
ghost use Rattle.dcc_answer.specs.declared.answer.TheConstants.{MAX_ANSWER};
ghost use Rattle.dcc_model.specs.Keys.{request_key};
ghost use Rattle.dcc_shard.specs.Answers.{IsAnswer, IsExpired, IsTold, IsToldApart, IsRefusedBy, expiry_act, is_judged, is_judged_expiry, is_judged_top_up, octets_of, session_of_act, top_up_act};
ghost use Rattle.dcc_shard.specs.Shards.{IsStep};
ghost use Rattle.dcc_act.specs.declared.sub.Sub.{Sub};
ghost use Rattle.dcc_running.specs.inner.Touches.{is_touched};
ghost use Rattle.dcc_running.specs.Calls.{IsAnswerTo, IsToldOf, IsEndOf, receipt, receipts_of, top_up_receipts, told_receipts, expiry_receipts, plain_receipt};

use crate::job::Job;
use crate::naming::Naming;
use crate::room::{Spare, add_spares, twice};
use crate::seat::{Filling, Seat};
use crate::shards::Shards;
use crate::ward::Ward;
use dcc_act::{Act, Kind, Moment, Sub, TopUp, same_subscribers_are_equal};
use dcc_answer::{Proxies, write_busy};
use dcc_credit::lend_session;
use dcc_message::{Header, Identity};
use dcc_model::request_key;
use dcc_octets::OctetString;
use dcc_receipts::{Receipt, Told};
use dcc_shard::{ExpiryAnswer, RequestAnswer, TopUpAnswer};
use dcc_store::Records;
use std::alloc::{AllocError, Global};
use std::sync::Wait;

/// The header of what is no request.
const NO_HEADER: Header = Header {
    length: 0,
    flags: 0,
    code: 0,
    app: 0,
    hop: 0,
    end_to_end: 0,
};

impl<R: Records, J: Naming> Shards<R, J> {
    /// Makes a request's act in its subscriber's shard, and answers it as that does, under the job's own header and with its own proxies.
    /// It waits for the shard's lock. The room for the receipt is taken first; where that is refused, the answer is busy, or none.
    pub fn submit<W: Wait>(&self, rt: &W, alloc: Global, seat: &mut Seat, job: Job) -> RequestAnswer
        requires { is_some (request_key job.act.kind) ≡ true }
        ensures answer { IsAnswerTo job result }
        ensures apart { IsToldApart result }
        ensures receipt { seat.new ≡ seat.old ++ receipts_of job result }
    {
        let (receipts, spares) = (&mut seat.receipts, &mut seat.spares);
        let Ok(act) = room_for(alloc, receipts, spares, &mut seat.touched, &job.act) else {
            let answer = busy(alloc, &self.identity, &job);
            // By a call: a job that is let go in place is proved part by part.
            drop(job);
            return answer;
        };
        let mut shard = self.lock_of(rt, &job.sub);
        let before = seat.filling();
        let (receipts, spares) = (&mut seat.receipts, &mut seat.spares);
        let touched = &mut seat.touched;
        let answer = make(alloc, &mut shard, receipts, spares, touched, job, act);
        self.ease_behind(&mut shard, seat, before);
        answer
    }
}

impl<R: Records, J: Naming> Shards<R, J> {
    /// Puts money into a subscriber's account, in minor units, as its shard does. It waits for the shard's lock. The room for the receipt
    /// is taken first; where that is refused, so is the top-up.
    pub fn top_up<W: Wait>(
        &self,
        rt: &W,
        alloc: Global,
        seat: &mut Seat,
        sub: Sub,
        moment: Moment,
        ticket: u64,
        amount: u64,
    ) -> TopUpAnswer
        ensures answer { IsToldOf sub moment ticket amount result }
        ensures receipt { seat.new ≡ seat.old ++ top_up_receipts sub moment ticket amount result }
    {
        let top_up = match TopUp::new(ticket, amount) {
            Some(top_up) => top_up,
            None => return TopUpAnswer::BadAmount,
        };
        let (receipts, touched) = (&mut seat.receipts, &mut seat.touched);
        let Ok(()) = room_for_one(receipts, touched) else {
            return TopUpAnswer::Refused;
        };
        let mut shard = self.lock_of(rt, &sub);
        let before = seat.filling();
        let (receipts, touched) = (&mut seat.receipts, &mut seat.touched);
        let answer = add(alloc, &mut shard, receipts, touched, sub, moment, top_up);
        self.ease_behind(&mut shard, seat, before);
        answer
    }

    /// Ends the subscriber's sessions that are held until this moment or an earlier one, as its shard does. It waits for the shard's
    /// lock. The room for the receipt is taken first; where that is refused, so is the expiry.
    pub fn expire<W: Wait>(
        &self,
        rt: &W,
        alloc: Global,
        seat: &mut Seat,
        sub: Sub,
        moment: Moment,
    ) -> ExpiryAnswer
        ensures answer { IsEndOf sub moment result }
        ensures receipt { seat.new ≡ seat.old ++ expiry_receipts sub moment result }
    {
        let (receipts, touched) = (&mut seat.receipts, &mut seat.touched);
        let Ok(()) = room_for_one(receipts, touched) else {
            return ExpiryAnswer::Refused;
        };
        let mut shard = self.lock_of(rt, &sub);
        let before = seat.filling();
        let (receipts, touched) = (&mut seat.receipts, &mut seat.touched);
        let answer = end(alloc, &mut shard, receipts, touched, sub, moment);
        self.ease_behind(&mut shard, seat, before);
        answer
    }
}

impl<R: Records, J: Naming> Shards<R, J> {
    /// As [`Shards::ease`], of the calls and the receipts that came to the seat since it was filled so.
    pub(crate) fn ease_behind(&self, shard: &mut Ward<R, J>, seat: &mut Seat, before: Filling)
        ensures shard { (shard.new.shard ≡ shard.old.shard) × (shard.new.records ≡ shard.old.records) }
        ensures receipts { seat.new ≡ seat.old }
    {
        let receipts = seat.receipts.get(before.receipts..).unwrap_or(&[]);
        self.ease(shard, &mut seat.touched, receipts, before.touched);
    }

    /// Takes the calls at the seat back, behind its first `before` calls, that were counted in this shard and gave no receipt. The calls that gave one are
    /// those of these receipts, in order. A call stays that is the last of its subscriber, if an act of the subscriber has no audited receipt: the next audit
    /// reports this.
    fn ease(
        &self,
        shard: &mut Ward<R, J>,
        touched: &mut Vec<Sub>,
        receipts: &[Receipt],
        before: usize,
    )
        ensures shard { (shard.new.shard ≡ shard.old.shard) × (shard.new.records ≡ shard.old.records) }
    {
        let mut left = receipts.len();
        let mut at = touched.len();
        while at > before {
            at -= 1;
            let sub = touched[at];
            if left > 0 && receipts[left - 1].sub == sub {
                left -= 1;
            } else if shard.settle(self.number_at_opening(&sub), sub) {
                let _sub = touched.swap_remove(at);
            }
        }
    }
}

/// Makes a request's act in this shard, answers it, and adds the receipt of the answer, where it gives one. The conditions: the act is the job's, and
/// there is room for the receipt, and a spare room.
fn make<R: Records, J: Naming>(
    alloc: Global,
    shard: &mut Ward<R, J>,
    receipts: &mut Vec<Receipt>,
    spares: &mut Vec<Spare>,
    touched: &mut Vec<Sub>,
    job: Job,
    act: Act,
) -> RequestAnswer
    requires request { is_some (request_key job.act.kind) ≡ true }
    requires act { act ≡ job.act }
    requires room { vec_len receipts.old + 1 ≤ vec_capacity receipts.old }
    requires spare { 0 < length spares.old.items }
    requires touched { vec_len touched.old + 1 ≤ vec_capacity touched.old }
    ensures answer { IsAnswer shard.old.shard job.sub job.act job.header job.proxies result }
    ensures step { IsStep shard.old.shard shard.new.shard (is_judged result) job.sub job.act }
    ensures apart { IsToldApart result }
    ensures receipt { receipts.new.items ≡ receipts.old.items ++ receipts_of job result }
{
    let Ok(()) = touch(shard, touched, job.sub) else {
        // By a call, here and below: what is let go in place is proved part by part.
        drop(act);
        let answer = busy(alloc, shard.shard().identity(), &job);
        drop(job);
        return answer;
    };
    let answer = shard.step(alloc, job.sub, act, &job.header, &job.proxies);
    keep(receipts, spares, job, answer)
}

/// Puts money into a subscriber's account in this shard, and adds the receipt, where there is one. The condition: there is room for it.
fn add<R: Records, J: Naming>(
    alloc: Global,
    shard: &mut Ward<R, J>,
    receipts: &mut Vec<Receipt>,
    touched: &mut Vec<Sub>,
    sub: Sub,
    moment: Moment,
    top_up: TopUp,
) -> TopUpAnswer
    requires room { vec_len receipts.old + 1 ≤ vec_capacity receipts.old }
    requires touched { vec_len touched.old + 1 ≤ vec_capacity touched.old }
    ensures answer { IsTold shard.old.shard sub moment top_up.ticket top_up.amount result }
    ensures step { IsStep shard.old.shard shard.new.shard (is_judged_top_up result) sub (top_up_act moment top_up.ticket top_up.amount) }
    ensures receipt { receipts.new.items ≡ receipts.old.items ++ top_up_receipts sub moment top_up.ticket top_up.amount result }
{
    let (ticket, amount) = (top_up.ticket, top_up.amount);
    let Ok(()) = touch(shard, touched, sub) else {
        return TopUpAnswer::Refused;
    };
    let answer = shard.top_up(alloc, sub, moment, ticket, amount);
    let kind = Kind::TopUp(top_up);
    keep_top_up(alloc, receipts, sub, Act { moment, kind }, answer);
    answer
}

/// Ends what is due of a subscriber in this shard, and adds the receipt, where there is one. The condition: there is room for it.
fn end<R: Records, J: Naming>(
    alloc: Global,
    shard: &mut Ward<R, J>,
    receipts: &mut Vec<Receipt>,
    touched: &mut Vec<Sub>,
    sub: Sub,
    moment: Moment,
) -> ExpiryAnswer
    requires room { vec_len receipts.old + 1 ≤ vec_capacity receipts.old }
    requires touched { vec_len touched.old + 1 ≤ vec_capacity touched.old }
    ensures answer { IsExpired shard.old.shard sub moment result }
    ensures step { IsStep shard.old.shard shard.new.shard (is_judged_expiry result) sub (expiry_act moment) }
    ensures receipt { receipts.new.items ≡ receipts.old.items ++ expiry_receipts sub moment result }
{
    let Ok(()) = touch(shard, touched, sub) else {
        return ExpiryAnswer::Refused;
    };
    let answer = shard.expire(alloc, sub, moment);
    if let ExpiryAnswer::Closed { sessions, place } = answer {
        let act = Act {
            moment,
            kind: Kind::Expiry,
        };
        let told = Told::Closed { sessions };
        receipts.push_reserved(plain(alloc, sub, act, place, told, true));
    }
    answer
}

/// Counts a call that may make an act of this subscriber, in the shard and at the seat. The only error is want of memory. The condition: there is room for
/// one subscriber more.
pub(crate) fn touch<R: Records, J: Naming>(
    shard: &mut Ward<R, J>,
    touched: &mut Vec<Sub>,
    sub: Sub,
) -> Result<(), AllocError>
    requires { vec_len touched.old + 1 ≤ vec_capacity touched.old }
    ensures touched { OnOk result (is_touched shard.new.touches sub ≡ true) }
    ensures others { (other : Sub) → is_touched shard.old.touches other ≡ true → is_touched shard.new.touches other ≡ true }
    ensures shard { (shard.new.shard ≡ shard.old.shard) × (shard.new.records ≡ shard.old.records) }
    ensures few { vec_len touched.new ≤ vec_len touched.old + 1 }
    ensures capacity { vec_capacity touched.new ≡ vec_capacity touched.old }
{
    same_subscribers_are_equal();
    shard.touch(sub)?;
    touched.push_reserved(sub);
    Ok(())
}

/// Room for one receipt and one subscriber more. The only error is want of memory.
fn room_for_one(receipts: &mut Vec<Receipt>, touched: &mut Vec<Sub>) -> Result<(), AllocError>
    ensures items { receipts.new.items ≡ receipts.old.items }
    ensures room { OnOk result (vec_len receipts.new + 1 ≤ vec_capacity receipts.new) }
    ensures touched { OnOk result (vec_len touched.new + 1 ≤ vec_capacity touched.new) }
{
    receipts.reserve(1)?;
    touched.reserve(1)
}

/// Room for one receipt and one subscriber more, a spare room, where none is there from a call before, and a copy of the act. The only error is want of memory.
fn room_for(
    alloc: Global,
    receipts: &mut Vec<Receipt>,
    spares: &mut Vec<Spare>,
    touched: &mut Vec<Sub>,
    act: &Act,
) -> Result<Act, AllocError>
    ensures items { receipts.new.items ≡ receipts.old.items }
    ensures room { OnOk result (vec_len receipts.new + 1 ≤ vec_capacity receipts.new) }
    ensures spare { OnOk result (0 < length spares.new.items) }
    ensures touched { OnOk result (vec_len touched.new + 1 ≤ vec_capacity touched.new) }
    ensures act { IfOk result (λ copy. copy ≡ act.now) }
{
    add_spares(alloc, spares, 1)?;
    room_for_one(receipts, touched)?;
    act.copy()
}

/// The answer to a job for whose receipt there is no room: busy, or none.
fn busy(alloc: Global, identity: &Identity, job: &Job) -> RequestAnswer
    ensures refused { IsRefusedBy identity.now job.now.header job.now.proxies (session_of_act job.now.act) result }
    ensures judged { is_judged result ≡ false }
    ensures none { receipts_of job.now result ≡ [] }
    ensures apart { IsToldApart result }
{
    let session = request_key(&job.act.kind).map(|key| lend_session(&key.sid));
    match write_busy(alloc, identity, session, &job.header, &job.proxies) {
        Ok(octets) => RequestAnswer::Busy {
            octets: OctetString::from_vec(octets),
        },
        Err(_) => RequestAnswer::Silent,
    }
}

/// Adds the receipt of an answer to a job, where it gives one, and gives the answer back. The conditions: there is room for the receipt, and a
/// spare room.
pub(crate) fn keep(
    receipts: &mut Vec<Receipt>,
    spares: &mut Vec<Spare>,
    job: Job,
    answer: RequestAnswer,
) -> RequestAnswer
    requires room { vec_len receipts.old + 1 ≤ vec_capacity receipts.old }
    requires spare { 0 < length spares.old.items }
    requires bounded { length (octets_of answer) ≤ MAX_ANSWER }
    ensures same { result ≡ answer }
    ensures few { vec_len receipts.new ≤ vec_len receipts.old + 1 }
    ensures capacity { vec_capacity receipts.new ≡ vec_capacity receipts.old }
    ensures spares { length spares.old.items ≤ length spares.new.items + 1 }
    ensures receipt { receipts.new.items ≡ receipts.old.items ++ receipts_of job answer }
{
    match answer {
        RequestAnswer::Done {
            octets,
            place,
            fresh,
        } => {
            let (kept, octets) = twice(spares, octets);
            receipts.push_reserved(receipt(job, kept, place, fresh));
            RequestAnswer::Done {
                octets,
                place,
                fresh,
            }
        }
        RequestAnswer::Unknown { octets } => {
            let (kept, octets) = twice(spares, octets);
            receipts.push_reserved(receipt(job, kept, 0, false));
            RequestAnswer::Unknown { octets }
        }
        // By a call, here and below: a job that is let go in place is proved part by part.
        RequestAnswer::Busy { octets } => {
            drop(job);
            RequestAnswer::Busy { octets }
        }
        RequestAnswer::Silent => {
            drop(job);
            RequestAnswer::Silent
        }
    }
}

/// The receipt of an answer of these octets to a job.
fn receipt(job: Job, octets: OctetString, place: u64, fresh: bool) -> Receipt
    ensures { result ≡ receipt job octets place fresh }
{
    let Job {
        sub,
        act,
        header,
        proxies,
    } = job;
    Receipt {
        sub,
        place,
        act,
        header,
        proxies,
        answer: Told::Octets(octets),
        fresh,
    }
}

/// Adds the receipt of a top-up, where it gives one.
fn keep_top_up(alloc: Global, receipts: &mut Vec<Receipt>, sub: Sub, act: Act, answer: TopUpAnswer)
    requires room { vec_len receipts.old + 1 ≤ vec_capacity receipts.old }
    ensures { receipts.new.items ≡ receipts.old.items ++ told_receipts sub act answer }
{
    match answer {
        TopUpAnswer::Done { place, fresh } => {
            receipts.push_reserved(plain(alloc, sub, act, place, Told::Added, fresh));
        }
        TopUpAnswer::Ceiling { place, fresh } => {
            receipts.push_reserved(plain(alloc, sub, act, place, Told::Ceiling, fresh));
        }
        // By a call: an act that is let go in place is proved part by part.
        TopUpAnswer::BadAmount | TopUpAnswer::Refused => drop(act),
    }
}

/// The receipt of what is no request.
pub(crate) fn plain(
    alloc: Global,
    sub: Sub,
    act: Act,
    place: u64,
    answer: Told,
    fresh: bool,
) -> Receipt
    ensures { result ≡ plain_receipt sub act place answer fresh }
{
    Receipt {
        sub,
        place,
        act,
        header: NO_HEADER,
        proxies: Proxies::none(alloc),
        answer,
        fresh,
    }
}
