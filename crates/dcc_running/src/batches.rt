//! Batches: the calls of different subscribers of one shard, under one lock, and with one append for all their new acts.

ghost use Rattle.std.specs.Prelude.{◌≡◌, ◌≤◌, ◌<◌, ◌+◌, ◌++◌, [], true, length, map, vec_len, vec_capacity, IfOk, OnOk};
ghost use Rattle.std.specs.List.{list_all};
ghost use Rattle.dcc_act.specs.declared.sub.Sub.{Sub};
ghost use Rattle.dcc_shard.specs.Batches.{AreReplies, IsBatch, sub_of};
ghost use Rattle.dcc_shard.specs.Shards.{are_apart, is_among};
ghost use Rattle.dcc_running.specs.inner.Touches.{is_touched};
ghost use Rattle.dcc_running.specs.Batches.{AreAnswersOf, AreAnswersTo, CountsEach, EndsEach, all_receipts_of, are_of_one_shard, has_request, sub_of_job};
ghost use Rattle.dcc_running.specs.inner.Batches.{AreAnswered, AreEnded, all_end_receipts, call_of, end_of, end_receipts, reply_of};

use crate::calls::{keep, plain, touch};
use crate::job::Job;
use crate::naming::Naming;
use crate::room::{Spare, add_spares};
use crate::seat::Seat;
use crate::shards::Shards;
use crate::tally::{Tally, tallied};
use crate::ward::Ward;
use dcc_act::{Act, Kind, Moment, Sub, same_subscribers_are_equal};
use dcc_receipts::{Receipt, Told};
use dcc_shard::{Call, ExpiryAnswer, Reply, RequestAnswer};
use dcc_store::Records;
use std::alloc::{AllocError, Global};
use std::sync::Wait;

impl<R: Records, J: Naming> Shards<R, J> {
    /// Makes the acts of a batch of requests in their subscribers' shard, under one lock and by one append, and answers each as
    /// [`Shards::submit`] does. The answers are added in the order of the jobs, and the receipts go to the seat in this order. It waits for the
    /// shard's lock. All room is taken first: for the receipts, for copies of the answers and for the batch itself. If memory is short for
    /// that, each job is submitted by itself. The conditions: each job's act is a request's; the jobs are of different subscribers, all of
    /// one shard; the list of answers is empty and has room for them.
    pub fn submit_all<W: Wait>(
        &self,
        rt: &W,
        alloc: Global,
        seat: &mut Seat,
        jobs: Vec<Job>,
        answers: &mut Vec<RequestAnswer>,
    )
        requires requests { list_all has_request jobs.items ≡ true }
        requires apart { are_apart (map sub_of_job jobs.items) ≡ true }
        requires shard { are_of_one_shard self.now.count (map sub_of_job jobs.items) ≡ true }
        requires empty { answers.old.items ≡ [] }
        requires room { length jobs.items ≤ vec_capacity answers.old }
        ensures answers { AreAnswersTo jobs.items answers.new.items }
        ensures receipts { seat.new ≡ seat.old ++ all_receipts_of jobs.items answers.new.items }
    {
        let Some(first) = jobs.first() else {
            // By a call: jobs that are let go in place are proved part by part.
            drop(jobs);
            return;
        };
        let sub = first.sub;
        let (receipts, spares) = (&mut seat.receipts, &mut seat.spares);
        let Ok((calls, replies)) = room_for_all(alloc, receipts, spares, jobs.as_slice()) else {
            self.submit_each(rt, alloc, seat, jobs, answers);
            return;
        };
        let mut shard = self.lock_of_all(rt, &sub, calls.as_slice());
        let before = seat.filling();
        if touch_all(&mut shard, &mut seat.touched, calls.as_slice()).is_err() {
            // By calls: the lock has to be free, and what is let go in place is proved part by part.
            drop(shard);
            drop((calls, replies));
            self.submit_each(rt, alloc, seat, jobs, answers);
            return;
        }
        let (receipts, spares) = (&mut seat.receipts, &mut seat.spares);
        make_all(
            alloc, &mut shard, receipts, spares, jobs, calls, replies, answers,
        );
        self.ease_behind(&mut shard, seat, before);
    }

    /// Submits each job by itself.
    fn submit_each<W: Wait>(
        &self,
        rt: &W,
        alloc: Global,
        seat: &mut Seat,
        jobs: Vec<Job>,
        answers: &mut Vec<RequestAnswer>,
    )
        requires requests { list_all has_request jobs.items ≡ true }
        requires empty { answers.old.items ≡ [] }
        requires room { length jobs.items ≤ vec_capacity answers.old }
        ensures answers { AreAnswersTo jobs.items answers.new.items }
        ensures receipts { seat.new ≡ seat.old ++ all_receipts_of jobs.items answers.new.items }
    {
        for job in jobs {
            answers.push_reserved(self.submit(rt, alloc, seat, job));
        }
    }

    /// Ends the sessions of these subscribers that are held until this moment or an earlier one, under one lock and by one append, each as
    /// [`Shards::expire`] does. The receipts go to the seat in the order of the subscribers. It waits for the shard's lock. All room is taken
    /// first; if memory is short for it, each subscriber's sessions are ended by themselves. Returns the counts of these expiries. The
    /// conditions: the subscribers are different, and all of one shard.
    pub fn expire_all<W: Wait>(
        &self,
        rt: &W,
        alloc: Global,
        seat: &mut Seat,
        subs: &[Sub],
        moment: Moment,
    ) -> Tally
        requires apart { are_apart subs.now ≡ true }
        requires shard { are_of_one_shard self.now.count subs.now ≡ true }
        ensures ends { EndsEach moment subs.now seat.old seat.new }
        ensures counted { CountsEach moment subs.now seat.old seat.new result }
    {
        let Some(first) = subs.first() else {
            return Tally::none();
        };
        let sub = *first;
        let Ok((calls, replies)) = room_for_ends(alloc, &mut seat.receipts, subs, moment) else {
            return self.expire_each(rt, alloc, seat, subs, moment);
        };
        let mut replies = replies;
        let mut shard = self.lock_of_all(rt, &sub, calls.as_slice());
        let before = seat.filling();
        if touch_all(&mut shard, &mut seat.touched, calls.as_slice()).is_err() {
            // By calls, as above.
            drop(shard);
            drop((calls, replies));
            return self.expire_each(rt, alloc, seat, subs, moment);
        }
        let receipts = &mut seat.receipts;
        end_all(
            alloc,
            &mut shard,
            receipts,
            subs,
            moment,
            calls,
            &mut replies,
        );
        self.ease_behind(&mut shard, seat, before);
        tallied(Tally::none(), replies.as_slice())
    }

    /// Ends the sessions of each of these subscribers that are held until this moment or an earlier one, in order, each as
    /// [`Shards::expire`] does, and returns the counts of these expiries. It waits for the lock of each subscriber's shard in turn.
    pub fn expire_each<W: Wait>(
        &self,
        rt: &W,
        alloc: Global,
        seat: &mut Seat,
        subs: &[Sub],
        moment: Moment,
    ) -> Tally
        ensures ends { EndsEach moment subs.now seat.old seat.new }
        ensures counted { CountsEach moment subs.now seat.old seat.new result }
    {
        let mut tally = Tally::none();
        for sub in subs {
            let answer = self.expire(rt, alloc, seat, *sub, moment);
            tally = tally.with(answer);
        }
        tally
    }
}

/// Counts these calls, each of which may make an act, in the shard and at the seat. The only error is want of memory.
fn touch_all<R: Records, J: Naming>(
    shard: &mut Ward<R, J>,
    touched: &mut Vec<Sub>,
    calls: &[Call],
) -> Result<(), AllocError>
    ensures touched { OnOk result ((sub : Sub) → is_among sub (map sub_of calls.now) ≡ true → is_touched shard.new.touches sub ≡ true) }
    ensures shard { (shard.new.shard ≡ shard.old.shard) × (shard.new.records ≡ shard.old.records) }
{
    same_subscribers_are_equal();
    touched.reserve(calls.len())?;
    for call in calls {
        touch(shard, touched, sub_of(call))?;
    }
    Ok(())
}

/// The subscriber of a call.
fn sub_of(call: &Call) -> Sub
    ensures { result ≡ sub_of call.now }
{
    match call {
        Call::Request { sub, .. } | Call::TopUp { sub, .. } | Call::Expiry { sub, .. } => *sub,
    }
}

/// Makes the acts of these jobs in this shard, answers the jobs in order, and adds the receipts of the answers. The conditions: the calls are
/// those of the jobs, and there is room for replies, answers, receipts and copies of answers.
fn make_all<R: Records, J: Naming>(
    alloc: Global,
    shard: &mut Ward<R, J>,
    receipts: &mut Vec<Receipt>,
    spares: &mut Vec<Spare>,
    jobs: Vec<Job>,
    calls: Vec<Call>,
    replies: Vec<Reply>,
    answers: &mut Vec<RequestAnswer>,
)
    requires requests { list_all has_request jobs.items ≡ true }
    requires apart { are_apart (map sub_of_job jobs.items) ≡ true }
    requires calls { calls.items ≡ map call_of jobs.items }
    requires touched { (sub : Sub) → is_among sub (map sub_of calls.items) ≡ true → is_touched shard.old.touches sub ≡ true }
    requires none { replies.items ≡ [] }
    requires replies { length jobs.items ≤ vec_capacity replies }
    requires empty { answers.old.items ≡ [] }
    requires answers { length jobs.items ≤ vec_capacity answers.old }
    requires room { vec_len receipts.old + length jobs.items ≤ vec_capacity receipts.old }
    requires spares { length jobs.items ≤ length spares.old.items }
    ensures answers { AreAnswersOf shard.old.shard jobs.items answers.new.items }
    ensures step { IsBatch shard.old.shard shard.new.shard (map call_of jobs.items) (map reply_of answers.new.items) }
    ensures receipts { receipts.new.items ≡ receipts.old.items ++ all_receipts_of jobs.items answers.new.items }
{
    let mut replies = replies;
    shard.step_all(alloc, calls, &mut replies);
    keep_all(receipts, spares, jobs, replies, answers);
}

/// Adds the receipts of the answers to these jobs, in order, and gives the answers. The conditions: the replies are those to the jobs, and there
/// is room for answers, receipts and copies of answers.
fn keep_all(
    receipts: &mut Vec<Receipt>,
    spares: &mut Vec<Spare>,
    jobs: Vec<Job>,
    replies: Vec<Reply>,
    answers: &mut Vec<RequestAnswer>,
)
    requires replies { AreAnswered jobs.items replies.items }
    requires empty { answers.old.items ≡ [] }
    requires answers { length jobs.items ≤ vec_capacity answers.old }
    requires room { vec_len receipts.old + length jobs.items ≤ vec_capacity receipts.old }
    requires spares { length jobs.items ≤ length spares.old.items }
    ensures answers { map reply_of answers.new.items ≡ replies.items }
    ensures receipts { receipts.new.items ≡ receipts.old.items ++ all_receipts_of jobs.items answers.new.items }
{
    let mut replies = replies.into_iter();
    for job in jobs {
        let Some(Reply::Request(answer)) = replies.next() else {
            unreachable!()
        };
        answers.push_reserved(keep(receipts, spares, job, answer));
    }
}

/// Ends what is due of these subscribers in this shard, and adds the receipts of that, in order. The conditions: the calls are the expiries of the
/// subscribers, who are different; there is room for replies and receipts.
fn end_all<R: Records, J: Naming>(
    alloc: Global,
    shard: &mut Ward<R, J>,
    receipts: &mut Vec<Receipt>,
    subs: &[Sub],
    moment: Moment,
    calls: Vec<Call>,
    replies: &mut Vec<Reply>,
)
    requires apart { are_apart subs.now ≡ true }
    requires calls { calls.items ≡ map (end_of moment) subs.now }
    requires touched { (sub : Sub) → is_among sub (map sub_of calls.items) ≡ true → is_touched shard.old.touches sub ≡ true }
    requires none { replies.old.items ≡ [] }
    requires replies { length subs.now ≤ vec_capacity replies.old }
    requires room { vec_len receipts.old + length subs.now ≤ vec_capacity receipts.old }
    ensures answers { AreReplies shard.old.shard (map (end_of moment) subs.now) replies.new.items }
    ensures step { IsBatch shard.old.shard shard.new.shard (map (end_of moment) subs.now) replies.new.items }
    ensures receipts { receipts.new.items ≡ receipts.old.items ++ all_end_receipts moment subs.now replies.new.items }
{
    shard.step_all(alloc, calls, replies);
    keep_ends(alloc, receipts, subs, moment, replies.as_slice());
}

/// Adds the receipts of the expiries of these subscribers, in order. The conditions: the replies are those to the expiries, and there is room for
/// the receipts.
fn keep_ends(
    alloc: Global,
    receipts: &mut Vec<Receipt>,
    subs: &[Sub],
    moment: Moment,
    replies: &[Reply],
)
    requires replies { AreEnded subs.now replies.now }
    requires room { vec_len receipts.old + length subs.now ≤ vec_capacity receipts.old }
    ensures { receipts.new.items ≡ receipts.old.items ++ all_end_receipts moment subs.now replies.now }
{
    for at in 0..subs.len() {
        keep_end(alloc, receipts, subs[at], moment, &replies[at]);
    }
}

/// Adds the receipt of a subscriber's expiry, if there is one. The condition: there is room for it.
fn keep_end(alloc: Global, receipts: &mut Vec<Receipt>, sub: Sub, moment: Moment, reply: &Reply)
    requires { vec_len receipts.old + 1 ≤ vec_capacity receipts.old }
    ensures receipts { receipts.new.items ≡ receipts.old.items ++ end_receipts moment sub reply.now }
    ensures few { vec_len receipts.new ≤ vec_len receipts.old + 1 }
    ensures capacity { vec_capacity receipts.new ≡ vec_capacity receipts.old }
{
    let Reply::Expiry(ExpiryAnswer::Closed { sessions, place }) = *reply else {
        return;
    };
    let act = Act {
        moment,
        kind: Kind::Expiry,
    };
    let told = Told::Closed { sessions };
    receipts.push_reserved(plain(alloc, sub, act, place, told, true));
}

/// Room for the receipts of these jobs, spare rooms for copies of their answers, the calls of the jobs, and room for the replies to them. The only error is
/// want of memory.
fn room_for_all(
    alloc: Global,
    receipts: &mut Vec<Receipt>,
    spares: &mut Vec<Spare>,
    jobs: &[Job],
) -> Result<(Vec<Call>, Vec<Reply>), AllocError>
    ensures items { receipts.new.items ≡ receipts.old.items }
    ensures room { OnOk result (vec_len receipts.new + length jobs.now ≤ vec_capacity receipts.new) }
    ensures spares { OnOk result (length jobs.now ≤ length spares.new.items) }
    ensures calls { IfOk result (λ room. room.0.items ≡ map call_of jobs.now) }
    ensures none { IfOk result (λ room. room.1.items ≡ []) }
    ensures replies { IfOk result (λ room. length jobs.now ≤ vec_capacity room.1) }
{
    receipts.reserve(jobs.len())?;
    add_spares(alloc, spares, jobs.len())?;
    let replies = Vec::with_capacity(alloc, jobs.len())?;
    match calls_of(alloc, jobs) {
        Ok(calls) => Ok((calls, replies)),
        Err(AllocError) => {
            drop(replies);
            Err(AllocError)
        }
    }
}

/// The calls of these jobs, with copies of their acts and proxies. The only error is want of memory.
fn calls_of(alloc: Global, jobs: &[Job]) -> Result<Vec<Call>, AllocError>
    ensures { IfOk result (λ calls. calls.items ≡ map call_of jobs.now) }
{
    let mut calls = Vec::with_capacity(alloc, jobs.len())?;
    for job in jobs {
        let Ok(call) = call_of(job) else {
            drop(calls);
            return Err(AllocError);
        };
        calls.push_reserved(call);
    }
    Ok(calls)
}

/// The call of a job, with copies of its act and proxies. The only error is want of memory.
fn call_of(job: &Job) -> Result<Call, AllocError>
    ensures { IfOk result (λ call. call ≡ call_of job.now) }
{
    let act = job.act.copy()?;
    let Ok(proxies) = job.proxies.copy() else {
        drop(act);
        return Err(AllocError);
    };
    Ok(Call::Request {
        sub: job.sub,
        act,
        header: job.header,
        proxies,
    })
}

/// Room for the receipts of these subscribers' expiries, the calls, and room for the replies to them. The only error is want of memory.
fn room_for_ends(
    alloc: Global,
    receipts: &mut Vec<Receipt>,
    subs: &[Sub],
    moment: Moment,
) -> Result<(Vec<Call>, Vec<Reply>), AllocError>
    ensures items { receipts.new.items ≡ receipts.old.items }
    ensures room { OnOk result (vec_len receipts.new + length subs.now ≤ vec_capacity receipts.new) }
    ensures calls { IfOk result (λ room. room.0.items ≡ map (end_of moment) subs.now) }
    ensures none { IfOk result (λ room. room.1.items ≡ []) }
    ensures replies { IfOk result (λ room. length subs.now ≤ vec_capacity room.1) }
{
    receipts.reserve(subs.len())?;
    let replies = Vec::with_capacity(alloc, subs.len())?;
    match ends_of(alloc, subs, moment) {
        Ok(calls) => Ok((calls, replies)),
        Err(AllocError) => {
            drop(replies);
            Err(AllocError)
        }
    }
}

/// The expiries of these subscribers, as calls. The only error is want of memory.
fn ends_of(alloc: Global, subs: &[Sub], moment: Moment) -> Result<Vec<Call>, AllocError>
    ensures { IfOk result (λ calls. calls.items ≡ map (end_of moment) subs.now) }
{
    let mut calls = Vec::with_capacity(alloc, subs.len())?;
    for sub in subs {
        calls.push_reserved(Call::Expiry { sub: *sub, moment });
    }
    Ok(calls)
}
