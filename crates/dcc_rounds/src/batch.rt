//! Requests of different subscribers, which a worker answers together: their new acts go into the records by one append.

ghost use Rattle.std.specs.Prelude.{◌≡◌, ◌<◌, ◌≤◌, ◌+◌, ◌++◌, ◌∷◌, [], true, length, map, vec_len, vec_capacity, IfNone, IfOk};
ghost use Rattle.std.specs.List.{list_all, list_any};
ghost use Rattle.dcc_act.specs.Subs.{same_sub};
ghost use Rattle.dcc_lane.specs.Ends.{IsSameReceiver};
ghost use Rattle.dcc_running.specs.Batches.{are_of_one_shard, has_request, sub_of_job};
ghost use Rattle.dcc_shard.specs.Routes.{shard_of};
ghost use Rattle.dcc_shard.specs.Shards.{are_apart, is_among};
ghost use Rattle.dcc_rounds.specs.Lanes.{all_put, lanes_of};
ghost use Rattle.dcc_rounds.specs.Working.{octets_in, put_answer, works_in};
ghost use Rattle.dcc_rounds.specs.inner.Batches.{AnswersEach, AreAnswered, IsGathered, IsOneBatch, gate_of, job_of, may_join, put_answers, sub_of_request, works_of};

use crate::events::{Events, ticks_of};
use crate::face::{Notices, Sign};
use crate::lanes::{first_of, leave_in};
use crate::work::{Request, Work};
use crate::worker::{answer, more, octets_of};
use dcc_act::{Sub, same_subscribers_are_equal};
use dcc_connect::Item;
use dcc_lane::{Receiver, Sender};
use dcc_running::{Job, Naming, Seat, Shards};
use dcc_shard::RequestAnswer;
use dcc_store::Records;
use std::alloc::{AllocError, Global};
use std::sync::Wait;

/// The most requests of a batch.
pub(crate) const BATCH: usize = 64;

/// Takes what the lane has without a wait, and adds it to a batch: up to [`BATCH`] requests of different subscribers of one shard. It returns the
/// first item that can't be added, if it took one. The condition: the batch has room for so many.
pub(crate) fn gather<W: Wait, R: Records, J: Naming>(
    rt: &W,
    from: &mut Receiver<Work>,
    shards: &Shards<R, J>,
    batch: &mut Vec<Request>,
    since: &mut u32,
) -> Option<Work>
    requires room { BATCH ≤ vec_capacity batch.old }
    requires batch { IsOneBatch shards.now.count batch.old.items }
    ensures same { IsSameReceiver from.old from.new }
    ensures taken { IsGathered from.old batch.old.items from.new batch.new.items (works_in (result ∷ [])) }
    ensures batch { IsOneBatch shards.now.count batch.new.items }
{
    while batch.len() < BATCH {
        let Some(work) = more(rt, from, since) else {
            return None;
        };
        if let Some(other) = add(shards, batch, work) {
            return Some(other);
        }
    }
    None
}

/// Adds the request of an item to a batch, if it may join it, and else returns the item. The condition: the batch has room for it.
fn add<R: Records, J: Naming>(
    shards: &Shards<R, J>,
    batch: &mut Vec<Request>,
    work: Work,
) -> Option<Work>
    requires room { vec_len batch.old < vec_capacity batch.old }
    requires batch { IsOneBatch shards.now.count batch.old.items }
    ensures batch { IsOneBatch shards.now.count batch.new.items }
    ensures added { works_of batch.new.items ++ works_in (result ∷ []) ≡ works_of batch.old.items ++ work ∷ [] }
    ensures longer { IfNone result (vec_len batch.new ≡ vec_len batch.old + 1) }
    ensures capacity { vec_capacity batch.new ≡ vec_capacity batch.old }
{
    same_subscribers_are_equal();
    let request = match work {
        Work::Request(request) => request,
        other => return Some(other),
    };
    if !may_join(shards, batch.as_slice(), &request.job.sub) {
        return Some(Work::Request(request));
    }
    batch.push_reserved(request);
    None
}

/// Whether a request of this subscriber may join a batch: the batch has none of this subscriber, and its subscribers are of the same shard.
#[tactic(auto, using(crate::proofs::Batching::any_sub))]
fn may_join<R: Records, J: Naming>(shards: &Shards<R, J>, batch: &[Request], sub: &Sub) -> bool
    ensures { result ≡ may_join shards.now.count (map sub_of_request batch.now) sub.now }
{
    match batch.first() {
        None => true,
        Some(first) => {
            shards.index_of(sub) == shards.index_of(&first.job.sub) && !is_among(sub, batch)
        }
    }
}

/// Whether a batch has a request of this subscriber.
fn is_among(sub: &Sub, batch: &[Request]) -> bool
    ensures { result ≡ list_any (λ request. same_sub request.job.sub sub.now) batch.now }
{
    batch.iter().any(|request| request.job.sub == *sub)
}

/// Makes the requests of a batch and puts their answers into their gateways' lanes, in order; their writers aren't woken yet. Several are
/// submitted together; if memory is short for that, each by itself. It leaves the batch empty.
pub(crate) fn answer_batch<W: Wait, R: Records, J: Naming, N: Notices>(
    rt: &W,
    alloc: Global,
    shards: &Shards<R, J>,
    events: &Events<'_, N>,
    seat: &mut Seat,
    writers: &mut Vec<Sender<Item>>,
    batch: &mut Vec<Request>,
)
    requires { IsOneBatch shards.now.count batch.old.items }
    ensures answered { AnswersEach batch.old.items (seat.old, all_put writers.old.items) (seat.new, all_put writers.new.items) }
    ensures empty { batch.new.items ≡ [] }
    ensures lanes { lanes_of writers.new.items ≡ lanes_of writers.old.items }
{
    let count = batch.len();
    if count < 2 {
        answer_each(rt, alloc, shards, events, seat, writers, batch);
        return;
    }
    match room_for(alloc, count) {
        Ok((gates, jobs, answers)) => {
            let read = ticks_of(batch.as_slice());
            let (gates, jobs) = parted(batch, gates, jobs);
            answer_all(
                rt, alloc, shards, events, &read, seat, writers, gates, jobs, answers,
            );
        }
        Err(AllocError) => answer_each(rt, alloc, shards, events, seat, writers, batch),
    }
}

/// Makes these requests one by one, and leaves none.
fn answer_each<W: Wait, R: Records, J: Naming, N: Notices>(
    rt: &W,
    alloc: Global,
    shards: &Shards<R, J>,
    events: &Events<'_, N>,
    seat: &mut Seat,
    writers: &mut Vec<Sender<Item>>,
    batch: &mut Vec<Request>,
)
    ensures answered { AnswersEach batch.old.items (seat.old, all_put writers.old.items) (seat.new, all_put writers.new.items) }
    ensures empty { batch.new.items ≡ [] }
    ensures lanes { lanes_of writers.new.items ≡ lanes_of writers.old.items }
{
    while let Some(request) = first_of(batch) {
        answer(rt, alloc, shards, events, seat, writers, request);
    }
}

/// Room for the parts of so many requests, and for their answers. The only error is want of memory.
fn room_for(
    alloc: Global,
    count: usize,
) -> Result<(Vec<usize>, Vec<Job>, Vec<RequestAnswer>), AllocError>
    ensures gates { IfOk result (λ room. (room.0.items ≡ []) × (count ≤ vec_capacity room.0)) }
    ensures jobs { IfOk result (λ room. (room.1.items ≡ []) × (count ≤ vec_capacity room.1)) }
    ensures answers { IfOk result (λ room. (room.2.items ≡ []) × (count ≤ vec_capacity room.2)) }
{
    let gates = Vec::with_capacity(alloc, count)?;
    let Ok(jobs) = Vec::with_capacity(alloc, count) else {
        drop(gates);
        return Err(AllocError);
    };
    let Ok(answers) = Vec::with_capacity(alloc, count) else {
        drop(gates);
        drop(jobs);
        return Err(AllocError);
    };
    Ok((gates, jobs, answers))
}

/// Takes the requests of a batch apart, in order: the places of their gateways, and their jobs. It leaves no request. The conditions: both lists
/// are empty, and have room for them.
fn parted(batch: &mut Vec<Request>, gates: Vec<usize>, jobs: Vec<Job>) -> (Vec<usize>, Vec<Job>)
    requires gates { (gates.items ≡ []) × (length batch.old.items ≤ vec_capacity gates) }
    requires jobs { (jobs.items ≡ []) × (length batch.old.items ≤ vec_capacity jobs) }
    ensures gates { result.0.items ≡ map gate_of batch.old.items }
    ensures jobs { result.1.items ≡ map job_of batch.old.items }
    ensures requests { list_all has_request result.1.items ≡ true }
    ensures empty { batch.new.items ≡ [] }
{
    let mut gates = gates;
    let mut jobs = jobs;
    while let Some(request) = batch.pop() {
        let Request {
            gate,
            job,
            ticks: _,
        } = request;
        gates.push_reserved(gate);
        jobs.push_reserved(job);
    }
    gates.reverse();
    jobs.reverse();
    (gates, jobs)
}

/// Submits these jobs together, and puts their answers into the lanes of these gateways, in order. Their requests were read at these ticks. The
/// conditions: there is a gateway for each job; the jobs are requests of different subscribers of one shard; the list of answers is empty and has
/// room for them.
fn answer_all<W: Wait, R: Records, J: Naming, N: Notices>(
    rt: &W,
    alloc: Global,
    shards: &Shards<R, J>,
    events: &Events<'_, N>,
    read: &[u64; BATCH],
    seat: &mut Seat,
    writers: &mut Vec<Sender<Item>>,
    gates: Vec<usize>,
    jobs: Vec<Job>,
    answers: Vec<RequestAnswer>,
)
    requires gates { length gates.items ≡ length jobs.items }
    requires requests { list_all has_request jobs.items ≡ true }
    requires apart { are_apart (map sub_of_job jobs.items) ≡ true }
    requires shard { are_of_one_shard shards.now.count (map sub_of_job jobs.items) ≡ true }
    requires empty { answers.items ≡ [] }
    requires room { length jobs.items ≤ vec_capacity answers }
    ensures answered { AreAnswered gates.items jobs.items (seat.old, all_put writers.old.items) (seat.new, all_put writers.new.items) }
    ensures lanes { lanes_of writers.new.items ≡ lanes_of writers.old.items }
{
    let mut answers = answers;
    shards.submit_all(rt, alloc, seat, jobs, &mut answers);
    events.all_answered(answers.as_slice(), read);
    leave_answers(rt, events.notices, writers, gates, answers);
}

/// Puts answers into the lanes of these gateways, in order. The condition: there is a gateway for each answer.
fn leave_answers<W: Wait, N: Notices>(
    rt: &W,
    notices: &N,
    writers: &mut Vec<Sender<Item>>,
    gates: Vec<usize>,
    answers: Vec<RequestAnswer>,
)
    requires { length gates.items ≡ length answers.items }
    ensures put { all_put writers.new.items ≡ put_answers gates.items answers.items (all_put writers.old.items) }
    ensures lanes { lanes_of writers.new.items ≡ lanes_of writers.old.items }
{
    let mut gates = gates.into_iter();
    for answer in answers {
        let Some(gate) = gates.next() else {
            unreachable!()
        };
        leave_answer(rt, notices, writers, gate, answer);
    }
}

/// Puts an answer into its gateway's lane, whose writer isn't woken yet. If there is no answer, it puts nothing. Signs say so.
pub(crate) fn leave_answer<W: Wait, N: Notices>(
    rt: &W,
    notices: &N,
    writers: &mut Vec<Sender<Item>>,
    gate: usize,
    answer: RequestAnswer,
)
    ensures put { all_put writers.new.items ≡ put_answer gate (octets_in answer) (all_put writers.old.items) }
    ensures lanes { lanes_of writers.new.items ≡ lanes_of writers.old.items }
{
    let Some(octets) = octets_of(answer) else {
        notices.sign(gate, Sign::Done);
        return;
    };
    leave_in(rt, writers, gate, Item::Octets(octets));
    // In this order, so that at no moment too few answers are counted.
    notices.sign(gate, Sign::Put);
    notices.sign(gate, Sign::Done);
}
