//! Many top-ups in one shard.

ghost use Rattle.std.specs.Prelude.{◌≡◌, ◌∷◌, true, ◌<◌, ◌≤◌, ◌+◌, ◌++◌, [], length, map, vec_len, vec_capacity, List, IfOk, OnOk};
ghost use Rattle.std.specs.List.{list_any};
ghost use Rattle.dcc_act.specs.Subs.{same_sub};
ghost use Rattle.dcc_shard.specs.Shards.{are_apart, held};
ghost use Rattle.dcc_shard.specs.declared.answers.TopUpAnswer.{TopUpAnswer};
ghost use Rattle.dcc_operator.specs.Many.{AreToppedUp};
ghost use Rattle.dcc_operator.specs.inner.Batches.{answers_in, call_of, subs_of, IsMadeOf};

use crate::commands::TopUpAsk;
use dcc_act::{Sub, same_subscribers_are_equal};
use dcc_shard::{Call, Reply, Shard, TopUpAnswer};
use dcc_store::Records;
use std::alloc::{AllocError, Global};

/// The most top-ups that go into the records by one append.
const BATCH: usize = 64;

/// Makes these top-ups in a shard, one after another, and adds the answer of each, in order. Top-ups of different subscribers that follow one
/// another, up to 64, go into the records by one append. If memory is short for such a batch, its top-ups are made by an append each. The
/// conditions: the list of answers is empty and has room for all of them.
pub fn top_up_each<R: Records>(
    alloc: Global,
    shard: &mut Shard<R>,
    asks: &[TopUpAsk],
    answers: &mut Vec<TopUpAnswer>,
)
    requires empty { answers.old.items ≡ [] }
    requires room { length asks.now ≤ vec_capacity answers.old }
    ensures made { AreToppedUp shard.old.shard.terms asks.now answers.new.items (held shard.old.shard) (held shard.new.shard) }
    ensures terms { shard.new.shard.terms ≡ shard.old.shard.terms }
    ensures identity { shard.new.shard.identity ≡ shard.old.shard.identity }
{
    let mut from = 0usize;
    while from < asks.len() {
        let end = batch_end(asks, from);
        make(alloc, shard, &asks[from..end], answers);
        from = end;
    }
}

/// Makes top-ups by one append if they are of different subscribers and memory is there for their list, and otherwise by an append each. The
/// condition: there is room for their answers.
fn make<R: Records>(
    alloc: Global,
    shard: &mut Shard<R>,
    asks: &[TopUpAsk],
    answers: &mut Vec<TopUpAnswer>,
)
    requires room { length answers.old.items + length asks.now ≤ vec_capacity answers.old }
    ensures made { IsMadeOf shard.old.shard shard.new.shard asks.now answers.old.items answers.new.items }
    ensures room { vec_capacity answers.old ≤ vec_capacity answers.new }
{
    if asks.len() > 1 && are_apart(asks) {
        if let Ok((calls, replies)) = lists(alloc, asks) {
            make_batch(alloc, shard, asks, calls, replies, answers);
            return;
        }
    }
    for ask in asks {
        make_one(alloc, shard, ask, answers);
    }
}

/// Makes a top-up by an append of its own. The condition: there is room for its answer.
fn make_one<R: Records>(
    alloc: Global,
    shard: &mut Shard<R>,
    ask: &TopUpAsk,
    answers: &mut Vec<TopUpAnswer>,
)
    requires room { length answers.old.items + 1 ≤ vec_capacity answers.old }
    ensures made { IsMadeOf shard.old.shard shard.new.shard (ask.now ∷ []) answers.old.items answers.new.items }
    ensures room { vec_capacity answers.old ≤ vec_capacity answers.new }
{
    same_subscribers_are_equal();
    let answer = shard.top_up(alloc, ask.sub, ask.moment, ask.ticket, ask.amount);
    answers.push_reserved(answer);
}

/// Makes top-ups of different subscribers by one append. The conditions: the calls are those of the top-ups, and there is room for their
/// replies and answers.
fn make_batch<R: Records>(
    alloc: Global,
    shard: &mut Shard<R>,
    asks: &[TopUpAsk],
    calls: Vec<Call>,
    replies: Vec<Reply>,
    answers: &mut Vec<TopUpAnswer>,
)
    requires apart { are_apart (subs_of asks.now) ≡ true }
    requires calls { calls.items ≡ map call_of asks.now }
    requires empty { replies.items ≡ [] }
    requires replies { length asks.now ≤ vec_capacity replies }
    requires room { length answers.old.items + length asks.now ≤ vec_capacity answers.old }
    ensures made { IsMadeOf shard.old.shard shard.new.shard asks.now answers.old.items answers.new.items }
    ensures room { vec_capacity answers.old ≤ vec_capacity answers.new }
{
    same_subscribers_are_equal();
    let _asks = asks;
    let mut replies = replies;
    shard.step_all(alloc, calls, &mut replies);
    add_answers(answers, replies);
}

/// Adds the answers of replies, in order. The condition: there is room for them.
fn add_answers(answers: &mut Vec<TopUpAnswer>, replies: Vec<Reply>)
    requires { length answers.old.items + length replies.items ≤ vec_capacity answers.old }
    ensures added { answers.new.items ≡ answers.old.items ++ answers_in replies.items }
    ensures room { vec_capacity answers.old ≤ vec_capacity answers.new }
{
    let mut replies = replies;
    while replies.len() > 0 {
        match replies.remove(0) {
            Reply::TopUp(answer) => answers.push_reserved(answer),
            Reply::Request(answer) => drop(answer),
            Reply::Expiry(_) => {}
        }
    }
    drop(replies);
}

/// The calls of top-ups, and an empty list with room for their replies. The only error is want of memory.
fn lists(alloc: Global, asks: &[TopUpAsk]) -> Result<(Vec<Call>, Vec<Reply>), AllocError>
    ensures calls { IfOk result (λ made. made.0.items ≡ map call_of asks.now) }
    ensures empty { IfOk result (λ made. made.1.items ≡ []) }
    ensures room { IfOk result (λ made. length asks.now ≤ vec_capacity made.1) }
{
    let mut calls = Vec::with_capacity(alloc, asks.len())?;
    for ask in asks {
        calls.push_reserved(Call::TopUp {
            sub: ask.sub,
            moment: ask.moment,
            ticket: ask.ticket,
            amount: ask.amount,
        });
    }
    let Ok(replies) = Vec::with_capacity(alloc, asks.len()) else {
        // By a call: calls that are let go in place are proved part by part.
        drop(calls);
        return Err(AllocError);
    };
    Ok((calls, replies))
}

/// The end of the batch that begins at this index: the first index behind it whose subscriber is in the batch, or at which the batch is full. The
/// condition: there is a top-up at the index.
fn batch_end(asks: &[TopUpAsk], from: usize) -> usize
    requires { from < length asks.now }
    ensures some { from < result }
    ensures within { result ≤ length asks.now }
{
    let mut end = from + 1;
    while end < asks.len() && end - from < BATCH && !is_among(&asks[end].sub, &asks[from..end]) {
        end += 1;
    }
    end
}

/// Whether the top-ups are of different subscribers.
#[tactic(auto, using(crate::proofs::Batches::any_sub))]
fn are_apart(asks: &[TopUpAsk]) -> bool
    ensures { result ≡ are_apart (subs_of asks.now) }
{
    match asks.split_first() {
        None => true,
        Some((ask, others)) => !is_among(&ask.sub, others) && are_apart(others),
    }
}

/// Whether a top-up is the subscriber's.
fn is_among(sub: &Sub, asks: &[TopUpAsk]) -> bool
    ensures { result ≡ list_any (λ ask. same_sub ask.sub sub.now) asks.now }
{
    same_subscribers_are_equal();
    asks.iter().any(|ask| ask.sub == *sub)
}
