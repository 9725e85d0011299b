//! The top-ups of one shard's subscribers, over the store of the shard.

ghost use Rattle.std.specs.Prelude.{◌≡◌, ◌≢◌, ◌++◌, ◌<◌, ℕ, List, OnOk, IfOk, IfErr, length};
ghost use Rattle.std.specs.Io.KnownBytes.{Appends, Keeps};
ghost use Rattle.dcc_shard.specs.declared.answers.TopUpAnswer.{TopUpAnswer};
ghost use Rattle.dcc_startup.specs.Openings.{IsStarted, IsUnusable};
ghost use Rattle.dcc_operator.specs.Many.{AreToppedUpIn, line_for, lines_for};
ghost use Rattle.dcc_operator.specs.Texts.{IsBegun};
ghost use Rattle.dcc_operator.specs.declared.fault.OperatorFault.TheVariants.{Output, Store};

use crate::commands::TopUpAsk;
use crate::fault::OperatorFault;
use crate::many::top_up_each;
use dcc_message::Identity;
use dcc_shard::{Shard, TopUpAnswer};
use dcc_startup::{StoreRefusal, Stores, shard_at};
use dcc_streams::write_all;
use dcc_tariff::Plan;
use std::alloc::{AllocError, Global};
use std::hash::RandomState;
use std::io::Write;

/// Opens the store of the shard with this index, or makes the store if there is none. It makes the top-ups there, one after another, and then writes
/// a line for each: the subscriber, the ticket, and the word of the answer. The condition: the plan has such a shard.
///
/// Errors: [`OperatorFault::Store`], no top-up is made, and nothing is written; [`OperatorFault::Memory`], nothing is written, and the top-ups may be
/// made: a repeat returns their answers; [`OperatorFault::Output`], a beginning of the lines is written, and the top-ups stand.
pub fn top_ups_in<S: Stores, W: Write>(
    alloc: Global,
    stores: &S,
    folder: &str,
    plan: &Plan,
    identity: &Identity,
    index: usize,
    asks: &[TopUpAsk],
    output: &mut W,
    hasher: RandomState,
) -> Result<(), OperatorFault>
    ensures done { OnOk result (AreToppedUpIn (S.opens stores.now folder.now plan.now) S.Records.may_leave plan.now.terms identity.now plan.now.shards index asks.now
        (W.contents output.old) (W.contents output.new)) }
    ensures refused { IfErr result (λ fault. (number : ℕ) → fault ≡ Store number
        → IsUnusable (S.refuses stores.now folder.now plan.now index) (S.opens stores.now folder.now plan.now index)
        S.Records.may_leave S.Records.is_stopped index plan.now.shards number) }
    ensures silent { IfErr result (λ fault. fault ≢ Output → Keeps (W.contents output.old) (W.contents output.new)) }
    ensures part { IfErr result (λ fault. fault ≡ Output → (answers : List TopUpAnswer) × IsBegun (lines_for asks.now answers) (W.contents output.old) (W.contents output.new)) }
{
    let mut answers = Vec::with_capacity(alloc, asks.len())?;
    let mut shard = match opened_shard(alloc, stores, folder, plan, identity, index, hasher) {
        Ok(shard) => shard,
        Err(refusal) => return Err(OperatorFault::from(refusal)),
    };
    top_up_each(alloc, &mut shard, asks, &mut answers);
    // By a call: a shard that is let go in place is proved part by part.
    drop(shard);
    let text = text_for(alloc, asks, answers.as_slice())?;
    write_all(output, text.as_slice())?;
    Ok(())
}

/// The shard of this index, over its store. If there is no store, the stores beside it are looked at before it is made.
fn opened_shard<S: Stores>(
    alloc: Global,
    stores: &S,
    folder: &str,
    plan: &Plan,
    identity: &Identity,
    index: usize,
    hasher: RandomState,
) -> Result<Shard<S::Records>, StoreRefusal>
    ensures started { IfOk result (IsStarted (S.opens stores.now folder.now plan.now) S.Records.may_leave plan.now.terms identity.now plan.now.shards index) }
    ensures refused { IfErr result (λ refusal. IsUnusable (S.refuses stores.now folder.now plan.now index)
        (S.opens stores.now folder.now plan.now index) S.Records.may_leave S.Records.is_stopped index plan.now.shards refusal.0) }
{
    stores.look_beside(folder, plan, index, hasher)?;
    shard_at(alloc, stores, folder, plan, identity, index, hasher)
}

/// The lines of top-ups with these answers. The condition: each top-up has an answer. The only error is want of memory.
fn text_for(
    alloc: Global,
    asks: &[TopUpAsk],
    answers: &[TopUpAnswer],
) -> Result<Vec<u8>, AllocError>
    requires { length answers.now ≡ length asks.now }
    ensures { IfOk result (λ text. text.items ≡ lines_for asks.now answers.now) }
{
    let mut text = Vec::new(alloc);
    for i in 0..asks.len() {
        put_line(&mut text, alloc, &asks[i], answers[i])?;
    }
    Ok(text)
}

/// Adds the line of a top-up with this answer.
fn put_line(
    text: &mut Vec<u8>,
    alloc: Global,
    ask: &TopUpAsk,
    answer: TopUpAnswer,
) -> Result<(), AllocError>
    ensures { OnOk result (text.new.items ≡ text.old.items ++ line_for ask.now answer) }
{
    let (kind, ticket) = (ask.sub.kind(), ask.ticket);
    let head = format!(in alloc; "{kind}:")?;
    let number = format!(in alloc; " {ticket} ")?;
    text.extend_from_slice(head.as_bytes())?;
    text.extend_from_slice(ask.sub.name())?;
    text.extend_from_slice(number.as_bytes())?;
    text.extend_from_slice(answer.word().as_bytes())?;
    text.extend_from_slice(b"\n")
}
