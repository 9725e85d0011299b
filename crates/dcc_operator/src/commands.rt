//! Commands over the stores in a folder.

ghost use Rattle.std.specs.Prelude.{◌≡◌, ◌≢◌, ℕ, Bool, false, IfOk, IfErr, IfSome, IfNone, IsSomeAnd, option_map};
ghost use Rattle.std.specs.Io.KnownBytes.{Keeps};
ghost use Rattle.dcc_store.specs.Stops.{LeavesOnly};
ghost use Rattle.dcc_shard.specs.Answers.{top_up_act};
ghost use Rattle.dcc_shard.specs.Routes.{shard_of};
ghost use Rattle.dcc_shard.specs.Shards.{ShardView, held, IsStep};
ghost use Rattle.dcc_shard.specs.Stored.{StoredView};
ghost use Rattle.dcc_operator.specs.Commands.{IsToppedUp, IsToppedUpBegun, IsRefused, IsShown, IsShownBegun};
ghost use Rattle.dcc_startup.specs.Openings.{IsOpenedOver, IsUnusable};
ghost use Rattle.dcc_operator.specs.declared.fault.OperatorFault.TheVariants.{Output, Store};

use crate::fault::OperatorFault;
use crate::ledger::{page_run, unknown_run};
use crate::page::Page;
use crate::top_up::top_up_run;
use dcc_act::{Moment, Sub};
use dcc_message::Identity;
use dcc_shard::{Shard, shard_of};
use dcc_startup::{StoreRefusal, Stores, shard_or_back, shard_over};
use dcc_tariff::Plan;
use std::alloc::Global;
use std::hash::RandomState;
use std::io::Write;

/// A top-up that is asked for.
#[derive(Clone, Copy, Debug, PartialEq, Eq)]
pub struct TopUpAsk {
    pub sub: Sub,
    /// What tells it from the other top-ups of its subscriber.
    pub ticket: u64,
    /// In minor units.
    pub amount: u64,
    pub moment: Moment,
}

/// Opens the store of the subscriber's shard alone, or makes it where there is none, makes the top-up, and writes in one word and a
/// line feed what it was told. It gives the shard. Where it gives none, the records are handed back, and only a top-up that was told is in them.
///
/// Errors: [`OperatorFault::Store`], nothing is written, and the top-up isn't made: without records the store wasn't opened, and those that
/// are handed back are as opening gave them; [`OperatorFault::Output`], a beginning is written, and the top-up stands as it was told.
pub fn top_up_in<S: Stores, W: Write>(
    alloc: Global,
    stores: &S,
    folder: &str,
    plan: &Plan,
    identity: &Identity,
    ask: TopUpAsk,
    output: &mut W,
    hasher: RandomState,
) -> Result<Shard<S::Records>, (OperatorFault, Option<S::Records>)>
    ensures done { IfOk result (λ shard. IsToppedUp plan.now identity.now ask shard.shard (W.contents output.old) (W.contents output.new)) }
    // What was told is in the records, and a stop leaves it and nothing else.
    ensures left { IfOk result (λ shard. S.Records.is_stopped shard.records ≡ false
        → LeavesOnly shard.shard.terms (held shard.shard) (S.Records.may_leave shard.records)) }
    // The store is that of the subscriber's shard, and this top-up is all that was made in it.
    ensures opened { IfOk result (λ shard. (before : StoredView S.Records) × (judged : Bool)
        × IsOpenedOver (S.opens stores.now folder.now plan.now (shard_of ask.sub plan.now.shards)) S.Records.may_leave before
        × IsStep before.shard shard.shard judged ask.sub (top_up_act ask.moment ask.ticket ask.amount)) }
    // Where the output didn't fail, nothing was made, and the fault is the store's.
    ensures refused { IfErr result (λ failed. failed.0 ≢ Output → IsRefused (S.refuses stores.now folder.now plan.now (shard_of ask.sub plan.now.shards))
        (S.opens stores.now folder.now plan.now (shard_of ask.sub plan.now.shards)) S.Records.may_leave S.Records.is_stopped (shard_of ask.sub plan.now.shards) plan.now.shards failed.0 failed.1) }
    // Where it failed, the records are handed back with what was told.
    ensures stands { IfErr result (λ failed. failed.0 ≡ Output → IsSomeAnd failed.1 (λ records. (after : ShardView) × IsToppedUpBegun plan.now identity.now ask after
        (W.contents output.old) (W.contents output.new) × (S.Records.is_stopped records ≡ false → LeavesOnly after.terms (held after) (S.Records.may_leave records)))) }
    ensures silent { IfErr result (λ failed. failed.0 ≢ Output → Keeps (W.contents output.old) (W.contents output.new)) }
{
    let count = usize::from(plan.shards());
    let index = shard_of(&ask.sub, count);
    let records = match opened_or_made(stores, folder, plan, index, hasher) {
        Ok(records) => records,
        Err(refusal) => return Err((OperatorFault::from(refusal), None)),
    };
    let mut shard = match shard_or_back(alloc, identity, records, index, count, hasher) {
        Ok(shard) => shard,
        Err((refusal, records)) => return Err((OperatorFault::from(refusal), Some(records))),
    };
    let (_answer, written) = top_up_run(
        alloc, &mut shard, ask.sub, ask.moment, ask.ticket, ask.amount, output,
    );
    match written {
        Ok(()) => Ok(shard),
        Err(fault) => Err((OperatorFault::from(fault), Some(shard.into_records()))),
    }
}

/// The records of a shard. If there is no store of the shard, the stores beside it are looked at before it is made.
fn opened_or_made<S: Stores>(
    stores: &S,
    folder: &str,
    plan: &Plan,
    shard: usize,
    hasher: RandomState,
) -> Result<S::Records, StoreRefusal>
    ensures terms { IfOk result (λ records. S.Records.terms records ≡ plan.now.terms) }
    ensures given { IfOk result (S.opens stores.now folder.now plan.now shard) }
    ensures refused { IfErr result (λ refusal. S.refuses stores.now folder.now plan.now shard refusal.0) }
{
    stores.look_beside(folder, plan, shard, hasher)?;
    stores.open_or_make(folder, plan, shard, hasher)
}

/// Writes a page of a subscriber, from the store of its shard; or, where there is no such store, that its account is unknown. No
/// store is made. It gives the shard, where there is one.
///
/// Errors: as of [`page_run`]; [`OperatorFault::Store`], and nothing is written.
pub fn page_in<S: Stores, W: Write>(
    alloc: Global,
    stores: &S,
    folder: &str,
    plan: &Plan,
    identity: &Identity,
    page: Page,
    sub: Sub,
    output: &mut W,
    hasher: RandomState,
) -> Result<Option<Shard<S::Records>>, OperatorFault>
    ensures done { IfOk result (λ shard. IsShown page plan.now identity.now sub (option_map (λ stored. stored.shard) shard) (W.contents output.old) (W.contents output.new)) }
    // The store is that of the subscriber's shard, and nothing was made in it.
    ensures opened { IfOk result (λ shard. IfSome shard
        (IsOpenedOver (S.opens stores.now folder.now plan.now (shard_of sub plan.now.shards)) S.Records.may_leave)) }
    // None is given only where there is no such store.
    ensures none { IfOk result (λ shard. IfNone shard (S.lacks stores.now folder.now plan.now (shard_of sub plan.now.shards))) }
    ensures refused { IfErr result (λ fault. (number : ℕ) → fault ≡ Store number
        → IsUnusable (S.refuses stores.now folder.now plan.now (shard_of sub plan.now.shards)) (S.opens stores.now folder.now plan.now (shard_of sub plan.now.shards))
        S.Records.may_leave S.Records.is_stopped (shard_of sub plan.now.shards) plan.now.shards number) }
    ensures silent { IfErr result (λ fault. fault ≢ Output → Keeps (W.contents output.old) (W.contents output.new)) }
    ensures part { IfErr result (λ fault. fault ≡ Output → IsShownBegun page plan.now identity.now sub (W.contents output.old) (W.contents output.new)) }
{
    let count = usize::from(plan.shards());
    let index = shard_of(&sub, count);
    stores.look_beside(folder, plan, index, hasher)?;
    let Some(records) = stores.open(folder, plan, index, hasher)? else {
        unknown_run(alloc, sub, output)?;
        return Ok(None);
    };
    let shard = shard_over(alloc, identity, records, index, count, hasher)?;
    match page_run(alloc, &shard, page, sub, output) {
        Ok(()) => Ok(Some(shard)),
        Err(fault) => {
            // By a call: a shard that is let go in place is proved part by part.
            drop(shard);
            Err(fault)
        }
    }
}
