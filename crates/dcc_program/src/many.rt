//! `dcc topup PLAN DIR --from FILE`, over the plan's reader, the reader of the top-ups, and the stores of a folder.

ghost use Rattle.std.specs.Prelude.{◌≡◌, ◌<◌, ℕ, List, Option, None, IfErr, IfOk, OnOk};
ghost use Rattle.dcc_program.specs.Plans.{IsPlanOf};
ghost use Rattle.dcc_program.specs.TopUps.{AreMade, AreMadeIn, AreMadeUpTo, IsStoreEnd, IsTopUpsFailure, own_asks};
ghost use Rattle.dcc_replay.specs.Names.{identity_of};

use crate::command_line::TopUpsAsk;
use crate::failure::Failure;
use crate::plan_file::plan_from;
use dcc_act::Moment;
use dcc_message::Identity;
use dcc_operator::{TopUpAsk, read_asks, top_ups_in};
use dcc_replay::identity_of;
use dcc_shard::shard_of;
use dcc_startup::Stores;
use dcc_streams::{MOST_READS, read_all};
use dcc_tariff::Plan;
use std::alloc::{AllocError, Global};
use std::fs;
use std::hash::RandomState;
use std::io::{Read, Write};
use std::random::RandomSource;
use std::rt::Files;

/// Makes the top-ups of a file, or of the input, over the stores of a folder, under the plan of a file. A top-up whose line has no moment is at `now`.
/// It writes as [`top_ups`] does.
pub fn top_ups_at<F: Files + RandomSource + AllocGlobal, S: Stores, R: Read, W: Write>(
    rt: &F,
    stores: &S,
    ask: &TopUpsAsk<'_>,
    now: Moment,
    input: &mut R,
    output: &mut W,
) -> Result<(), Failure>
    ensures failure { IfErr result (IsTopUpsFailure None None now) }
{
    let alloc = rt.alloc();
    let (place, hasher) = (ask.place, RandomState::new(rt)?);
    let mut file = fs::open(rt, place.plan)?;
    if ask.from == "-" {
        return top_ups(
            alloc,
            &mut file,
            stores,
            place.folder,
            input,
            now,
            output,
            hasher,
        );
    }
    let mut text = fs::open(rt, ask.from)?;
    top_ups(
        alloc,
        &mut file,
        stores,
        place.folder,
        &mut text,
        now,
        output,
        hasher,
    )
}

/// Makes the top-ups of a text under the plan that the file gives, shard by shard. Each store is opened once, or made if it is missing; a shard without
/// top-ups is not opened. Behind the top-ups of a shard it writes their lines, in the order of the text.
///
/// The plan is judged first, then the text, then the stores. If a store fails, the lines of the shards before it are written, and their top-ups stand. If
/// the writer fails, a beginning of the lines is written.
pub fn top_ups<P: Read, T: Read, S: Stores, W: Write>(
    alloc: Global,
    file: &mut P,
    stores: &S,
    folder: &str,
    text: &mut T,
    now: Moment,
    output: &mut W,
    hasher: RandomState,
) -> Result<(), Failure>
    ensures whole { OnOk result (AreMade (S.opens stores.now folder.now) S.Records.may_leave (P.remaining file.old) (T.remaining text.old) now
        (W.contents output.old) (W.contents output.new)) }
    ensures failure { IfErr result (IsTopUpsFailure (P.remaining file.old) (T.remaining text.old) now) }
{
    let plan = plan_from(alloc, file)?;
    let made = top_ups_under(alloc, stores, folder, &plan, text, now, output, hasher);
    // By a call: a plan that is let go in place is proved part by part.
    drop(plan);
    made
}

/// Makes the top-ups of a text under a plan, whichever file gave the plan.
fn top_ups_under<T: Read, S: Stores, W: Write>(
    alloc: Global,
    stores: &S,
    folder: &str,
    plan: &Plan,
    text: &mut T,
    now: Moment,
    output: &mut W,
    hasher: RandomState,
) -> Result<(), Failure>
    ensures whole { (file : Option (List ℕ)) → IsPlanOf file plan.now → OnOk result (AreMade (S.opens stores.now folder.now) S.Records.may_leave file (T.remaining text.old) now
        (W.contents output.old) (W.contents output.new)) }
    ensures failure { (file : Option (List ℕ)) → IsPlanOf file plan.now → IfErr result (IsTopUpsFailure file (T.remaining text.old) now) }
{
    let octets = read_all(alloc, text, MOST_READS)?;
    let asks = read_asks(alloc, octets.as_slice(), now)?;
    let identity = identity_of(alloc, plan)?;
    let made = make_all(
        alloc,
        stores,
        folder,
        plan,
        &identity,
        asks.as_slice(),
        output,
        hasher,
    );
    // By a call: names that are let go in place are proved part by part.
    drop(identity);
    made
}

/// Makes top-ups in all shards of a plan, one after another.
fn make_all<S: Stores, W: Write>(
    alloc: Global,
    stores: &S,
    folder: &str,
    plan: &Plan,
    identity: &Identity,
    asks: &[TopUpAsk],
    output: &mut W,
    hasher: RandomState,
) -> Result<(), Failure>
    ensures whole { OnOk result (AreMadeUpTo (AreMadeIn (S.opens stores.now folder.now plan.now) S.Records.may_leave plan.now.terms identity.now plan.now.shards asks.now)
        plan.now.shards (W.contents output.old) (W.contents output.new)) }
    ensures failure { IfErr result IsStoreEnd }
{
    for index in 0..usize::from(plan.shards()) {
        make_in(
            alloc, stores, folder, plan, identity, asks, index, output, hasher,
        )?;
    }
    Ok(())
}

/// Makes the top-ups of the subscribers of one shard.
fn make_in<S: Stores, W: Write>(
    alloc: Global,
    stores: &S,
    folder: &str,
    plan: &Plan,
    identity: &Identity,
    asks: &[TopUpAsk],
    index: usize,
    output: &mut W,
    hasher: RandomState,
) -> Result<(), Failure>
    ensures whole { OnOk result (AreMadeIn (S.opens stores.now folder.now plan.now) S.Records.may_leave plan.now.terms identity.now plan.now.shards asks.now
        index (W.contents output.old) (W.contents output.new)) }
    ensures failure { IfErr result IsStoreEnd }
{
    let own = own_asks(alloc, asks, index, usize::from(plan.shards()))?;
    if own.len() == 0 {
        return Ok(());
    }
    match top_ups_in(
        alloc,
        stores,
        folder,
        plan,
        identity,
        index,
        own.as_slice(),
        output,
        hasher,
    ) {
        Ok(()) => Ok(()),
        Err(fault) => Err(Failure::from(fault)),
    }
}

/// The top-ups of the subscribers of one shard, in order. The only error is want of memory.
fn own_asks(
    alloc: Global,
    asks: &[TopUpAsk],
    index: usize,
    count: usize,
) -> Result<Vec<TopUpAsk>, AllocError>
    requires { 0 < count }
    ensures { IfOk result (λ own. own.items ≡ own_asks count index asks.now) }
{
    asks.iter()
        .copied()
        .filter(|ask| shard_of(&ask.sub, count) == index)
        .collect(alloc)
}
