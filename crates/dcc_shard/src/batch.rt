//! The calls of a batch: each is planned, or refused by itself; then one append makes all planned acts, or all are refused.

ghost use Rattle.std.specs.Prelude.{◌≡◌, ◌≤◌, true, false, [], length, map, vec_capacity, option_map, IfOk, OnOk};
ghost use Rattle.std.specs.List.{AllZip, AllByRecursion};
ghost use Rattle.dcc_shard.specs.Shards.{ShardView, held_in, are_apart};
ghost use Rattle.dcc_shard.specs.Batches.{sub_of};
ghost use Rattle.dcc_shard.specs.inner.Indexed.{opening, IsReady};
ghost use Rattle.dcc_shard.specs.inner.Pending.{step_of, IsPending};
ghost use Rattle.dcc_shard.specs.inner.Plans.{is_of_way, has_reply, IsJudgement, IsJudged, IsRefusal, IsFormed, IsReplied, IsPlanOf, IsPlan, IsStanding, IsInstead, IsSameWithRoom, AreMade, shard_of_books};

use crate::answers::{ExpiryAnswer, TopUpAnswer};
use crate::call::{Call, Reply};
use crate::indexed::Ready;
use crate::kept::KeptBooks;
use crate::plan::{Plan, Way};
use crate::serve::{Envelope, busy, copied, ended_by, session_of_act, told_by, write_answer};
use dcc_account::Step;
use dcc_act::{Act, Kind, SessionId, Sub, TopUp, same_subscribers_are_equal};
use dcc_message::Identity;
use dcc_model::{acts_come_to_their_own, one_more_act, places_hold};
use dcc_store::{Records, StoreFault};
use dcc_tariff::Terms;
use std::alloc::{AllocError, Global};

/// The reply by a prepared step. The only error is want of memory. The condition: there is a reply by the outcome of the step.
fn write_reply(
    alloc: Global,
    identity: &Identity,
    terms: &Terms,
    way: &Way,
    step: &Step,
) -> Result<Reply, AllocError>
    requires { has_reply step.now.outcome step.now.place step.now.is_new way.now ≡ true }
    ensures reply { IfOk result (IsJudgement identity.now terms.now step.now.outcome step.now.place step.now.is_new way.now) }
    ensures formed { IfOk result (IsFormed true) }
{
    match way {
        Way::Request { header, proxies } => {
            let envelope = Envelope {
                identity,
                header,
                proxies,
            };
            Ok(Reply::Request(write_answer(alloc, &envelope, terms, step)?))
        }
        Way::TopUp => Ok(Reply::TopUp(told_by(step).unwrap())),
        Way::Expiry => Ok(Reply::Expiry(ended_by(step).unwrap())),
    }
}

/// The reply by which a call is refused, with the session of the call.
fn refusal(alloc: Global, identity: &Identity, session: Option<&SessionId>, way: &Way) -> Reply
    ensures reply { IsRefusal identity.now (option_map (λ session. session.now) session.entry) way.now result }
    ensures formed { IsFormed false result }
{
    match way {
        Way::Request { header, proxies } => {
            let envelope = Envelope {
                identity,
                header,
                proxies,
            };
            Reply::Request(busy(alloc, &envelope, session))
        }
        Way::TopUp => Reply::TopUp(TopUpAnswer::Refused),
        Way::Expiry => Reply::Expiry(ExpiryAnswer::Refused),
    }
}

/// Prepares the step of an act, and writes the reply to it. All else stays, and all room.
fn plan_step<R: Records>(
    kept: &mut KeptBooks<R>,
    alloc: Global,
    identity: &Identity,
    number: usize,
    sub: &Sub,
    act: Act,
    way: &Way,
) -> Result<(Ready, Reply), StoreFault>
    requires { is_of_way way.now act ≡ true }
    ensures pending { IfOk result (λ planned. IsPending kept.new.books sub.now act planned.0.pending) }
    ensures ready { IfOk result (λ planned. IsReady kept.new.openers number (opening (step_of planned.0.pending)) planned.0.opens) }
    ensures reply { IfOk result (λ planned. IsJudged identity.now kept.old.books.terms (held_in kept.old.books.rows sub.now) act way.now planned.1) }
    ensures formed { IfOk result (λ planned. IsFormed true planned.1) }
    ensures stays { IsSameWithRoom kept.old kept.new }
{
    let ready = kept.prepare(alloc, sub, act, number)?;
    acts_come_to_their_own();
    places_hold();
    match write_reply(alloc, identity, kept.books().terms(), way, ready.step()) {
        Ok(reply) => Ok((ready, reply)),
        Err(_) => {
            // By a call: a step that is let go in place is proved part by part.
            drop(ready);
            Err(StoreFault::Memory)
        }
    }
}

/// The plan of an act of a subscriber. All else stays, and all room.
fn plan_act<R: Records>(
    kept: &mut KeptBooks<R>,
    alloc: Global,
    identity: &Identity,
    number: usize,
    sub: Sub,
    act: Act,
    way: Way,
) -> Plan
    requires { is_of_way way act ≡ true }
    ensures plan { IsPlanOf identity.now kept.old.books.terms (held_in kept.old.books.rows sub) sub act way result }
    ensures standing { IsStanding kept.new.books kept.new.openers number result }
    ensures stays { IsSameWithRoom kept.old kept.new }
{
    // The act is gone once it is prepared, and a refusal needs its session.
    let Ok(session) = copied(session_of_act(&act)) else {
        let reply = refusal(alloc, identity, session_of_act(&act), &way);
        // By a call, here and below: values that are let go in place are proved part by part.
        drop((act, way));
        return Plan::Refused { reply };
    };
    match plan_step(kept, alloc, identity, number, &sub, act, &way) {
        Ok((ready, reply)) => {
            drop(session);
            Plan::Step {
                sub,
                ready,
                way,
                reply,
            }
        }
        Err(_) => {
            let reply = refusal(alloc, identity, session.as_ref(), &way);
            drop((session, way));
            Plan::Refused { reply }
        }
    }
}

/// The plan of a call. All else stays, and all room.
fn plan_call<R: Records>(
    kept: &mut KeptBooks<R>,
    alloc: Global,
    identity: &Identity,
    number: usize,
    call: Call,
) -> Plan
    ensures plan { IsPlan (shard_of_books identity.now kept.old.books) call result }
    ensures standing { IsStanding kept.new.books kept.new.openers number result }
    ensures stays { IsSameWithRoom kept.old kept.new }
{
    match call {
        Call::Request {
            sub,
            act,
            header,
            proxies,
        } => {
            let way = Way::Request { header, proxies };
            plan_act(kept, alloc, identity, number, sub, act, way)
        }
        Call::TopUp {
            sub,
            moment,
            ticket,
            amount,
        } => {
            let Some(top_up) = TopUp::new(ticket, amount) else {
                return Plan::Refused {
                    reply: Reply::TopUp(TopUpAnswer::BadAmount),
                };
            };
            let act = Act {
                moment,
                kind: Kind::TopUp(top_up),
            };
            plan_act(kept, alloc, identity, number, sub, act, Way::TopUp)
        }
        Call::Expiry { sub, moment } => {
            let act = Act {
                moment,
                kind: Kind::Expiry,
            };
            plan_act(kept, alloc, identity, number, sub, act, Way::Expiry)
        }
    }
}

/// Plans each call, in order. There is room for so many new accounts, and then for so many sessions of each host of a planned step.
fn plan_all<R: Records>(
    kept: &mut KeptBooks<R>,
    alloc: Global,
    identity: &Identity,
    number: usize,
    calls: Vec<Call>,
    plans: &mut Vec<Plan>,
)
    requires empty { plans.old.items ≡ [] }
    requires room { length calls.items ≤ vec_capacity plans.old }
    ensures plans { AllZip (IsPlan (shard_of_books identity.now kept.old.books)) calls.items plans.new.items }
    ensures standing { AllByRecursion (IsStanding kept.new.books kept.new.openers number) plans.new.items }
    ensures stays { IsSameWithRoom kept.old kept.new }
{
    for call in calls {
        plans.push_reserved(plan_call(kept, alloc, identity, number, call));
    }
}

/// The reply to a call that memory or the records refuse before it is planned.
fn refuse_call(alloc: Global, identity: &Identity, call: Call) -> Reply
    ensures { (shard : ShardView) → shard.identity ≡ identity.now → IsReplied shard false call result }
{
    match call {
        Call::Request {
            act,
            header,
            proxies,
            ..
        } => {
            let way = Way::Request { header, proxies };
            let reply = refusal(alloc, identity, session_of_act(&act), &way);
            drop((act, way));
            reply
        }
        Call::TopUp { ticket, amount, .. } => match TopUp::new(ticket, amount) {
            Some(_) => Reply::TopUp(TopUpAnswer::Refused),
            None => Reply::TopUp(TopUpAnswer::BadAmount),
        },
        Call::Expiry { .. } => Reply::Expiry(ExpiryAnswer::Refused),
    }
}

/// Refuses each call, in order.
fn refuse_all(alloc: Global, identity: &Identity, calls: Vec<Call>, replies: &mut Vec<Reply>)
    requires empty { replies.old.items ≡ [] }
    requires room { length calls.items ≤ vec_capacity replies.old }
    ensures { (shard : ShardView) → shard.identity ≡ identity.now → AllZip (IsReplied shard false) calls.items replies.new.items }
{
    for call in calls {
        replies.push_reserved(refuse_call(alloc, identity, call));
    }
}

/// The reply to a planned call if the append is refused. A call without a new act keeps its reply if the records go on.
fn refuse_plan(alloc: Global, identity: &Identity, going: bool, plan: Plan) -> Reply
    ensures { IsInstead identity.now going plan result }
{
    match plan {
        Plan::Refused { reply } => reply,
        Plan::Step {
            ready,
            way,
            reply,
            ..
        } => {
            if going && !ready.step().is_new() {
                // By calls: a step and a way that are let go in place are proved part by part.
                drop(ready);
                drop(way);
                return reply;
            }
            drop(reply);
            let other = refusal(alloc, identity, session_of_act(ready.step().act()), &way);
            drop(ready);
            other
        }
    }
}

/// Refuses the planned calls, in order. A call without a new act keeps its reply if the records go on.
fn refuse_plans(
    alloc: Global,
    identity: &Identity,
    going: bool,
    plans: Vec<Plan>,
    replies: &mut Vec<Reply>,
)
    requires empty { replies.old.items ≡ [] }
    requires room { length plans.items ≤ vec_capacity replies.old }
    ensures { AllZip (IsInstead identity.now going) plans.items replies.new.items }
{
    for plan in plans {
        replies.push_reserved(refuse_plan(alloc, identity, going, plan));
    }
}

/// An empty list with room for so many plans. There is then room for so many new accounts. The errors: want of memory, and stopped records.
fn room_for<R: Records>(
    kept: &mut KeptBooks<R>,
    alloc: Global,
    number: usize,
) -> Result<Vec<Plan>, StoreFault>
    ensures empty { IfOk result (λ plans. plans.items ≡ []) }
    ensures capacity { IfOk result (λ plans. number ≤ vec_capacity plans) }
    ensures accounts { OnOk result (number ≤ kept.new.books.room) }
    ensures going { OnOk result (R.is_stopped kept.old.records ≡ false) }
    ensures stays { IsSameWithRoom kept.old kept.new }
{
    kept.make_room(number)?;
    let plans = Vec::with_capacity(alloc, number)?;
    Ok(plans)
}

/// Plans the calls, and makes all planned acts by one append, or refuses all that are new. There is room for the plans and for the
/// accounts.
fn make_planned<R: Records>(
    kept: &mut KeptBooks<R>,
    alloc: Global,
    identity: &Identity,
    calls: Vec<Call>,
    plans: Vec<Plan>,
    replies: &mut Vec<Reply>,
)
    requires apart { are_apart (map sub_of calls.items) ≡ true }
    requires going { R.is_stopped kept.old.records ≡ false }
    requires accounts { length calls.items ≤ kept.old.books.room }
    requires plans { plans.items ≡ [] }
    requires capacity { length calls.items ≤ vec_capacity plans }
    requires empty { replies.old.items ≡ [] }
    requires room { length calls.items ≤ vec_capacity replies.old }
    ensures { AreMade (shard_of_books identity.now kept.old.books) kept.new.books calls.items replies.new.items (R.may_leave kept.old.records) (R.may_leave kept.new.records)
        (R.is_stopped kept.old.records) (R.is_stopped kept.new.records) (R.faults kept.old.records) (R.faults kept.new.records) }
{
    same_subscribers_are_equal();
    one_more_act();
    let mut plans = plans;
    plan_all(kept, alloc, identity, calls.len(), calls, &mut plans);
    kept.acts_are_kept();
    match kept.commit_all(alloc, plans, replies) {
        Ok(()) => {}
        Err(plans) => {
            let going = !kept.records().is_stopped();
            refuse_plans(alloc, identity, going, plans, replies);
        }
    }
}

/// Makes calls of different subscribers by one append, and adds their replies to an empty list, in order. If memory or the records
/// refuse a part, the calls that need it are refused.
pub(crate) fn make_all<R: Records>(
    kept: &mut KeptBooks<R>,
    alloc: Global,
    identity: &Identity,
    calls: Vec<Call>,
    replies: &mut Vec<Reply>,
)
    requires apart { are_apart (map sub_of calls.items) ≡ true }
    requires empty { replies.old.items ≡ [] }
    requires room { length calls.items ≤ vec_capacity replies.old }
    ensures { AreMade (shard_of_books identity.now kept.old.books) kept.new.books calls.items replies.new.items (R.may_leave kept.old.records) (R.may_leave kept.new.records)
        (R.is_stopped kept.old.records) (R.is_stopped kept.new.records) (R.faults kept.old.records) (R.faults kept.new.records) }
{
    kept.acts_are_kept();
    match room_for(kept, alloc, calls.len()) {
        Ok(plans) => make_planned(kept, alloc, identity, calls, plans, replies),
        Err(_) => refuse_all(alloc, identity, calls, replies),
    }
}
