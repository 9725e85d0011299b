//! A shard under its lock.

ghost use Rattle.std.specs.Prelude.{◌≡◌, ◌≤◌, ◌||◌, [], true, false, is_some, length, map, vec_capacity, IfErr, OnErr, OnOk};
ghost use Rattle.std.specs.List.{AllByRecursion, list_all};
ghost use Rattle.dcc_answer.specs.declared.answer.TheConstants.{MAX_ANSWER};
ghost use Rattle.dcc_model.specs.Keys.{request_key};
ghost use Rattle.dcc_shard.specs.Answers.{IsAnswer, IsExpired, IsTold, IsToldApart, expiry_act, is_judged, is_judged_expiry, is_judged_top_up, octets_of, top_up_act};
ghost use Rattle.dcc_shard.specs.Batches.{AreReplies, BatchesLeaveOthers, IsBatch, IsReplyBounded, IsReplyToldApart, has_request_act, sub_of};
ghost use Rattle.dcc_act.specs.Subs.{SameAreEqual, same_sub};
ghost use Rattle.dcc_act.specs.declared.sub.Sub.{Sub};
ghost use Rattle.dcc_shard.specs.Shards.{IsStep, are_apart, held, is_among};
ghost use Rattle.dcc_receipts.specs.Stretches.{TrueStayTrue};
ghost use Rattle.dcc_running.specs.Audited.{HasUntold, is_true};
ghost use Rattle.dcc_running.specs.inner.Told.{told_with};
ghost use Rattle.dcc_running.specs.inner.Touches.{is_touched};
ghost use Rattle.dcc_running.specs.inner.Wards.{AreSettled, BatchesGrow, IsBeside, IsTellFault, StepsGrow, shard_in, side_in};

use crate::audit::is_true_in;
use crate::lock::{Place, Side};
use crate::naming::Naming;
use crate::opening::number_in;
use crate::told::Told;
use crate::touches::Touches;
use dcc_act::{Act, Moment, Sub, same_subscribers_are_equal};
use dcc_answer::Proxies;
use dcc_message::Header;
use dcc_model::{leaving_out_changes_nothing, one_more_act};
use dcc_receipts::{CloseFault, Receipt, true_receipts_stay_true};
use dcc_shard::{Call, ExpiryAnswer, Reply, RequestAnswer, Shard, TopUpAnswer, batches_are_steps};
use dcc_store::Records;
use std::alloc::{AllocError, Global};
use std::marker::{Model, PhantomData};

/// A shard, and the place of its lock. Its acts begin with the acts at opening, whichever calls were made since.
#[derive(Drop)]
pub(crate) struct Ward<R: Records, J: Naming> {
    place: Place,
    shard: Shard<R>,
    /// The receipts of this shard that were audited.
    told: Told,
    /// The subscribers at whom calls may have made acts that no audit has compared.
    touches: Touches,
    of: PhantomData<J>,
}

impl<R: Records, J: Naming> Model for Ward<R, J> {
    ghost use Rattle.dcc_running.specs.inner.Wards.{AreSettled, AreTold, IsBegun, WardView};

    ghost Value = { WardView R };

    ghost view = { λ w. record { shard = w.shard.shard; records = w.shard.records; place = w.place; told = w.told; touches = w.touches } };

    ghost invariant = { λ w. IsBegun J.opening w.place w.shard × AreTold J.opening w.shard w.told.receipts
        × AreSettled J.opening w.place w.shard w.touches w.told.receipts };
}

impl<R: Records, J: Naming> Ward<R, J> {
    /// A shard at this place, and the receipts that were audited. The conditions: its acts begin with the acts at opening, and the receipts are true.
    pub(crate) fn new(side: Side, shard: Shard<R>) -> Ward<R, J>
        requires { IsBeside J.opening side shard }
        ensures side { side_in result ≡ side }
        ensures shard { shard_in result ≡ shard }
    {
        let Side {
            place,
            told,
            touches,
        } = side;
        Ward {
            place,
            shard,
            told,
            touches,
            of: PhantomData,
        }
    }

    /// The shard.
    pub(crate) fn shard(&self) -> &Shard<R>
        ensures { result.now ≡ shard_in self.now }
    {
        &self.shard
    }

    /// The place, the shard and the audited receipts, moved out.
    pub(crate) fn into_parts(self) -> (Side, Shard<R>)
        ensures side { result.0 ≡ side_in self }
        ensures shard { result.1 ≡ shard_in self }
        ensures beside { IsBeside J.opening result.0 result.1 }
    {
        let Ward {
            place,
            shard,
            told,
            touches,
            of: _,
        } = self;
        (
            Side {
                place,
                told,
                touches,
            },
            shard,
        )
    }

    /// Compares a receipt that a seat has with the acts of its subscriber, of which so many were there at opening, and with those that the seat had. It keeps
    /// the receipt's place.
    ///
    /// Errors, which change nothing: [`CloseFault::Memory`]; [`CloseFault::ReceiptStray`], the receipt isn't true, or its place has another fresh receipt;
    /// [`CloseFault::OutOfOrder`], it is before a receipt of its subscriber that the seat had.
    pub(crate) fn tell(
        &mut self,
        alloc: Global,
        opened: usize,
        seat: usize,
        receipt: &Receipt,
    ) -> Result<(), CloseFault>
        requires { opened ≡ length (J.opening receipt.now.sub) }
        ensures told { OnOk result (self.new.told ≡ told_with self.old.told seat receipt.now) }
        ensures was { OnOk result (is_true self.old.shard.identity self.old.shard.terms J.opening (held self.old.shard) receipt.now ≡ true) }
        ensures same { OnErr result (self.new.told ≡ self.old.told) }
        ensures fault { IfErr result (λ fault. IsTellFault fault J.opening self.old.shard self.old.told seat receipt.now) }
        ensures shard { (self.new.shard ≡ self.old.shard) × (self.new.records ≡ self.old.records) }
        ensures place { self.new.place ≡ self.old.place }
    {
        if !is_true_in(alloc, &self.shard, opened, receipt)? {
            return Err(CloseFault::ReceiptStray);
        }
        self.told.add(seat, receipt)?;
        self.told.are_once();
        Ok(())
    }

    /// Counts a call that may make an act of this subscriber. The only error is want of memory, which changes nothing.
    pub(crate) fn touch(&mut self, sub: Sub) -> Result<(), AllocError>
        ensures touched { OnOk result ((other : Sub) → is_touched self.new.touches other ≡ (same_sub sub other || is_touched self.old.touches other)) }
        ensures same { OnErr result ((other : Sub) → is_touched self.new.touches other ≡ is_touched self.old.touches other) }
        ensures kept { (other : Sub) → is_touched self.old.touches other ≡ true → is_touched self.new.touches other ≡ true }
        ensures shard { (self.new.shard ≡ self.old.shard) × (self.new.records ≡ self.old.records) }
        ensures place { self.new.place ≡ self.old.place }
        ensures told { self.new.told ≡ self.old.told }
    {
        self.touches.add(sub)
    }

    /// Takes back a call that was counted. Behind the last call of its subscriber, who had so many acts at opening, each act since opening has to have an
    /// audited receipt: it returns whether this holds. If it doesn't, the call stays counted.
    pub(crate) fn settle(&mut self, opened: usize, sub: Sub) -> bool
        requires { opened ≡ length (J.opening sub) }
        ensures untold { result ≡ false → HasUntold J.opening self.old.shard self.old.told.receipts sub }
        ensures touches { (other : Sub) → is_touched self.new.touches other ≡ true → is_touched self.old.touches other ≡ true }
        ensures shard { (self.new.shard ≡ self.old.shard) × (self.new.records ≡ self.old.records) }
        ensures place { self.new.place ≡ self.old.place }
        ensures told { self.new.told ≡ self.old.told }
    {
        same_subscribers_are_equal();
        if !self.touches.take(sub) {
            return true;
        }
        let count = number_in(&self.shard, sub);
        if !self.told.are_told(sub, opened as u64, count as u64) {
            return false;
        }
        self.touches.remove(sub);
        true
    }

    /// Does nothing: each act since opening has exactly one fresh receipt that was audited, of each subscriber of this place of whom no call is counted.
    pub(crate) fn are_settled(&self)
        ensures { AreSettled J.opening self.now.place (shard_in self.now) self.now.touches self.now.told.receipts }
    {
        let _touches = &self.touches;
    }

    /// Makes a request's act and answers the request, as [`Shard::step`] does.
    pub(crate) fn step(
        &mut self,
        alloc: Global,
        sub: Sub,
        act: Act,
        header: &Header,
        proxies: &Proxies,
    ) -> RequestAnswer
        requires request { is_some (request_key act.kind) ≡ true }
        requires touched { is_touched self.old.touches sub ≡ true }
        ensures answer { IsAnswer self.old.shard sub act header.now proxies.now result }
        ensures step { IsStep self.old.shard self.new.shard (is_judged result) sub act }
        ensures place { self.new.place ≡ self.old.place }
        ensures told { self.new.told ≡ self.old.told }
        ensures touches { self.new.touches ≡ self.old.touches }
        ensures apart { IsToldApart result }
        ensures bounded { length (octets_of result) ≤ MAX_ANSWER }
    {
        acts_grow(&self.shard);
        self.shard.step(alloc, sub, act, header, proxies)
    }

    /// Puts money into a subscriber's account, as [`Shard::top_up`] does.
    pub(crate) fn top_up(
        &mut self,
        alloc: Global,
        sub: Sub,
        moment: Moment,
        ticket: u64,
        amount: u64,
    ) -> TopUpAnswer
        requires touched { is_touched self.old.touches sub ≡ true }
        ensures answer { IsTold self.old.shard sub moment ticket amount result }
        ensures step { IsStep self.old.shard self.new.shard (is_judged_top_up result) sub (top_up_act moment ticket amount) }
        ensures place { self.new.place ≡ self.old.place }
        ensures told { self.new.told ≡ self.old.told }
        ensures touches { self.new.touches ≡ self.old.touches }
    {
        acts_grow(&self.shard);
        self.shard.top_up(alloc, sub, moment, ticket, amount)
    }

    /// Ends the subscriber's sessions that are due, as [`Shard::expire`] does.
    pub(crate) fn expire(&mut self, alloc: Global, sub: Sub, moment: Moment) -> ExpiryAnswer
        requires touched { is_touched self.old.touches sub ≡ true }
        ensures answer { IsExpired self.old.shard sub moment result }
        ensures step { IsStep self.old.shard self.new.shard (is_judged_expiry result) sub (expiry_act moment) }
        ensures place { self.new.place ≡ self.old.place }
        ensures told { self.new.told ≡ self.old.told }
        ensures touches { self.new.touches ≡ self.old.touches }
    {
        acts_grow(&self.shard);
        self.shard.expire(alloc, sub, moment)
    }

    /// Makes calls of different subscribers by one append, as [`Shard::step_all`] does.
    pub(crate) fn step_all(&mut self, alloc: Global, calls: Vec<Call>, replies: &mut Vec<Reply>)
        requires apart { are_apart (map sub_of calls.items) ≡ true }
        requires requests { list_all has_request_act calls.items ≡ true }
        requires touched { (sub : Sub) → is_among sub (map sub_of calls.items) ≡ true → is_touched self.old.touches sub ≡ true }
        requires empty { replies.old.items ≡ [] }
        requires room { length calls.items ≤ vec_capacity replies.old }
        ensures replies { AreReplies self.old.shard calls.items replies.new.items }
        ensures batch { IsBatch self.old.shard self.new.shard calls.items replies.new.items }
        ensures place { self.new.place ≡ self.old.place }
        ensures told { self.new.told ≡ self.old.told }
        ensures touches { self.new.touches ≡ self.old.touches }
        ensures apart { AllByRecursion IsReplyToldApart replies.new.items }
        ensures bounded { AllByRecursion IsReplyBounded replies.new.items }
    {
        acts_grow(&self.shard);
        self.shard.step_all(alloc, calls, replies)
    }
}

/// Does nothing: steps and batches of a shard only add acts.
fn acts_grow<R: Records>(shard: &Shard<R>)
    ensures steps { StepsGrow shard.now.shard }
    ensures batches { BatchesGrow shard.now.shard }
    ensures stay { TrueStayTrue }
    ensures same { SameAreEqual }
    ensures others { BatchesLeaveOthers }
{
    batches_are_steps();
    true_receipts_stay_true();
    same_subscribers_are_equal();
    one_more_act();
    leaving_out_changes_nothing();
    shard.acts_are_own();
}
