//! The books, and the records that keep their acts: an act, or the acts of a batch, are appended to the records, and then installed in
//! the books.

ghost use Rattle.std.specs.Prelude.{◌≡◌, ◌≢◌, ◌≤◌, ◌+◌, true, false, [], length, map, vec_capacity, Err, OnOk, OnErr, IfOk, IfErr};
ghost use Rattle.std.specs.List.{AllByRecursion};
ghost use Rattle.dcc_model.specs.Outcomes.{acts, was_opened_from};
ghost use Rattle.dcc_act.specs.declared.sub.Sub.{Sub};
ghost use Rattle.dcc_openers.specs.Openers.{KeepsRoom};
ghost use Rattle.dcc_store.specs.Batches as batches;
ghost use Rattle.dcc_store.specs.Batches.{subs_of, with_all, acts_of, AreNext};
ghost use Rattle.dcc_store.specs.Books.{Held};
ghost use Rattle.dcc_store.specs.Contents.{Content};
ghost use Rattle.dcc_store.specs.Stops.{LeavesOnly, LeavesEither};
ghost use Rattle.dcc_store.specs.declared.fault.StoreFault.TheVariants.{Device};
ghost use Rattle.dcc_shard.specs.Openers.{IsFound};
ghost use Rattle.dcc_shard.specs.Shards.{held_in, are_apart};
ghost use Rattle.dcc_shard.specs.Stored.{IsKept, LeavesHeld, LeavesBatch, held_then_all};
ghost use Rattle.dcc_shard.specs.inner.Books.{IsStepOfBooks};
ghost use Rattle.dcc_shard.specs.inner.Indexed.{opening, IsReady};
ghost use Rattle.dcc_shard.specs.inner.Pending.{step_of, IsPending};
ghost use Rattle.dcc_shard.specs.inner.Plans.{IsStanding, steps_in, subs_in, additions_in, reply_in, IsSameWithRoom};

use crate::books::Books;
use crate::call::Reply;
use crate::indexed::{IndexedBooks, Ready};
use crate::plan::{Plan, collect};
use dcc_act::{Act, SessionId, Sub, same_subscribers_are_equal};
use dcc_model::{leaving_out_changes_nothing, one_more_act};
use dcc_octets::Host;
use dcc_openers::Found;
use dcc_store::{
    Records, StoreFault, acts_stand_apart, batches_come_next, batches_stand_apart,
    content_has_one_book, new_acts_come_next,
};
use dcc_tariff::Terms;
use std::alloc::Global;
use std::marker::Model;

/// The books of a shard, and the records that keep their acts under the same terms. If the records are not stopped, a stop leaves
/// exactly the acts that the books hold. If they are stopped, it leaves these, or these and the acts of the append on which they failed.
#[derive(Drop)]
pub(crate) struct KeptBooks<R: Records> {
    books: IndexedBooks,
    records: R,
}

impl<R: Records> Model for KeptBooks<R> {
    ghost use Rattle.std.specs.Prelude.{◌≡◌, ◌≤◌, true, false};
    ghost use Rattle.dcc_store.specs.Stops.{LeavesOnly};
    ghost use Rattle.dcc_shard.specs.Shards.{held_in};
    ghost use Rattle.dcc_shard.specs.Stored.{LeavesBatch};
    ghost use Rattle.dcc_shard.specs.inner.Books.{KeptView};

    ghost Value = { KeptView R };

    ghost view = { λ k. record { books = k.books.books; openers = k.books.openers; records = k.records } };

    ghost invariant = { λ k. (R.terms k.records ≡ k.books.books.terms)
        × (R.is_stopped k.records ≡ false → LeavesOnly k.books.books.terms (held_in k.books.books.rows) (R.may_leave k.records))
        × (R.is_stopped k.records ≡ true → LeavesBatch k.books.books.terms (held_in k.books.books.rows) (R.may_leave k.records)) };
}

impl<R: Records> KeptBooks<R> {
    /// These books with the records that keep them. The records are not stopped.
    pub(crate) fn of(books: IndexedBooks, records: R) -> KeptBooks<R>
        requires terms { R.terms records ≡ books.books.terms }
        requires going { R.is_stopped records ≡ false }
        requires kept { LeavesOnly books.books.terms (held_in books.books.rows) (R.may_leave records) }
        ensures books { result.books ≡ books.books }
        ensures records { result.records ≡ records }
    {
        KeptBooks { books, records }
    }

    /// The books.
    pub(crate) fn books(&self) -> &Books
        ensures { result.now ≡ self.now.books }
    {
        self.books.books()
    }

    /// Who opened the session from the host, by the held acts. It takes no memory.
    pub(crate) fn find(&self, host: &Host, sid: &SessionId) -> Found
        ensures { IsFound (λ sub. was_opened_from self.now.books.terms (held_in self.now.books.rows sub) host.now sid.now) result }
    {
        self.books.find(host, sid)
    }

    /// The records.
    pub(crate) fn records(&self) -> &R
        ensures { result.now ≡ self.now.records }
    {
        &self.records
    }

    /// The records, moved out.
    pub(crate) fn into_records(self) -> R
        ensures { result ≡ self.records }
    {
        let KeptBooks { books, records } = self;
        // By a call: books that are let go in place are proved part by part.
        drop(books);
        records
    }

    /// Does nothing. The records are under the terms of the books, and the held acts of each subscriber are exactly those that their own
    /// list makes. A stop leaves exactly the held acts; if the records are stopped, it leaves at most one act more of each subscriber.
    pub(crate) fn acts_are_kept(&self)
        ensures own { (sub : Sub) → acts self.now.books.terms (held_in self.now.books.rows sub) ≡ held_in self.now.books.rows sub }
        ensures terms { R.terms self.now.records ≡ self.now.books.terms }
        ensures kept { R.is_stopped self.now.records ≡ false
            → LeavesOnly self.now.books.terms (held_in self.now.books.rows) (R.may_leave self.now.records) }
        ensures beyond { R.is_stopped self.now.records ≡ true
            → LeavesBatch self.now.books.terms (held_in self.now.books.rows) (R.may_leave self.now.records) }
        ensures left { LeavesHeld (held_in self.now.books.rows) (R.may_leave self.now.records) }
    {
        same_subscribers_are_equal();
        one_more_act();
        self.books.acts_are_own();
    }

    /// Takes the memory for this number of further accounts, unless the records are stopped. The errors: want of memory, and stopped records.
    pub(crate) fn make_room(&mut self, number: usize) -> Result<(), StoreFault>
        ensures room { OnOk result (number ≤ self.new.books.room) }
        ensures going { OnOk result (R.is_stopped self.old.records ≡ false) }
        ensures stays { IsSameWithRoom self.old self.new }
    {
        if self.records.is_stopped() {
            return Err(StoreFault::Stopped);
        }
        self.books.make_room(number)?;
        Ok(())
    }

    /// Prepares an act of a subscriber, unless the records are stopped. If the act opens a session from a host, there is then room for this
    /// number of sessions of the host. The errors: want of memory, and stopped records. All room stays, also after an error.
    pub(crate) fn prepare(
        &mut self,
        alloc: Global,
        sub: &Sub,
        act: Act,
        number: usize,
    ) -> Result<Ready, StoreFault>
        ensures pending { IfOk result (λ ready. IsPending self.new.books sub.now act ready.pending) }
        ensures ready { IfOk result (λ ready. IsReady self.new.openers number (opening (step_of ready.pending)) ready.opens) }
        ensures going { OnOk result (R.is_stopped self.old.records ≡ false) }
        ensures terms { self.new.books.terms ≡ self.old.books.terms }
        ensures rows { self.new.books.rows ≡ self.old.books.rows }
        ensures room { self.old.books.room ≤ self.new.books.room }
        ensures openers { KeepsRoom self.old.openers self.new.openers }
        ensures records { self.new.records ≡ self.old.records }
    {
        if self.records.is_stopped() {
            // By a call: an act that is let go in place is proved part by part.
            drop(act);
            return Err(StoreFault::Stopped);
        }
        let ready = self.books.prepare(alloc, sub, act, number, 0)?;
        Ok(ready)
    }

    /// Appends the act of a prepared step to the records if the act is new, and installs the step. After an error the books are as before.
    pub(crate) fn commit(&mut self, sub: Sub, ready: Ready) -> Result<(), StoreFault>
        requires pending { IsPending self.old.books sub (step_of ready.pending).act ready.pending }
        requires ready { IsReady self.old.openers 1 (opening (step_of ready.pending)) ready.opens }
        requires going { R.is_stopped self.old.records ≡ false }
        ensures ok { OnOk result (IsStepOfBooks self.old.books self.new.books sub (step_of ready.pending).act) }
        ensures going { OnOk result (R.is_stopped self.new.records ≡ R.is_stopped self.old.records) }
        ensures err { OnErr result (self.new.books.rows ≡ self.old.books.rows) }
        ensures terms { self.new.books.terms ≡ self.old.books.terms }
        ensures kept { IsKept self.old.books.terms (held_in self.old.books.rows) sub (step_of ready.pending).act
            (R.may_leave self.old.records) (R.may_leave self.new.records) (R.is_stopped self.old.records) (R.is_stopped self.new.records)
            (R.faults self.old.records) (R.faults self.new.records) }
    {
        one_more_act();
        leaving_out_changes_nothing();
        same_subscribers_are_equal();
        new_acts_come_next();
        acts_stand_apart();
        content_has_one_book();
        self.books.acts_are_own();
        let step = ready.step();
        if step.is_new() {
            match self.records.append(sub, step.act(), step.entries()) {
                Ok(()) => {}
                Err(fault) => {
                    // By a call: a step that is let go in place is proved part by part.
                    drop(ready);
                    return Err(fault);
                }
            }
        }
        self.books.install(sub, ready);
        Ok(())
    }

    /// Appends the new acts of the planned steps to the records, all or none, installs the steps, and adds the replies to an empty list, in
    /// order. If memory or the records refuse the append, the plans are handed back; then the books are as before.
    pub(crate) fn commit_all(
        &mut self,
        alloc: Global,
        plans: Vec<Plan>,
        replies: &mut Vec<Reply>,
    ) -> Result<(), Vec<Plan>>
        requires standing { AllByRecursion (IsStanding self.old.books self.old.openers (length plans.items)) plans.items }
        requires accounts { length plans.items ≤ self.old.books.room }
        requires apart { are_apart (subs_in plans.items) ≡ true }
        requires going { R.is_stopped self.old.records ≡ false }
        requires empty { replies.old.items ≡ [] }
        requires room { length plans.items ≤ vec_capacity replies.old }
        ensures held { OnOk result ((sub : Sub) → held_in self.new.books.rows sub
            ≡ held_then_all self.old.books.terms (steps_in plans.items) (held_in self.old.books.rows) sub) }
        ensures replies { OnOk result (replies.new.items ≡ map reply_in plans.items) }
        ensures going { OnOk result (R.is_stopped self.new.records ≡ false) }
        ensures err { OnErr result (self.new.books.rows ≡ self.old.books.rows) }
        ensures back { IfErr result (λ back. back.items ≡ plans.items) }
        ensures untouched { OnErr result (replies.new ≡ replies.old) }
        ensures terms { self.new.books.terms ≡ self.old.books.terms }
        ensures crash { LeavesEither self.old.books.terms (held_in self.old.books.rows)
            (held_then_all self.old.books.terms (steps_in plans.items) (held_in self.old.books.rows)) (R.may_leave self.new.records) }
        ensures faults { R.faults self.new.records ≡ R.faults self.old.records → R.is_stopped self.new.records ≡ false }
    {
        one_more_act();
        same_subscribers_are_equal();
        new_acts_come_next();
        batches_stand_apart();
        batches_come_next();
        content_has_one_book();
        self.books.acts_are_own();
        match append_plans(&mut self.records, alloc, &plans) {
            Ok(()) => {
                self.books.install_all(plans, replies);
                Ok(())
            }
            Err(_) => Err(plans),
        }
    }
}

/// Appends the new acts of planned steps to the records, all or none. Without a new act nothing is appended.
fn append_plans<R: Records>(
    records: &mut R,
    alloc: Global,
    plans: &[Plan],
) -> Result<(), StoreFault>
    requires apart { batches.are_apart (subs_of (additions_in plans.now)) ≡ true }
    requires next { R.is_stopped records.old ≡ false
        → (found : Content) → R.may_leave records.old found → AreNext (R.terms records.old) (additions_in plans.now) (acts_of found) }
    ensures terms { R.terms records.new ≡ R.terms records.old }
    ensures stored { (held : Held) → LeavesOnly (R.terms records.old) held (R.may_leave records.old)
        → OnOk result (LeavesOnly (R.terms records.old) (with_all (additions_in plans.now) held) (R.may_leave records.new)) }
    ensures refused { (held : Held) → LeavesOnly (R.terms records.old) held (R.may_leave records.old)
        → OnErr result (R.is_stopped records.new ≡ false → LeavesOnly (R.terms records.old) held (R.may_leave records.new)) }
    ensures crash { (held : Held) → LeavesOnly (R.terms records.old) held (R.may_leave records.old)
        → LeavesEither (R.terms records.old) held (with_all (additions_in plans.now) held) (R.may_leave records.new) }
    ensures device { result ≡ Err Device → R.faults records.new ≡ R.faults records.old + 1 }
    ensures going { result ≢ Err Device → R.is_stopped records.new ≡ R.is_stopped records.old }
{
    let mut batch = Vec::with_capacity(alloc, plans.len())?;
    collect(plans, &mut batch);
    if batch.is_empty() {
        return Ok(());
    }
    records.append_all(&batch)
}
