//! The calls of a worker's sweeps and audits, counted. A refused expiry and an audit that fails leave nothing that a clause can see, so that no clause of
//! a seat shows that each subscriber was asked, or that receipts were audited.

ghost use Rattle.std.specs.Prelude.{◌≡◌, ◌<◌, ◌≤◌, ◌+◌, ◌++◌, true, List, [], length, IfNone, IfOk, IfSome};
ghost use Rattle.std.specs.List.Sorted.{IsStrictlySortedBy};
ghost use Rattle.dcc_store.specs.Books.{sub_order};
ghost use Rattle.dcc_receipts.specs.declared.receipt.Receipt.{Receipt};
ghost use Rattle.dcc_running.specs.Audited.{WereTrue};
ghost use Rattle.dcc_running.specs.Batches.{are_of_one_shard};
ghost use Rattle.dcc_running.specs.Calls.{AreSubs};
ghost use Rattle.dcc_shard.specs.Shards.{are_apart};
ghost use Rattle.dcc_rounds.specs.Handing.{one_more};
ghost use Rattle.dcc_rounds.specs.Working.{Expires, ExpiresEach, KeepsCalls};

use dcc_act::{Moment, Sub};
use dcc_receipts::CloseFault;
use dcc_running::{Naming, Seat, Shards};
use dcc_shard::ExpiryAnswer;
use dcc_store::Records;
use std::alloc::Global;
use std::sync::Wait;

/// How often the subscribers of a shard were listed, of which shard last, and how many of these are not asked yet; how often an audit was asked for, alone
/// or with a sweep; and how often receipts were audited. Only [`CallCounter::list`], [`CallCounter::ask`], [`CallCounter::ask_all`],
/// [`CallCounter::ask_audit`] and [`CallCounter::audit`] change it.
#[derive(Drop)]
pub(crate) struct CallCounter {
    lists: u64,
    shard: usize,
    left: usize,
    asked: u64,
    audits: u64,
}

impl CallCounter {
    /// The counter of a worker of this shard: nothing was listed, asked for or audited.
    pub fn new(shard: usize) -> CallCounter
        ensures { result ≡ record { lists = 0; shard = shard; left = 0; asked = 0; audits = 0 } }
    {
        CallCounter {
            lists: 0,
            shard,
            left: 0,
            asked: 0,
            audits: 0,
        }
    }

    /// How often an audit was asked for, alone or with a sweep.
    pub fn asked(&self) -> u64
        ensures { result ≡ self.now.asked }
    {
        self.asked
    }

    /// Counts that an audit was asked for.
    pub fn ask_audit(&mut self)
        ensures { self.new ≡ record self.old { asked = one_more self.old.asked } }
    {
        self.asked = self.asked.saturating_add(1);
    }

    /// The subscribers of a shard that have acts, each once, in order, for a sweep. None if memory is short for the list. The condition: of an earlier
    /// list none is left to be asked.
    pub fn list<W: Wait, R: Records, J: Naming>(
        &mut self,
        rt: &W,
        alloc: Global,
        shards: &Shards<R, J>,
        shard: usize,
    ) -> Option<Vec<Sub>>
        requires shard { shard < shards.now.count }
        requires none_left { self.old.left ≡ 0 }
        ensures listed { IfSome result (λ subs. self.new
            ≡ record { lists = one_more self.old.lists; shard = shard; left = length subs.items; asked = one_more self.old.asked; audits = self.old.audits }) }
        ensures short { IfNone result (self.new
            ≡ record { lists = one_more self.old.lists; shard = shard; left = 0; asked = one_more self.old.asked; audits = self.old.audits }) }
        ensures order { IfSome result (λ subs. IsStrictlySortedBy sub_order subs.items) }
        ensures held { IfSome result (λ subs. AreSubs subs.items) }
    {
        self.lists = self.lists.saturating_add(1);
        self.asked = self.asked.saturating_add(1);
        self.shard = shard;
        let Ok(subs) = shards.subs(rt, alloc, shard) else {
            return None;
        };
        self.left = subs.len();
        Some(subs)
    }

    /// Asks the expiry of a subscriber. The condition: one is left to be asked.
    pub fn ask<W: Wait, R: Records, J: Naming>(
        &mut self,
        rt: &W,
        alloc: Global,
        shards: &Shards<R, J>,
        seat: &mut Seat,
        sub: Sub,
        moment: Moment,
    ) -> ExpiryAnswer
        requires { 0 < self.old.left }
        ensures asked { self.new.left + 1 ≡ self.old.left }
        ensures calls { KeepsCalls self.old self.new × (self.new.shard ≡ self.old.shard) }
        ensures expires { Expires moment seat.old sub seat.new }
    {
        self.left -= 1;
        shards.expire(rt, alloc, seat, sub, moment)
    }

    /// Asks the expiries of these subscribers together, in order. The conditions: so many are left to be asked; they are different, and of one
    /// shard.
    pub fn ask_all<W: Wait, R: Records, J: Naming>(
        &mut self,
        rt: &W,
        alloc: Global,
        shards: &Shards<R, J>,
        seat: &mut Seat,
        subs: &[Sub],
        moment: Moment,
    )
        requires few { length subs.now ≤ self.old.left }
        requires apart { are_apart subs.now ≡ true }
        requires shard { are_of_one_shard shards.now.count subs.now ≡ true }
        ensures asked { self.new.left + length subs.now ≡ self.old.left }
        ensures calls { KeepsCalls self.old self.new × (self.new.shard ≡ self.old.shard) }
        ensures expires { ExpiresEach moment subs.now seat.old seat.new }
    {
        self.left -= subs.len();
        shards.expire_all(rt, alloc, seat, subs, moment);
    }

    /// Audits the receipts of a seat, by [`Shards::audit`].
    pub fn audit<W: Wait, R: Records, J: Naming>(
        &mut self,
        rt: &W,
        alloc: Global,
        shards: &Shards<R, J>,
        seat: &mut Seat,
    ) -> Result<usize, CloseFault>
        ensures counted { self.new ≡ record self.old { audits = one_more self.old.audits } }
        ensures empty { IfOk result (λ count. (seat.new ≡ []) × (count ≡ length seat.old)) }
        ensures told { (told : List Receipt) × (seat.old ≡ told ++ seat.new) × WereTrue J.opening told }
    {
        self.audits = self.audits.saturating_add(1);
        shards.audit(rt, alloc, seat)
    }
}
