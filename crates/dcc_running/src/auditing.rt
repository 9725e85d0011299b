//! An audit while the shards are under locks.

ghost use Rattle.std.specs.Prelude.{◌≡◌, ◌≤◌, [], drop, false, length, vec_len, IfOk, IfErr, OnOk};
ghost use Rattle.dcc_running.specs.Audited.{IsAudited, IsAuditFault, IsOrdered, WasTrue, WasUntold};
ghost use Rattle.dcc_running.specs.inner.Wards.{IsToldFault};

use crate::naming::Naming;
use crate::seat::Seat;
use crate::shards::Shards;
use dcc_act::Sub;
use dcc_receipts::{CloseFault, Receipt, each_in_order};
use dcc_store::Records;
use std::alloc::Global;
use std::sync::Wait;

impl<R: Records, J: Naming> Shards<R, J> {
    /// Compares the receipts of a seat, in order, with the acts that their shards hold, each under its shard's lock, and takes them out of the seat. The
    /// shards keep the places of the fresh ones, and `close` counts these. It returns the number of the receipts. It waits for the lock of each receipt's
    /// shard, one at a time.
    ///
    /// Errors:
    /// - [`CloseFault::Memory`]: memory was short. The receipts that were not compared stay.
    /// - [`CloseFault::ReceiptStray`]: the receipt isn't of these acts, or it has another answer than its act came to, or its place has another fresh
    ///   receipt. This receipt stays, and all behind it.
    /// - [`CloseFault::OutOfOrder`]: the seat has a receipt behind a later one of the same subscriber. All stay. Or a receipt is earlier than one that an
    ///   earlier audit took out of the seat. This receipt stays, and all behind it.
    /// - [`CloseFault::ActWithoutReceipt`]: an act since opening has no receipt, of a subscriber of whom no seat has a call that it has not audited. No
    ///   receipt stays.
    pub fn audit<W: Wait>(
        &self,
        rt: &W,
        alloc: Global,
        seat: &mut Seat,
    ) -> Result<usize, CloseFault>
        ensures empty { IfOk result (λ count. (seat.new ≡ []) × (count ≡ length seat.old)) }
        ensures told { IsAudited J.opening seat.old seat.new }
        ensures ordered { IfOk result (λ count. IsOrdered seat.old) }
        ensures reason { IfErr result (λ fault. IsAuditFault fault J.opening seat.old seat.new) }
    {
        if !each_in_order(alloc, self.hasher, &seat.receipts)? {
            return Err(CloseFault::OutOfOrder);
        }
        let count = seat.receipts.len();
        for at in 0..count {
            if let Err(fault) = self.tell(rt, alloc, seat.number, &seat.receipts[at]) {
                forget_first(&mut seat.receipts, at);
                return Err(fault);
            }
        }
        forget_first(&mut seat.receipts, count);
        if !self.settle_all(rt, &mut seat.touched) {
            return Err(CloseFault::ActWithoutReceipt);
        }
        Ok(count)
    }

    /// Takes the calls of these subscribers back, each under the lock of its shard. Behind the last call of a subscriber, each of the subscriber's acts since
    /// opening has to have an audited receipt: it returns whether this holds, and stops at the first subscriber of whom it doesn't.
    fn settle_all<W: Wait>(&self, rt: &W, touched: &mut Vec<Sub>) -> bool
        ensures { result ≡ false → WasUntold J.opening }
    {
        while let Some(sub) = touched.pop() {
            if !self.settle(rt, sub) {
                return false;
            }
        }
        true
    }

    /// The same of one call.
    fn settle<W: Wait>(&self, rt: &W, sub: Sub) -> bool
        ensures { result ≡ false → WasUntold J.opening }
    {
        let opened = self.number_at_opening(&sub);
        self.lock_of(rt, &sub).settle(opened, sub)
    }

    /// Compares a receipt with the acts that its subscriber's shard holds, and with those that its seat had, under the shard's lock, and lets the shard keep
    /// its place. The errors are those of [`Ward::tell`](crate::ward::Ward::tell).
    fn tell<W: Wait>(
        &self,
        rt: &W,
        alloc: Global,
        seat: usize,
        receipt: &Receipt,
    ) -> Result<(), CloseFault>
        ensures told { OnOk result (WasTrue J.opening receipt.now) }
        ensures fault { IfErr result (λ fault. IsToldFault fault J.opening receipt.now) }
    {
        let opened = self.number_at_opening(&receipt.sub);
        self.lock_of(rt, &receipt.sub)
            .tell(alloc, opened, seat, receipt)
    }
}

/// Lets the first of these receipts go. It takes no memory.
fn forget_first(receipts: &mut Vec<Receipt>, count: usize)
    requires { count ≤ vec_len receipts.old }
    ensures { receipts.new.items ≡ drop count receipts.old.items }
{
    receipts.rotate_left(count);
    receipts.truncate(receipts.len() - count);
}
