//! Pools.

ghost use Rattle.std.specs.Prelude.{◌≡◌, ◌+◌, ◌-◌, ◌↔◌, pos, ◌+ℤ◌, ◌-ℤ◌, IsOk, IsTrue, IfOk, OnOk, OnErr};
ghost use Rattle.dcc_escrow.specs.Pools.{free, IsCovered, IsAboveFloor, IsBelowCeiling, IsOf};

use crate::fault::{Ceiling, Floor, Short};
use crate::hold::{Hold, Parked};
use crate::limits::MOST_MONEY;
use std::marker::Model;

/// Money in minor units, a part of which is reserved for open requests.
#[derive(Debug, Drop)]
pub struct Pool {
    id: u64,
    committed: i128,
    reserved: u64,
}

impl Model for Pool {
    ghost use Rattle.std.specs.Prelude.{◌≤◌};
    ghost use Rattle.dcc_escrow.specs.declared.limits.TheConstants.{MOST_MONEY};
    ghost use Rattle.dcc_escrow.specs.Pools.{PoolView, IsAboveFloor, IsBelowCeiling};

    ghost Value = { PoolView };

    ghost view = { λ p. record { id = p.id; committed = p.committed; reserved = p.reserved } };

    ghost invariant = { λ p. IsAboveFloor p.committed × IsBelowCeiling p.committed × (p.reserved ≤ MOST_MONEY) };
}

/// The part of a charge beyond its hold, in minor units.
#[derive(Clone, Copy, Debug, PartialEq, Eq)]
pub struct Settled {
    pub overrun: u64,
}

impl Pool {
    /// A pool without money, under a number that tells its holds from those of other pools.
    pub fn new(id: u64) -> Pool
        ensures { result ≡ record { id = id; committed = pos 0; reserved = 0 } }
    {
        Pool {
            id,
            committed: 0,
            reserved: 0,
        }
    }

    /// The number that tells the pool's holds from those of other pools.
    pub fn id(&self) -> u64
        ensures { result ≡ self.now.id }
    {
        self.id
    }

    /// The committed money, in minor units: -10^18 to 10^18.
    pub fn committed(&self) -> i128
        ensures value { result ≡ self.now.committed }
        ensures floor { IsAboveFloor result }
        ensures ceiling { IsBelowCeiling result }
    {
        self.committed
    }

    /// The part of it that open holds have reserved, in minor units.
    pub fn reserved(&self) -> u64
        ensures { result ≡ self.now.reserved }
    {
        self.reserved
    }

    /// The free money: the least that open requests can leave, in minor units. It is below 0 if charges have passed their holds.
    pub fn free(&self) -> i128
        ensures { result ≡ free self.now }
    {
        self.committed - i128::from(self.reserved)
    }

    /// Reserves an amount, in minor units, if and only if it is 0 or within the free money. [`Short`] (30) changes nothing.
    pub fn take(&mut self, amount: u64) -> Result<Hold, Short>
        ensures given { IsOk result ↔ IsCovered self.old amount }
        ensures hold { IfOk result (λ hold. hold ≡ record { pool = self.old.id; amount = amount }) }
        ensures reserved { OnOk result (self.new ≡ record self.old { reserved = self.old.reserved + amount }) }
        ensures err { OnErr result (self.new ≡ self.old) }
    {
        if !self.covers(amount) {
            return Err(Short);
        }
        self.reserved += amount;
        Ok(Hold {
            pool: self.id,
            amount,
        })
    }

    /// Ends a hold of this pool with a charge, in minor units, which may pass the hold: the part beyond it is returned.
    /// The charge has to leave the committed money at -10^18 or above.
    pub fn settle(&mut self, hold: Hold, charge: u64) -> Settled
        requires hold { IsOf self.old hold }
        requires floor { IsAboveFloor (self.old.committed -ℤ pos charge) }
        ensures pool { self.new ≡ record { id = self.old.id; committed = self.old.committed -ℤ pos charge; reserved = self.old.reserved - hold.amount } }
        ensures overrun { result.overrun ≡ charge - hold.amount }
    {
        let Hold { amount, pool: _ } = hold;
        self.reserved -= amount;
        self.committed -= i128::from(charge);
        Settled {
            overrun: charge.saturating_sub(amount),
        }
    }

    /// Ends a hold of this pool without a charge.
    pub fn release(&mut self, hold: Hold)
        requires { IsOf self.old hold }
        ensures { self.new ≡ record self.old { reserved = self.old.reserved - hold.amount } }
    {
        let Hold { pool: _, amount } = hold;
        self.reserved -= amount;
    }

    /// Makes a parked hold of this pool a hold again.
    pub fn unpark(&self, parked: Parked) -> Hold
        requires { IsOf self.now parked }
        ensures { result ≡ parked }
    {
        let Parked { pool, amount } = parked;
        Hold { pool, amount }
    }

    /// Charges an amount, in minor units, at once, if and only if it is 0 or within the free money. [`Short`] (30)
    /// changes nothing.
    pub fn debit(&mut self, amount: u64) -> Result<(), Short>
        ensures admitted { IsOk result ↔ IsCovered self.old amount }
        ensures ok { OnOk result (self.new ≡ record self.old { committed = self.old.committed -ℤ pos amount }) }
        ensures err { OnErr result (self.new ≡ self.old) }
    {
        if !self.covers(amount) {
            return Err(Short);
        }
        self.committed -= i128::from(amount);
        Ok(())
    }

    /// Charges a report that has no hold, in minor units, whatever is free, if it leaves the committed money at -10^18
    /// or above. [`Floor`] (31) changes nothing.
    pub fn force(&mut self, amount: u64) -> Result<(), Floor>
        ensures admitted { IsOk result ↔ IsAboveFloor (self.old.committed -ℤ pos amount) }
        ensures ok { OnOk result (self.new ≡ record self.old { committed = self.old.committed -ℤ pos amount }) }
        ensures err { OnErr result (self.new ≡ self.old) }
    {
        let left = self.committed - i128::from(amount);
        if left < -i128::from(MOST_MONEY) {
            return Err(Floor);
        }
        self.committed = left;
        Ok(())
    }

    /// Adds money, in minor units, if it leaves the committed money at 10^18 or below. [`Ceiling`] (32) changes nothing.
    pub fn credit(&mut self, amount: u64) -> Result<(), Ceiling>
        ensures admitted { IsOk result ↔ IsBelowCeiling (self.old.committed +ℤ pos amount) }
        ensures ok { OnOk result (self.new ≡ record self.old { committed = self.old.committed +ℤ pos amount }) }
        ensures err { OnErr result (self.new ≡ self.old) }
    {
        let total = self.committed + i128::from(amount);
        if total > i128::from(MOST_MONEY) {
            return Err(Ceiling);
        }
        self.committed = total;
        Ok(())
    }

    /// Whether a decrement is admitted.
    fn covers(&self, amount: u64) -> bool
        ensures { IsTrue result ↔ IsCovered self.now amount }
    {
        amount == 0 || i128::from(amount) <= self.free()
    }
}
