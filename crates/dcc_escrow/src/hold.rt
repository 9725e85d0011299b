//! Holds, and holds that are parked.

ghost use Rattle.std.specs.Prelude.{◌≡◌};

use std::marker::Model;

/// Reserved money of a pool. It can't be let go: the only ways out are `Pool::settle`, `Pool::release` and
/// [`Hold::park`], and the compiler rejects a program in which a hold is lost.
#[derive(Debug)]
pub struct Hold {
    pub(crate) pool: u64,
    pub(crate) amount: u64,
}

impl Model for Hold {
    ghost use Rattle.dcc_escrow.specs.Pools.{HoldView};

    ghost Value = { HoldView };

    ghost view = { λ h. record { pool = h.pool; amount = h.amount } };
}

impl Hold {
    /// The id of its pool.
    pub fn pool(&self) -> u64
        ensures { result ≡ self.now.pool }
    {
        self.pool
    }

    /// The reserved money, in minor units.
    pub fn amount(&self) -> u64
        ensures { result ≡ self.now.amount }
    {
        self.amount
    }

    /// Puts the hold away as data. It stays reserved until [`crate::Pool::unpark`] takes it up again.
    pub fn park(self) -> Parked
        ensures { result ≡ self }
    {
        let Hold { pool, amount } = self;
        Parked { pool, amount }
    }
}

/// A hold that is put away. It is plain data and may be stored anywhere, but it can't be copied, so that no hold is parked twice.
#[derive(Debug, Drop)]
pub struct Parked {
    pub(crate) pool: u64,
    pub(crate) amount: u64,
}

impl Model for Parked {
    ghost use Rattle.dcc_escrow.specs.Pools.{HoldView};

    ghost Value = { HoldView };

    ghost view = { λ h. record { pool = h.pool; amount = h.amount } };
}

impl Parked {
    /// The id of its pool.
    pub fn pool(&self) -> u64
        ensures { result ≡ self.now.pool }
    {
        self.pool
    }

    /// The reserved money, in minor units.
    pub fn amount(&self) -> u64
        ensures { result ≡ self.now.amount }
    {
        self.amount
    }
}
