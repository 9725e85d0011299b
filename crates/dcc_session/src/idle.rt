//! Sessions before their first request, and after their end.

ghost use Rattle.std.specs.Prelude.{◌≡◌, []};

use crate::held::Held;
use crate::open::Open;
use dcc_escrow::{Parked, Pool};
use std::alloc::Global;
use std::marker::Model;

/// A session before its first request. It has no holds.
#[derive(Debug, Drop)]
pub struct Idle {
    pool: u64,
    grants: Vec<Held>,
    holds: Vec<Parked>,
}

impl Model for Idle {
    ghost use Rattle.std.specs.Prelude.{ℕ, ◌≡◌, []};

    ghost Value = { ℕ };

    ghost view = { λ s. s.pool };

    ghost invariant = { λ s. (s.grants.items ≡ []) × (s.holds.items ≡ []) };
}

impl Idle {
    /// A session whose holds will be on this pool. It takes no memory.
    pub fn new(alloc: Global, pool: &Pool) -> Idle
        ensures { result ≡ pool.now.id }
    {
        Idle {
            pool: pool.id(),
            grants: Vec::new(alloc),
            holds: Vec::new(alloc),
        }
    }

    /// Begins the session, which is held until this moment, in seconds. It takes no memory.
    pub fn open(self, deadline: u64) -> Open
        ensures { result ≡ record { pool = self; deadline = deadline; grants = [] } }
    {
        let Idle {
            pool,
            grants,
            holds,
        } = self;
        Open {
            pool,
            deadline,
            grants,
            holds,
        }
    }
}

/// A session after its end. It has no holds, and neither a report nor a grant can be made to it.
#[derive(Debug, Drop)]
pub struct Closed {
    _ended: (),
}

impl Closed {
    /// A session that was ended.
    pub(crate) fn new() -> Closed {
        Closed { _ended: () }
    }
}
