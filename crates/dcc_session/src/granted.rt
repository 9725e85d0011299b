//! Grants that are about to be made, with the memory for them.

ghost use Rattle.std.specs.Prelude.{◌≡◌, IfOk};

use crate::held::Held;
use dcc_escrow::Parked;
use std::alloc::{AllocError, Global};
use std::marker::Model;

/// Grants that are about to be made, with memory for these and for some that a session already holds.
#[derive(Debug, Drop)]
pub struct Granted {
    pub(crate) grants: Vec<Held>,
    pub(crate) holds: Vec<Parked>,
    pub(crate) room: usize,
}

impl Model for Granted {
    ghost use Rattle.std.specs.Prelude.{◌≡◌, ◌+◌, ◌≤◌, [], vec_len, vec_capacity};
    ghost use Rattle.dcc_session.specs.Sessions.{GrantedView};

    ghost Value = { GrantedView };

    ghost view = { λ g. record { grants = g.grants.items; room = g.room } };

    ghost invariant = { λ g. (g.holds.items ≡ []) × (vec_len g.grants + g.room ≤ vec_capacity g.grants)
        × (vec_len g.grants + g.room ≤ vec_capacity g.holds) };
}

impl Granted {
    /// These grants, with memory for so many that a session already holds. The only error is want of memory.
    pub fn new(alloc: Global, mut grants: Vec<Held>, room: usize) -> Result<Granted, AllocError>
        ensures { IfOk result (λ granted. granted ≡ record { grants = grants.items; room = room }) }
    {
        let all = grants.len().checked_add(room).ok_or(AllocError)?;
        grants.reserve(room)?;
        let holds = Vec::with_capacity(alloc, all)?;
        Ok(Granted {
            grants,
            holds,
            room,
        })
    }

    /// The grants, in the order of their services.
    pub fn grants(&self) -> &[Held]
        ensures { result.now ≡ self.now.grants }
    {
        &self.grants
    }
}
