//! Sessions that are put away between requests.

ghost use Rattle.std.specs.Prelude.{◌≡◌, ◌+◌, ◌<◌, ◌^◌, true, length, map};
ghost use Rattle.dcc_act.specs.ServiceKeys.{are_apart};
ghost use Rattle.dcc_session.specs.Grants.{key_of_held};

use crate::held::Held;
use crate::open::Open;
use dcc_act::Looks;
use dcc_escrow::Parked;
use std::marker::Model;

/// An open session that is put away as data, with its holds. These stay reserved. It can't be copied, so that no hold is parked twice.
#[derive(Drop)]
pub struct ParkedSession {
    pub(crate) pool: u64,
    pub(crate) deadline: u64,
    pub(crate) grants: Vec<Held>,
    pub(crate) holds: Vec<Parked>,
}

impl Model for ParkedSession {
    ghost use Rattle.dcc_session.specs.Sessions.{OpenView};
    ghost use Rattle.dcc_session.specs.inner.Holds.{AreHeld};

    ghost Value = { OpenView };

    ghost view = { λ s. record { pool = s.pool; deadline = s.deadline; grants = s.grants.items } };

    ghost invariant = { λ s. AreHeld s.pool s.grants.items s.holds.items };
}

impl ParkedSession {
    /// The moment until which the session is held, in seconds.
    pub fn deadline(&self) -> u64
        ensures { result ≡ self.now.deadline }
    {
        self.deadline
    }

    /// The number of its live grants.
    pub fn count(&self) -> usize
        ensures { result ≡ length self.now.grants }
    {
        self.grants.len()
    }

    /// Its live grants, those of the latest request first. Each grant is one look.
    pub fn grants(&self, looks: &mut Looks) -> &[Held]
        requires { looks.old + length self.now.grants < 2 ^ 64 }
        ensures value { result.now ≡ self.now.grants }
        ensures apart { are_apart (map key_of_held result.now) ≡ true }
        ensures looks { looks.new ≡ looks.old + length self.now.grants }
    {
        looks.add(self.grants.len() as u64);
        &self.grants
    }

    /// Makes the session open again.
    pub fn resume(self) -> Open
        ensures { result ≡ self }
    {
        let ParkedSession {
            pool,
            deadline,
            grants,
            holds,
        } = self;
        Open {
            pool,
            deadline,
            grants,
            holds,
        }
    }
}
