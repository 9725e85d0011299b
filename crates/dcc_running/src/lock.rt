//! A lock and its place.

ghost use Rattle.std.specs.Prelude.{◌≡◌};
ghost use Rattle.dcc_running.specs.inner.Batches.{AreKeptAt};
ghost use Rattle.dcc_shard.specs.Routes.{shard_of};

use crate::naming::Naming;
use crate::told::Told;
use crate::touches::Touches;
use crate::ward::Ward;
use dcc_act::Sub;
use dcc_shard::Call;
use dcc_store::Records;
use std::sync::{Mutex, MutexGuard, Wait};

/// The place at this index, of so many.
#[derive(Clone, Copy)]
pub(crate) struct Place {
    pub(crate) index: usize,
    pub(crate) count: usize,
}

/// The place of a shard's lock, the receipts of the shard that were audited, and the subscribers whose acts no audit has compared.
#[derive(Drop)]
pub(crate) struct Side {
    pub(crate) place: Place,
    pub(crate) told: Told,
    pub(crate) touches: Touches,
}

/// A shard under its lock.
#[derive(Drop)]
pub(crate) struct Lock<R: Records, J: Naming> {
    /// Where it stands among the locks: for clauses, which know nothing else of a lock.
    place: Place,
    ward: Mutex<Ward<R, J>>,
}

impl<R: Records, J: Naming> Lock<R, J> {
    pub(crate) fn new(place: Place, ward: Ward<R, J>) -> Lock<R, J>
        ensures { result.place ≡ place }
    {
        Lock {
            place,
            ward: Mutex::new(ward),
        }
    }

    /// Waits for the lock, for an act of this subscriber. The condition: the shard keeps it.
    pub(crate) fn lock_for<'a, W: Wait>(&'a self, rt: &W, sub: &Sub) -> MutexGuard<'a, Ward<R, J>>
        requires { self.now.place.index ≡ shard_of sub.now self.now.place.count }
    {
        let _sub = sub;
        self.ward.lock(rt)
    }

    /// Waits for the lock, for these calls. The condition: the shard keeps the subscriber of each.
    pub(crate) fn lock_for_all<'a, W: Wait>(
        &'a self,
        rt: &W,
        calls: &[Call],
    ) -> MutexGuard<'a, Ward<R, J>>
        requires { AreKeptAt self.now.place calls.now }
    {
        let _calls = calls;
        self.ward.lock(rt)
    }

    /// Waits for the lock, which is the one of this index.
    pub(crate) fn lock_as<'a, W: Wait>(&'a self, rt: &W, index: usize) -> MutexGuard<'a, Ward<R, J>>
        requires { self.now.place.index ≡ index }
    {
        let _index = index;
        self.ward.lock(rt)
    }

    /// The shard, once nobody is at work with it.
    pub(crate) fn into_ward(self) -> Ward<R, J> {
        let Lock { place: _, ward } = self;
        ward.into_inner()
    }
}
