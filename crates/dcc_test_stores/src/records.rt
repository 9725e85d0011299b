//! Records whose appends wait at a gate.

ghost use Rattle.std.specs.Prelude.{◌≡◌, ◌≢◌, ◌+◌, true, false, Err, OnOk, OnErr};
ghost use Rattle.dcc_store.specs.Books.{Held};
ghost use Rattle.dcc_store.specs.Contents.{Content};
ghost use Rattle.dcc_store.specs.Stops.{LeavesOnly, LeavesEither};
ghost use Rattle.dcc_store.specs.Memory.{leaves_of};

use crate::gate::Gate;
use dcc_store::{Addition, Book, MemoryRecords, Records, StoreFault};
use dcc_tariff::Terms;
use std::marker::Model;

/// Records in memory whose appends wait at a gate, for tests of the layers above. If the gate stays shut for 100,000 turns, the append
/// fails as the append of a store does, and the records are stopped.
#[derive(Drop)]
pub struct GateRecords<'a> {
    inner: MemoryRecords,
    gate: &'a Gate,
    stopped: bool,
}

impl<'a> Model for GateRecords<'a> {
    ghost use Rattle.dcc_test_stores.specs.Gated.{GateView};

    ghost Value = { GateView };

    ghost view = { λ r. record { inner = r.inner; stopped = r.stopped } };
}

impl<'a> GateRecords<'a> {
    /// These records, behind a gate.
    pub fn new(inner: MemoryRecords, gate: &'a Gate) -> GateRecords<'a>
        ensures inner { result.inner ≡ inner }
        ensures going { result.stopped ≡ false }
    {
        GateRecords {
            inner,
            gate,
            stopped: false,
        }
    }
}

impl Records for GateRecords<'_> {
    ghost use Rattle.std.specs.Prelude.{if◌then◌else◌};

    ghost terms = { λ r. r.inner.terms };

    ghost may_leave = { λ r. leaves_of r.inner };

    ghost is_honest = { λ _. Unit {0} };

    ghost is_stopped = { λ r. r.stopped };

    ghost faults = { λ r. if r.stopped then 1 else 0 };

    fn terms(&self) -> &Terms {
        self.inner.terms()
    }

    fn faults(&self) -> u64 {
        u64::from(self.stopped)
    }

    fn is_stopped(&self) -> bool {
        self.stopped
    }

    fn append_all(&mut self, batch: &[Addition<'_>]) -> Result<(), StoreFault> {
        if self.stopped {
            return Err(StoreFault::Stopped);
        }
        if !self.gate.lets_in() {
            self.stopped = true;
            return Err(StoreFault::Device);
        }
        self.inner.append_all(batch)
    }

    fn load(&mut self) -> Result<Book, StoreFault> {
        if self.is_stopped() {
            return Err(StoreFault::Stopped);
        }
        self.inner.load()
    }
}
