//! Records that fail once.

ghost use Rattle.std.specs.Prelude.{◌≡◌, ◌≢◌, ◌-◌, true, false, Err, IfOk, OnOk, OnErr};
ghost use Rattle.dcc_store.specs.Books.{Held, acts_in, IsBook};
ghost use Rattle.dcc_store.specs.Contents.{Content, IsContentOf};
ghost use Rattle.dcc_store.specs.Batches.{subs_of, with_all, are_apart, acts_of, AreNext};
ghost use Rattle.dcc_store.specs.Stops.{LeavesOnly, LeavesEither};
ghost use Rattle.dcc_store.specs.Memory.{leaves_of};

use dcc_store::{Addition, Book, MemoryRecords, Records, StoreFault};
use dcc_tariff::Terms;
use std::marker::Model;

/// Records in memory, of which one append, of one act or of a batch, fails as the append of a store does, for tests of the layers above.
#[derive(Drop)]
pub struct OnceRecords {
    inner: MemoryRecords,
    to_go: u64,
    stopped: bool,
}

impl Model for OnceRecords {
    ghost use Rattle.dcc_test_stores.specs.Failing.{OnceView};

    ghost Value = { OnceView };

    ghost view = { λ r. record { inner = r.inner; to_go = r.to_go; stopped = r.stopped } };
}

impl OnceRecords {
    /// These records, whose `n`-th append from now on, counted from 1, fails and stops them. With 0 no append fails.
    pub fn new(inner: MemoryRecords, n: u64) -> OnceRecords
        ensures inner { result.inner ≡ inner }
        ensures to_go { result.to_go ≡ n }
        ensures going { result.stopped ≡ false }
    {
        OnceRecords {
            inner,
            to_go: n,
            stopped: false,
        }
    }

    /// The records as a restart finds them: with all that was appended, and usable.
    pub fn healed(self) -> MemoryRecords
        ensures { result ≡ self.inner }
    {
        let OnceRecords {
            inner,
            to_go: _,
            stopped: _,
        } = self;
        inner
    }
}

impl Records for OnceRecords {
    ghost use Rattle.std.specs.Prelude.{if◌then◌else◌};

    ghost terms = { λ r. r.inner.terms };

    ghost may_leave = { λ r. leaves_of r.inner };

    ghost is_honest = { λ _. Unit {0} };

    ghost is_stopped = { λ r. r.stopped };

    ghost faults = { λ r. if r.stopped then 1 else 0 };

    fn terms(&self) -> &Terms {
        self.inner.terms()
    }

    fn faults(&self) -> u64 {
        u64::from(self.stopped)
    }

    fn is_stopped(&self) -> bool {
        self.stopped
    }

    fn append_all(&mut self, batch: &[Addition<'_>]) -> Result<(), StoreFault>
        requires apart { are_apart (subs_of batch.now) ≡ true }
        requires next { self.old.stopped ≡ false
            → (found : Content) → leaves_of self.old.inner found → AreNext self.old.inner.terms batch.now (acts_of found) }
        ensures fails { self.old.stopped ≡ false → self.old.to_go ≡ 1 → result ≡ Err StoreFault.Device }
        ensures once { result ≡ Err StoreFault.Device → self.old.to_go ≡ 1 }
        ensures to_go { self.old.stopped ≡ false → self.new.to_go ≡ self.old.to_go - 1 }
        ensures terms { self.new.inner.terms ≡ self.old.inner.terms }
        ensures stored { (held : Held) → LeavesOnly self.old.inner.terms held (leaves_of self.old.inner)
            → OnOk result (LeavesOnly self.old.inner.terms (with_all batch.now held) (leaves_of self.new.inner)) }
        ensures refused { (held : Held) → LeavesOnly self.old.inner.terms held (leaves_of self.old.inner)
            → OnErr result (self.new.stopped ≡ false → LeavesOnly self.old.inner.terms held (leaves_of self.new.inner)) }
        ensures crash { (held : Held) → LeavesOnly self.old.inner.terms held (leaves_of self.old.inner)
            → LeavesEither self.old.inner.terms held (with_all batch.now held) (leaves_of self.new.inner) }
        ensures kept { result ≡ Err StoreFault.Device → self.new.inner ≡ self.old.inner }
        ensures device { result ≡ Err StoreFault.Device → (self.old.stopped ≡ false) × (self.new.stopped ≡ true) }
        ensures going { result ≢ Err StoreFault.Device → self.new.stopped ≡ self.old.stopped }
        ensures stopped { result ≡ Err StoreFault.Stopped → self.old.stopped ≡ true }
        ensures frozen { self.old.stopped ≡ true → (result ≡ Err StoreFault.Stopped) × (self.new ≡ self.old) }
    {
        if self.stopped {
            return Err(StoreFault::Stopped);
        }
        if self.to_go == 1 {
            self.to_go = 0;
            self.stopped = true;
            return Err(StoreFault::Device);
        }
        self.to_go = self.to_go.saturating_sub(1);
        self.inner.append_all(batch)
    }

    fn load(&mut self) -> Result<Book, StoreFault>
        ensures to_go { self.new.to_go ≡ self.old.to_go }
        ensures terms { self.new.inner.terms ≡ self.old.inner.terms }
        ensures book { IfOk result (λ book. IsBook self.old.inner.terms (acts_in book)) }
        ensures found { IfOk result (λ book. LeavesOnly self.old.inner.terms (acts_in book) (leaves_of self.new.inner)) }
        ensures there { IfOk result (λ book. Unit {0}
            → ∥ ((content : Content) × IsContentOf self.old.inner.terms (acts_in book) content × leaves_of self.new.inner content) ∥₁) }
        ensures same { (found : Content) → leaves_of self.new.inner found → leaves_of self.old.inner found }
        ensures device { result ≡ Err StoreFault.Device → (self.old.stopped ≡ false) × (self.new.stopped ≡ true) }
        ensures going { result ≢ Err StoreFault.Device → self.new.stopped ≡ self.old.stopped }
        ensures stopped { result ≡ Err StoreFault.Stopped → self.old.stopped ≡ true }
        ensures frozen { self.old.stopped ≡ true → result ≡ Err StoreFault.Stopped }
    {
        if self.is_stopped() {
            return Err(StoreFault::Stopped);
        }
        self.inner.load()
    }
}
