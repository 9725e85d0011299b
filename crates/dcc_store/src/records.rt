//! The records of a shard, as a trait.

ghost use Rattle.std.specs.Prelude.{◌≡◌, ◌≢◌, ℕ, ◌+◌, Bool, true, false, Err, IfOk, OnOk, OnErr};
ghost use Rattle.dcc_tariff.specs.Terms.{TermsView};
ghost use Rattle.dcc_store.specs.Books.{Held, with_act, acts_in, IsBook};
ghost use Rattle.dcc_store.specs.Contents.{Content, IsContentOf, IsNext};
ghost use Rattle.dcc_store.specs.Batches.{subs_of, with_all, are_apart, acts_of, AreNext};
ghost use Rattle.dcc_store.specs.Stops.{LeavesOnly, LeavesEither};

use crate::addition::Addition;
use crate::book::Book;
use crate::fault::StoreFault;
use dcc_act::{Act, Entry, Sub};
use dcc_tariff::Terms;

/// A store of the acts of subscribers, with their entries.
///
/// A stop is the end of the process at any moment. The clauses speak of the contents that an opening after a stop may find. A stop
/// inside a call leaves a store as a failure at the same moment does. So clause `crash`, which holds of each return, covers such a
/// stop too.
pub trait Records {
    /// The terms by which the content is judged.
    ghost terms: { Self → TermsView };

    /// The contents that an opening after a stop at this moment may find, if the store is honest.
    ghost may_leave: { Self → Content → Type 0 };

    /// The assumption on the store: it returned what was written, and nobody else ever wrote to it.
    ghost is_honest: { Self → Type 0 };

    /// Whether a call has failed with [`StoreFault::Device`].
    ghost is_stopped: { Self → Bool };

    /// The number of calls that have failed with [`StoreFault::Device`].
    ghost faults: { Self → ℕ };

    /// The terms by which the content is judged. It takes no memory.
    fn terms(&self) -> &Terms
        ensures { result.now ≡ terms self.now };

    /// The number of calls that have failed with [`StoreFault::Device`]. It takes no memory.
    fn faults(&self) -> u64
        ensures { result ≡ faults self.now };

    /// Whether a call has failed with [`StoreFault::Device`]: then the records are stopped, and do nothing more. It takes no memory.
    fn is_stopped(&self) -> bool
        ensures { result ≡ is_stopped self.now };

    /// Adds one act of a subscriber, with its entries, whole or not at all. The condition: the act may come next, and the entries are
    /// those that it adds.
    ///
    /// Errors: [`StoreFault::Memory`], nothing changed and the records may be used; [`StoreFault::Device`], the records failed, they are
    /// stopped from then on, and a stop leaves the act or doesn't; [`StoreFault::Stopped`], they were stopped before.
    fn append(&mut self, sub: Sub, act: &Act, entries: &[Entry]) -> Result<(), StoreFault>
        requires { is_stopped self.old ≡ false
            → (found : Content) → may_leave self.old found → IsNext (terms self.old) (found sub).acts act.now entries.now }
        ensures terms { terms self.new ≡ terms self.old }
        ensures stored { (held : Held) → LeavesOnly (terms self.old) held (may_leave self.old)
            → OnOk result (LeavesOnly (terms self.old) (with_act sub act.now held) (may_leave self.new)) }
        ensures refused { (held : Held) → LeavesOnly (terms self.old) held (may_leave self.old)
            → OnErr result (is_stopped self.new ≡ false → LeavesOnly (terms self.old) held (may_leave self.new)) }
        ensures crash { (held : Held) → LeavesOnly (terms self.old) held (may_leave self.old)
            → LeavesEither (terms self.old) held (with_act sub act.now held) (may_leave self.new) }
        ensures device { result ≡ Err StoreFault.Device
            → (is_stopped self.old ≡ false) × (is_stopped self.new ≡ true) × (faults self.new ≡ faults self.old + 1) }
        ensures going { result ≢ Err StoreFault.Device
            → (is_stopped self.new ≡ is_stopped self.old) × (faults self.new ≡ faults self.old) }
        ensures stopped { result ≡ Err StoreFault.Stopped → is_stopped self.old ≡ true }
        ensures frozen { is_stopped self.old ≡ true
            → (result ≡ Err StoreFault.Stopped) × ((found : Content) → may_leave self.new found → may_leave self.old found) }
    {
        let batch = [Addition::new(sub, act, entries)];
        self.append_all(&batch)
    }

    /// Adds the acts of a batch, each with its entries, all or none. The conditions: no two acts are of one subscriber; each act may
    /// come next, and its entries are those that it adds.
    ///
    /// Errors: [`StoreFault::Memory`], nothing changed and the records may be used; [`StoreFault::Device`], the records failed, they are
    /// stopped from then on, and a stop leaves all acts of the batch or none; [`StoreFault::Stopped`], they were stopped before.
    fn append_all(&mut self, batch: &[Addition<'_>]) -> Result<(), StoreFault>
        requires apart { are_apart (subs_of batch.now) ≡ true }
        requires next { is_stopped self.old ≡ false
            → (found : Content) → may_leave self.old found → AreNext (terms self.old) batch.now (acts_of found) }
        ensures terms { terms self.new ≡ terms self.old }
        ensures stored { (held : Held) → LeavesOnly (terms self.old) held (may_leave self.old)
            → OnOk result (LeavesOnly (terms self.old) (with_all batch.now held) (may_leave self.new)) }
        ensures refused { (held : Held) → LeavesOnly (terms self.old) held (may_leave self.old)
            → OnErr result (is_stopped self.new ≡ false → LeavesOnly (terms self.old) held (may_leave self.new)) }
        ensures crash { (held : Held) → LeavesOnly (terms self.old) held (may_leave self.old)
            → LeavesEither (terms self.old) held (with_all batch.now held) (may_leave self.new) }
        ensures device { result ≡ Err StoreFault.Device
            → (is_stopped self.old ≡ false) × (is_stopped self.new ≡ true) × (faults self.new ≡ faults self.old + 1) }
        ensures going { result ≢ Err StoreFault.Device
            → (is_stopped self.new ≡ is_stopped self.old) × (faults self.new ≡ faults self.old) }
        ensures stopped { result ≡ Err StoreFault.Stopped → is_stopped self.old ≡ true }
        ensures frozen { is_stopped self.old ≡ true
            → (result ≡ Err StoreFault.Stopped) × ((found : Content) → may_leave self.new found → may_leave self.old found) };

    /// The book of all held acts.
    ///
    /// Errors: [`StoreFault::Memory`], nothing changed and the records may be used; [`StoreFault::Device`], the records failed, and are
    /// stopped from then on; [`StoreFault::Stopped`], they were stopped before.
    fn load(&mut self) -> Result<Book, StoreFault>
        ensures terms { terms self.new ≡ terms self.old }
        ensures book { IfOk result (λ book. IsBook (terms self.old) (acts_in book)) }
        ensures found { IfOk result (λ book. LeavesOnly (terms self.old) (acts_in book) (may_leave self.new)) }
        ensures there { IfOk result (λ book. is_honest self.new
            → ∥ ((content : Content) × IsContentOf (terms self.old) (acts_in book) content × may_leave self.new content) ∥₁) }
        ensures same { (found : Content) → may_leave self.new found → may_leave self.old found }
        ensures device { result ≡ Err StoreFault.Device
            → (is_stopped self.old ≡ false) × (is_stopped self.new ≡ true) × (faults self.new ≡ faults self.old + 1) }
        ensures going { result ≢ Err StoreFault.Device
            → (is_stopped self.new ≡ is_stopped self.old) × (faults self.new ≡ faults self.old) }
        ensures stopped { result ≡ Err StoreFault.Stopped → is_stopped self.old ≡ true }
        ensures frozen { is_stopped self.old ≡ true → result ≡ Err StoreFault.Stopped };
}
