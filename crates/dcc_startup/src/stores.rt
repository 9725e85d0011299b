//! Where the records of shards are kept.

ghost use Rattle.std.specs.Prelude.{◌≡◌, ◌≢◌, ◌<◌, [], true, IfOk, IfErr, IfSome, IfNone};
ghost use Rattle.dcc_act.specs.declared.sub.Sub.{Sub};
ghost use Rattle.dcc_store.specs.Faults.{fault_number};
ghost use Rattle.dcc_store.specs.Contents.{Content};
ghost use Rattle.dcc_store.specs.Stops.{LeavesOnly};
ghost use Rattle.dcc_shard.specs.Shards.{held, AreOwn};
ghost use Rattle.dcc_shard.specs.Routes.{shard_of};
ghost use Rattle.dcc_shard.specs.Stored.{IsLeft};
ghost use Rattle.dcc_startup.specs.Openings.{IsFaultOver};

use dcc_message::Identity;
use dcc_shard::Shard;
use dcc_store::{Records, StoreFault};
use dcc_tariff::Plan;
use std::alloc::{AllocError, Global};
use std::hash::RandomState;
use thiserror::Error;

/// Why a store can't be used, by its number: 50 want of memory, 51 it failed, 52 it is stopped, 53 its tables or its setting are others,
/// 54 its rows aren't those of acts of its subscribers, 55 a row can't be read, 56 it has no tables, 57 it has fewer acts than the number that is kept
/// beside it.
#[derive(Clone, Copy, Debug, PartialEq, Eq, Error)]
#[error("store fault {0}")]
pub struct StoreRefusal(pub u8);

impl From<AllocError> for StoreRefusal {
    ghost from_gives = { λ _ refusal. refusal.0 ≡ 50 };

    fn from(_error: AllocError) -> StoreRefusal {
        StoreRefusal(50)
    }
}

impl From<StoreFault> for StoreRefusal {
    ghost from_gives = { λ fault refusal. refusal.0 ≡ fault_number fault };

    fn from(fault: StoreFault) -> StoreRefusal {
        StoreRefusal(fault.number())
    }
}

/// Why a store isn't copied.
#[derive(Clone, Copy, Debug, PartialEq, Eq)]
pub enum CopyFault {
    /// The folder for the copies is there already.
    There,
    /// The system refuses the folder, a file or its octets.
    Io,
}

/// Copies of stores while they are open, by any thread. No clause says what is copied.
pub trait Copies {
    /// Makes a new folder for copies of stores.
    ///
    /// Errors: [`CopyFault::There`], something has this path already; [`CopyFault::Io`], the system refuses the folder.
    fn make_folder(&self, into: &str) -> Result<(), CopyFault>;

    /// Copies the files of a shard's store, as they are, into a folder for copies, and waits until the disk has them. No act of the shard may be
    /// made meanwhile: then the copy is a store of exactly the acts that are held.
    ///
    /// Error: [`CopyFault::Io`], the system refuses a file or its octets, or memory is short. A part of a copy may be there.
    fn copy(&self, folder: &str, shard: usize, into: &str) -> Result<(), CopyFault>;
}

/// The number of a store's acts, or its log, was not written: the system refuses a file or its octets, the database failed, or memory is short.
#[derive(Clone, Copy, Debug, PartialEq, Eq)]
pub struct CountFault;

/// Numbers of acts that stores had, kept beside them: at their last quiet end, or later, while their process went on. An opening refuses a store that has
/// fewer acts, by fault 57. No clause says which number is kept.
pub trait Counts {
    /// Copies the log of a shard's store into its database, and keeps the number of its acts. No process may have the store open.
    ///
    /// Error: [`CountFault`]. The number that was kept before is still there, or the new one.
    fn keep_count(&self, folder: &str, shard: usize) -> Result<(), CountFault>;

    /// Keeps a number of acts that a shard's store has for certain, while its process goes on. An opening refuses a store with fewer acts, by fault 57. If
    /// the number that was kept before is greater, it stays. Any thread may call this; calls for one shard come one after another.
    ///
    /// Error: [`CountFault`]. The number that was kept before is still there, or the new one.
    fn note_acts(&self, folder: &str, shard: usize, acts: u64) -> Result<(), CountFault>;

    /// Forgets the number that is kept for a shard's store if the store has fewer acts, or if it is no number, and reports that on standard error.
    fn accept_loss(&self, folder: &str, shard: usize);
}

/// Where the records of shards are kept: a store for each, in a folder. What opening does to files has no contract here, but that
/// records are under the plan's terms, and which numbers its refusals have.
pub trait Stores: Copies + Counts {
    ghost use Rattle.std.specs.Prelude.{ℕ, List};
    ghost use Rattle.dcc_tariff.specs.Plans.{PlanView};

    type Records: Records + Send + Sync + Drop;

    /// The records that an opening may give: of a folder, under a plan, of the shard of an index.
    ghost opens: { Self → List ℕ → PlanView → ℕ → Self.Records → Type 0 };

    /// The numbers of the faults for which an opening may refuse that store.
    ghost refuses: { Self → List ℕ → PlanView → ℕ → ℕ → Type 0 } = { λ _ _ _ _ _. Unit {0} };

    /// Where there is no such store.
    ghost lacks: { Self → List ℕ → PlanView → ℕ → Type 0 } = { λ _ _ _ _. Unit {0} };

    /// The records of a shard, by its index, of a server under this plan, or none where there is no store yet. No store is made.
    fn open(
        &self,
        folder: &str,
        plan: &Plan,
        shard: usize,
        hasher: RandomState,
    ) -> Result<Option<Self::Records>, StoreRefusal>
        ensures terms { IfOk result (λ found. IfSome found (λ records. Self.Records.terms records ≡ plan.now.terms)) }
        ensures given { IfOk result (λ found. IfSome found (opens self.now folder.now plan.now shard)) }
        ensures none { IfOk result (λ found. IfNone found (lacks self.now folder.now plan.now shard)) }
        ensures refused { IfErr result (λ refusal. refuses self.now folder.now plan.now shard refusal.0) };

    /// Looks at the stores of the other shards in the folder, if there is no store of this shard. Each of them has to be of a server under this
    /// plan: so a plan with another number of shards makes no second store of the same subscribers. No store is made.
    fn look_beside(
        &self,
        folder: &str,
        plan: &Plan,
        shard: usize,
        hasher: RandomState,
    ) -> Result<(), StoreRefusal>
        ensures refused { IfErr result (λ refusal. refuses self.now folder.now plan.now shard refusal.0) };

    /// The same as [`Stores::open`], and an empty store is made where there is none.
    fn open_or_make(
        &self,
        folder: &str,
        plan: &Plan,
        shard: usize,
        hasher: RandomState,
    ) -> Result<Self::Records, StoreRefusal>
        ensures terms { IfOk result (λ records. Self.Records.terms records ≡ plan.now.terms) }
        ensures given { IfOk result (opens self.now folder.now plan.now shard) }
        ensures refused { IfErr result (λ refusal. refuses self.now folder.now plan.now shard refusal.0) };
}

/// The shard of these records, whose subscribers have to be those that `dcc_shard::shard_of` gives the shard of this index, of so many. The
/// condition: there is a shard.
///
/// Errors: the fault of the records (50, 51, 52), or 54 where they have acts of another shard's subscriber.
pub fn shard_over<R: Records + Drop>(
    alloc: Global,
    identity: &Identity,
    records: R,
    index: usize,
    count: usize,
    hasher: RandomState,
) -> Result<Shard<R>, StoreRefusal>
    requires { 0 < count }
    ensures terms { IfOk result (λ shard. shard.shard.terms ≡ R.terms records) }
    ensures identity { IfOk result (λ shard. shard.shard.identity ≡ identity.now) }
    ensures own { IfOk result (λ shard. AreOwn shard.shard) }
    // What it holds is what a stop leaves, and each subscriber is this shard's.
    ensures found { IfOk result (λ shard. LeavesOnly shard.shard.terms (held shard.shard) (R.may_leave shard.records)) }
    ensures placed { IfOk result (λ shard. (sub : Sub) → held shard.shard sub ≢ [] → shard_of sub count ≡ index) }
    // Nothing was made in it: a stop before it left the same.
    ensures same { IfOk result (λ shard. (found : Content) → R.may_leave shard.records found → R.may_leave records found) }
    ensures there { IfOk result (λ shard. R.is_honest shard.records → IsLeft shard.shard.terms (held shard.shard) (R.may_leave shard.records)) }
    ensures going { IfOk result (λ shard. R.is_stopped shard.records ≡ R.is_stopped records) }
    ensures refused { IfErr result (λ refusal. IsFaultOver R.may_leave R.is_stopped records index count refusal.0) }
{
    match shard_or_back(alloc, identity, records, index, count, hasher) {
        Ok(shard) => Ok(shard),
        Err((refusal, records)) => {
            // By a call: records that are let go in place are proved part by part.
            drop(records);
            Err(refusal)
        }
    }
}

/// The same, with the records handed back where no shard is made over them: nothing was made in them either.
pub fn shard_or_back<R: Records>(
    alloc: Global,
    identity: &Identity,
    records: R,
    index: usize,
    count: usize,
    hasher: RandomState,
) -> Result<Shard<R>, (StoreRefusal, R)>
    requires { 0 < count }
    ensures terms { IfOk result (λ shard. shard.shard.terms ≡ R.terms records) }
    ensures identity { IfOk result (λ shard. shard.shard.identity ≡ identity.now) }
    ensures own { IfOk result (λ shard. AreOwn shard.shard) }
    ensures found { IfOk result (λ shard. LeavesOnly shard.shard.terms (held shard.shard) (R.may_leave shard.records)) }
    ensures placed { IfOk result (λ shard. (sub : Sub) → held shard.shard sub ≢ [] → shard_of sub count ≡ index) }
    ensures same { IfOk result (λ shard. (found : Content) → R.may_leave shard.records found → R.may_leave records found) }
    ensures there { IfOk result (λ shard. R.is_honest shard.records → IsLeft shard.shard.terms (held shard.shard) (R.may_leave shard.records)) }
    ensures going { IfOk result (λ shard. R.is_stopped shard.records ≡ R.is_stopped records) }
    ensures refused { IfErr result (λ back. IsFaultOver R.may_leave R.is_stopped records index count back.0.0) }
    ensures left { IfErr result (λ back. (found : Content) → R.may_leave back.1 found → R.may_leave records found) }
    // 51 is the number of records that have stopped in this call, and of no others.
    ensures device { IfErr result (λ back. back.0.0 ≡ 51 → R.is_stopped back.1 ≡ true) }
    ensures usable { IfErr result (λ back. back.0.0 ≢ 51 → R.is_stopped back.1 ≡ R.is_stopped records) }
{
    match Shard::new(alloc, identity, records, hasher) {
        Ok(shard) => {
            if !shard.is_placed(index, count) {
                return Err((StoreRefusal(54), shard.into_records()));
            }
            Ok(shard)
        }
        Err((fault, records)) => Err((StoreRefusal::from(fault), records)),
    }
}
