//! A shard that is stopped and opened again.

ghost use Rattle.std.specs.Prelude.{◌≡◌, false, IfSome};
ghost use Rattle.sqlite.specs.Files.{file_state};
ghost use Rattle.sqlite.specs.State.{HasCleanDisk};
ghost use Rattle.dcc_store.specs.Contents.{Content};
ghost use Rattle.dcc_shard.specs.Shards.{held, AreOwn};
ghost use Rattle.dcc_shard.specs.Stored.{IsLeft};
ghost use Rattle.dcc_stops.specs.Stops.{HoldsAgain};

use dcc_message::Identity;
use dcc_model::acts_come_to_their_own;
use dcc_shard::Shard;
use dcc_sqlite_store::{Setting, SqlRecords, stop_and_reopen};
use dcc_store::Records;
use sqlite::{FileStore, Options};
use sqlite_disk::Crash;
use std::alloc::Global;
use std::hash::RandomState;

/// The process ends at this moment, and the shard is opened again from what it left of the files, or can't be: a stop inside a call is a
/// disk that fails from there on, so what is held here is what was held before that call, or its acts too. Where the disk has returned what
/// was written, all acts that were held are there, at their places. Nothing else is there but all acts of the batch on which the records
/// stopped, or none of them: at most one act of each subscriber.
pub fn stop_and_reopen_shard<D: Crash + Drop>(
    alloc: Global,
    shard: Shard<SqlRecords<FileStore<D>>>,
    options: Options,
    setting: &Setting<'_>,
    identity: &Identity,
    hasher: RandomState,
) -> Option<Shard<SqlRecords<FileStore<D>>>>
    ensures terms { IfSome result (λ again. again.shard.terms ≡ setting.now.terms) }
    ensures identity { IfSome result (λ again. again.shard.identity ≡ identity.now) }
    ensures going { IfSome result (λ again. again.records.stopped ≡ false) }
    ensures own { IfSome result (λ again. AreOwn again.shard) }
    ensures again { HasCleanDisk (file_state shard.records.conn) → setting.now.terms ≡ shard.shard.terms → IfSome result (λ again.
        HasCleanDisk (file_state again.records.conn)
        → HoldsAgain shard.records.stopped shard.shard.terms (held shard.shard) (held again.shard)) }
{
    acts_come_to_their_own();
    let records = shard.into_records();
    match stop_and_reopen(records, options, setting) {
        Ok(again) => shard_over(alloc, identity, again, hasher),
        Err(refused) => {
            // By a call: the parts of a value that is dropped in place are proved one by one.
            drop(refused);
            None
        }
    }
}

/// The shard over these records, of any type: over a database its proof is dear.
fn shard_over<R: Records + Drop>(
    alloc: Global,
    identity: &Identity,
    records: R,
    hasher: RandomState,
) -> Option<Shard<R>>
    ensures terms { IfSome result (λ shard. shard.shard.terms ≡ R.terms records) }
    ensures identity { IfSome result (λ shard. shard.shard.identity ≡ identity.now) }
    ensures going { IfSome result (λ shard. R.is_stopped shard.records ≡ R.is_stopped records) }
    ensures own { IfSome result (λ shard. AreOwn shard.shard) }
    ensures there { IfSome result (λ shard. R.is_honest shard.records → IsLeft shard.shard.terms (held shard.shard) (R.may_leave shard.records)) }
    ensures same { IfSome result (λ shard. (found : Content) → R.may_leave shard.records found → R.may_leave records found) }
{
    match Shard::new(alloc, identity, records, hasher) {
        Ok(shard) => Some(shard),
        Err(refused) => {
            drop(refused);
            None
        }
    }
}
