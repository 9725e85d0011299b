//! A store that is stopped in the midst of its upgrade and opened again.

ghost use Rattle.std.specs.Prelude.{◌≡◌, ◌⊎◌, false, None, [], ◌∷◌, IfOk, IfErr, IfSome};
ghost use Rattle.sqlite.specs.Files.{file_state};
ghost use Rattle.sqlite.specs.Held.{state};
ghost use Rattle.sqlite.specs.State.{HasCleanDisk, Opens, IsLive};
ghost use Rattle.sqlite.specs.Tree.{Trees};
ghost use Rattle.dcc_store.specs.Books.{Held};
ghost use Rattle.dcc_sqlite_store.specs.Setting.{setting_row};
ghost use Rattle.dcc_sqlite_store.specs.Trees.{setting_rows};
ghost use Rattle.dcc_stops.specs.Upgrades.{IsOldStore, IsOldOrUpgraded, LeavesOldOrUpgraded, HoldsJust, IsMemoryOrDevice};

use dcc_act_codec::old_records_differ;
use dcc_sqlite_store::{
    OpenFault, Setting, SqlRecords, stop_and_open, stores_have_the_layout, upgrade,
};
use sqlite::{Alter, Connection, FileStore, Options};
use sqlite_disk::Crash;
use std::alloc::Global;
use std::hash::RandomState;

/// The process ends at this moment of an upgrade, and what it left of the files is opened again. The store is upgraded if it is still
/// of layout 1, and opened. The upgrade was of a store of layout 1 under this setting, so a stop leaves that store or the upgraded one:
/// `dcc_sqlite_store::upgrade` says so of each return, and a stop inside a call is a disk that fails from there on. Then the records hold just
/// the acts that the store held before the upgrade, where the disk has returned what was written.
///
/// Errors, each with the connection where the files were opened: [`OpenFault::Memory`] and [`OpenFault::Device`] alone.
pub fn stop_and_upgrade<D: Crash + Drop>(
    alloc: Global,
    conn: Connection<FileStore<D>>,
    options: Options,
    setting: &Setting<'_>,
    hasher: RandomState,
) -> Result<SqlRecords<FileStore<D>>, (OpenFault, Option<Connection<FileStore<D>>>)>
    ensures terms { IfOk result (λ again. again.terms ≡ setting.now.terms) }
    ensures going { IfOk result (λ again. again.stopped ≡ false) }
    ensures setting { IfOk result (λ again. HasCleanDisk (file_state again.conn)
        → setting_rows (file_state again.conn).now.trees ≡ setting_row setting.now ∷ []) }
    // The acts are those that were there before the upgrade, wherever it was stopped.
    ensures again { (old : Trees) (held : Held) → IsOldStore setting.now old held
        → LeavesOldOrUpgraded setting.now old (file_state conn).may_leave
        → IfOk result (λ again. HasCleanDisk (file_state again.conn) → HoldsJust setting.now.terms (file_state again.conn) held) }
    ensures unopened { IfErr result (λ failed. failed.1 ≡ None → IsMemoryOrDevice failed.0) }
    ensures whole { (old : Trees) (held : Held) → IsOldStore setting.now old held
        → LeavesOldOrUpgraded setting.now old (file_state conn).may_leave
        → IfErr result (λ failed. IfSome failed.1 (λ left. HasCleanDisk (file_state left) → IsMemoryOrDevice failed.0)) }
{
    let again = match stop_and_open(alloc, conn, options) {
        Ok(again) => again,
        Err(fault) => return Err((fault, None)),
    };
    match upgrade_and_open(alloc, again, setting, hasher) {
        Ok(records) => Ok(records),
        Err((fault, conn)) => Err((fault, Some(conn))),
    }
}

/// A store is upgraded if it is of layout 1, and opened.
fn upgrade_and_open<S: Alter + Drop>(
    alloc: Global,
    conn: Connection<S>,
    setting: &Setting<'_>,
    hasher: RandomState,
) -> Result<SqlRecords<S>, (OpenFault, Connection<S>)>
    ensures terms { IfOk result (λ again. again.terms ≡ setting.now.terms) }
    ensures going { IfOk result (λ again. again.stopped ≡ false) }
    ensures setting { IfOk result (λ again. HasCleanDisk (state S.Store again.conn)
        → setting_rows (state S.Store again.conn).now.trees ≡ setting_row setting.now ∷ []) }
    ensures again { (old : Trees) (held : Held) → IsOldStore setting.now old held → IsOldOrUpgraded setting.now old (state S.Store conn).now.trees
        → Opens (state S.Store conn) → IsLive (state S.Store conn)
        → IfOk result (λ again. HasCleanDisk (state S.Store again.conn) → HoldsJust setting.now.terms (state S.Store again.conn) held) }
    ensures whole { (old : Trees) (held : Held) → IsOldStore setting.now old held → IsOldOrUpgraded setting.now old (state S.Store conn).now.trees
        → Opens (state S.Store conn) → IsLive (state S.Store conn)
        → IfErr result (λ failed. HasCleanDisk (state S.Store failed.1) → IsMemoryOrDevice failed.0) }
    ensures early { IfOk result (λ again. HasCleanDisk (state S.Store again.conn) → HasCleanDisk (state S.Store conn)) }
    ensures before { IfErr result (λ failed. HasCleanDisk (state S.Store failed.1) → HasCleanDisk (state S.Store conn)) }
{
    old_records_differ();
    stores_have_the_layout();
    let (_count, conn) = match upgrade(alloc, conn, setting, hasher) {
        Ok(done) => done,
        Err(refused) => return Err(refused),
    };
    match SqlRecords::open(alloc, conn, setting, hasher) {
        Ok(records) => Ok(records),
        Err(refused) => Err(refused),
    }
}
