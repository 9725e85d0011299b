//! The opening of a store, which is upgraded first if it is of layout 1.

ghost use Rattle.std.specs.Prelude.{◌≡◌, ◌≢◌, ◌⊎◌, false, None, length, IfOk, IfErr, IfSome};
ghost use Rattle.sqlite.specs.Held.{state};
ghost use Rattle.sqlite.specs.State.{HasCleanDisk, Survives};
ghost use Rattle.dcc_files.specs.Stores.{SeesCommitted, HasSetting, HasNeitherSetting, HasDamage, HasNoBook, StandsUpgraded};
ghost use Rattle.dcc_sqlite_store.specs.Content.{leaves};
ghost use Rattle.dcc_sqlite_store.specs.Opening.{FindsBook};
ghost use Rattle.dcc_sqlite_store.specs.Tables.{no_schema, layout};
ghost use Rattle.dcc_sqlite_store.specs.Trees.{IsUndone, act_rows};
ghost use Rattle.dcc_sqlite_store.specs.Upgrade.{HasOldSetting, IsUpgraded, IsOldDamagedIn, OldDisagreeIn};

use dcc_sqlite_store::{OpenFault, Setting, SqlRecords, upgrade};
use sqlite::{Alter, Connection};
use std::alloc::Global;
use std::hash::RandomState;

/// The records over a store of this setting. A store of layout 1 is upgraded first, and then the number of its acts is returned. A
/// stop inside leaves the store as it was, or the upgraded one.
///
/// Errors, each with the connection: those of [`SqlRecords::open`] and of [`upgrade`]. [`OpenFault::Layout`] means that the
/// setting is another one in either layout. After an upgrade they are [`OpenFault::Memory`] and [`OpenFault::Device`] alone, so
/// nothing changed after any other. After any but [`OpenFault::Device`] the connection may be used.
pub fn open_or_upgrade<S: Alter + Drop>(
    alloc: Global,
    conn: Connection<S>,
    setting: &Setting<'_>,
    hasher: RandomState,
) -> Result<(SqlRecords<S>, Option<u64>), (OpenFault, Connection<S>)>
    ensures terms { IfOk result (λ opened. opened.0.terms ≡ setting.now.terms) }
    ensures going { IfOk result (λ opened. opened.0.stopped ≡ false) }
    ensures setting { IfOk result (λ opened. HasCleanDisk (state S.Store opened.0.conn) → HasSetting setting.now (state S.Store opened.0.conn).now.trees) }
    ensures schema { IfOk result (λ opened. conn.schema ≡ layout) }
    // A store of layout 2 stays as it was.
    ensures still { IfOk result (λ opened. opened.1 ≡ None → HasCleanDisk (state S.Store opened.0.conn)
        → IsUndone (state S.Store conn) (state S.Store opened.0.conn)) }
    // A store of layout 1 becomes the store of layout 2 of the same acts.
    ensures upgraded { SeesCommitted S.Store conn → IfOk result (λ opened. IfSome opened.1 (λ count. HasCleanDisk (state S.Store opened.0.conn)
        → ∥ IsUpgraded setting.now (state S.Store conn).now.trees (state S.Store opened.0.conn).now.trees ∥₁)) }
    ensures count { SeesCommitted S.Store conn → IfOk result (λ opened. IfSome opened.1 (λ count. HasCleanDisk (state S.Store opened.0.conn)
        → count ≡ length (act_rows (state S.Store conn).now.trees))) }
    // The records hold the book that is in the tables, and a stop leaves it and nothing else.
    ensures found { IfOk result (λ opened. HasCleanDisk (state S.Store opened.0.conn)
        → ∥ FindsBook opened.0.terms (state S.Store opened.0.conn).committed.trees (leaves opened.0.terms (state S.Store opened.0.conn)) ∥₁) }
    // A stop leaves the store as it was, or the upgraded one of the same acts.
    ensures crash { SeesCommitted S.Store conn → IfOk result (λ opened. Survives (state S.Store conn) (state S.Store opened.0.conn)
        (λ db. ∥ IsUpgraded setting.now (state S.Store conn).now.trees db ∥₁)) }
    ensures empty { IfErr result (λ failed. failed.0 ≡ OpenFault.Empty → (conn.schema ≡ no_schema) × (failed.1 ≡ conn)) }
    ensures tables { IfErr result (λ failed. failed.0 ≡ OpenFault.Layout → ((conn.schema ≢ no_schema) × (conn.schema ≢ layout)) ⊎ (conn.schema ≡ layout)) }
    // The rows are judged in the layout that the setting has.
    ensures other { SeesCommitted S.Store conn → IfErr result (λ failed. failed.0 ≡ OpenFault.Layout → conn.schema ≡ layout
        → HasCleanDisk (state S.Store failed.1) → HasNeitherSetting setting.now (state S.Store conn).now.trees) }
    ensures ours { IfErr result (λ failed. (failed.0 ≡ OpenFault.Damaged) ⊎ (failed.0 ≡ OpenFault.Disagree) → conn.schema ≡ layout) }
    ensures damaged { SeesCommitted S.Store conn → IfErr result (λ failed. failed.0 ≡ OpenFault.Damaged → HasCleanDisk (state S.Store failed.1)
        → HasDamage setting.now (state S.Store conn).now.trees) }
    ensures disagree { SeesCommitted S.Store conn → IfErr result (λ failed. failed.0 ≡ OpenFault.Disagree → HasCleanDisk (state S.Store failed.1)
        → HasNoBook setting.now (state S.Store conn).now.trees) }
    // A store that is refused stays as it was.
    ensures undone { IfErr result (λ failed. failed.0 ≢ OpenFault.Device → failed.0 ≢ OpenFault.Memory → HasCleanDisk (state S.Store failed.1)
        → (failed.1 ≡ conn) ⊎ IsUndone (state S.Store conn) (state S.Store failed.1)) }
    // If memory is refused, the store stays as it was, or is upgraded and stands.
    ensures memory { SeesCommitted S.Store conn → IfErr result (λ failed. failed.0 ≡ OpenFault.Memory → HasCleanDisk (state S.Store failed.1)
        → ((failed.1 ≡ conn) ⊎ IsUndone (state S.Store conn) (state S.Store failed.1)) ⊎ ∥ StandsUpgraded setting.now (state S.Store conn) (state S.Store failed.1) ∥₁) }
    ensures left { SeesCommitted S.Store conn → IfErr result (λ failed. Survives (state S.Store conn) (state S.Store failed.1)
        (λ db. ∥ IsUpgraded setting.now (state S.Store conn).now.trees db ∥₁)) }
{
    let (fault, conn) = match SqlRecords::open(alloc, conn, setting, hasher) {
        Ok(records) => return Ok((records, None)),
        Err(refused) => refused,
    };
    match fault {
        OpenFault::Layout => match upgrade_and_open(alloc, conn, setting, hasher) {
            Ok((records, count)) => Ok((records, Some(count))),
            Err(refused) => Err(refused),
        },
        fault => Err((fault, conn)),
    }
}

/// The same of a store that isn't of layout 2.
fn upgrade_and_open<S: Alter + Drop>(
    alloc: Global,
    conn: Connection<S>,
    setting: &Setting<'_>,
    hasher: RandomState,
) -> Result<(SqlRecords<S>, u64), (OpenFault, Connection<S>)>
    ensures terms { IfOk result (λ opened. opened.0.terms ≡ setting.now.terms) }
    ensures going { IfOk result (λ opened. opened.0.stopped ≡ false) }
    ensures setting { IfOk result (λ opened. HasCleanDisk (state S.Store opened.0.conn) → HasSetting setting.now (state S.Store opened.0.conn).now.trees) }
    ensures schema { IfOk result (λ opened. conn.schema ≡ layout) }
    ensures upgraded { IfOk result (λ opened. HasCleanDisk (state S.Store opened.0.conn)
        → ∥ IsUpgraded setting.now (state S.Store conn).now.trees (state S.Store opened.0.conn).now.trees ∥₁) }
    ensures count { IfOk result (λ opened. HasCleanDisk (state S.Store opened.0.conn)
        → opened.1 ≡ length (act_rows (state S.Store conn).now.trees)) }
    // The records hold the book that is in the tables, and a stop leaves it and nothing else.
    ensures found { IfOk result (λ opened. HasCleanDisk (state S.Store opened.0.conn)
        → ∥ FindsBook opened.0.terms (state S.Store opened.0.conn).committed.trees (leaves opened.0.terms (state S.Store opened.0.conn)) ∥₁) }
    ensures crash { IfOk result (λ opened. Survives (state S.Store conn) (state S.Store opened.0.conn)
        (λ db. ∥ IsUpgraded setting.now (state S.Store conn).now.trees db ∥₁)) }
    ensures early { IfOk result (λ opened. HasCleanDisk (state S.Store opened.0.conn) → HasCleanDisk (state S.Store conn)) }
    ensures filled { IfErr result (λ failed. failed.0 ≢ OpenFault.Empty) }
    ensures other { IfErr result (λ failed. failed.0 ≡ OpenFault.Layout → (conn.schema ≢ layout)
        ⊎ (HasCleanDisk (state S.Store failed.1) → ¬ HasOldSetting setting.now (state S.Store conn).now.trees)) }
    ensures ours { IfErr result (λ failed. (failed.0 ≡ OpenFault.Damaged) ⊎ (failed.0 ≡ OpenFault.Disagree)
        → (conn.schema ≡ layout) × (HasCleanDisk (state S.Store failed.1) → HasOldSetting setting.now (state S.Store conn).now.trees)) }
    ensures damaged { IfErr result (λ failed. failed.0 ≡ OpenFault.Damaged → HasCleanDisk (state S.Store failed.1) → IsOldDamagedIn (state S.Store conn).now.trees) }
    ensures disagree { IfErr result (λ failed. failed.0 ≡ OpenFault.Disagree → HasCleanDisk (state S.Store failed.1)
        → OldDisagreeIn setting.now.terms (state S.Store conn).now.trees) }
    ensures before { IfErr result (λ failed. HasCleanDisk (state S.Store failed.1) → HasCleanDisk (state S.Store conn)) }
    ensures undone { IfErr result (λ failed. failed.0 ≢ OpenFault.Device → failed.0 ≢ OpenFault.Memory → HasCleanDisk (state S.Store failed.1)
        → (failed.1 ≡ conn) ⊎ IsUndone (state S.Store conn) (state S.Store failed.1)) }
    ensures memory { IfErr result (λ failed. failed.0 ≡ OpenFault.Memory → HasCleanDisk (state S.Store failed.1)
        → IsUndone (state S.Store conn) (state S.Store failed.1) ⊎ ∥ StandsUpgraded setting.now (state S.Store conn) (state S.Store failed.1) ∥₁) }
    ensures left { IfErr result (λ failed. Survives (state S.Store conn) (state S.Store failed.1)
        (λ db. ∥ IsUpgraded setting.now (state S.Store conn).now.trees db ∥₁)) }
{
    let (count, conn) = match upgrade(alloc, conn, setting, hasher) {
        Ok(done) => done,
        Err(refused) => return Err(refused),
    };
    let Some(count) = count else {
        return Err((OpenFault::Layout, conn));
    };
    match SqlRecords::open(alloc, conn, setting, hasher) {
        Ok(records) => Ok((records, count)),
        Err((fault, conn)) => Err((failure(fault), conn)),
    }
}

/// Why an upgraded store isn't opened: memory was refused, or its database failed.
fn failure(fault: OpenFault) -> OpenFault
    ensures memory { fault ≡ OpenFault.Memory → result ≡ OpenFault.Memory }
    ensures others { fault ≢ OpenFault.Memory → result ≡ OpenFault.Device }
    ensures either { (result ≡ OpenFault.Memory) ⊎ (result ≡ OpenFault.Device) }
{
    match fault {
        OpenFault::Memory => OpenFault::Memory,
        _ => OpenFault::Device,
    }
}
