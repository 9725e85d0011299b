//! A store of layout 1 made into one of layout 2.

ghost use Rattle.std.specs.Prelude.{◌≡◌, ◌≢◌, ◌⊎◌, ◌≤◌, false, Err, Ok, None, IsTrue, length, IfOk, IfErr, IfSome};
ghost use Rattle.sqlite.specs.View.{doubt};
ghost use Rattle.sqlite.specs.State.{HasCleanDisk, Survives};
ghost use Rattle.sqlite.specs.Held.{state};
ghost use Rattle.dcc_store.specs.Books.{Held};
ghost use Rattle.dcc_sqlite_store.specs.Tables.{layout};
ghost use Rattle.dcc_sqlite_store.specs.Trees.{IsUndone, act_rows};
ghost use Rattle.dcc_sqlite_store.specs.Content.{HoldsOldBook};
ghost use Rattle.dcc_sqlite_store.specs.Upgrade.{HasOldSetting, IsUpgraded, IsOldDamagedIn, OldDisagreeIn};
ghost use Rattle.dcc_sqlite_store.specs.inner.Reading.{IsSettled};
ghost use Rattle.dcc_sqlite_store.specs.inner.Upgrading.{HasUpgraded, CanUpgrade};

use crate::fault::OpenFault;
use crate::layout::has_layout;
use crate::old_store::{is_old_store, read_old_book};
use crate::remaking::remake_store;
use crate::setting::Setting;
use crate::telling::open_fault;
use dcc_sqlite_rows::{old_books_have_pages, old_pages_hold_their_rows, pages_hold_their_rows};
use sqlite::{Alter, Connection};
use std::alloc::Global;
use std::hash::RandomState;

/// Makes a store of layout 1 into the store of layout 2 of the same acts, in one transaction, and says how many acts it has. It
/// says none, and nothing is changed, where the database is not a store of layout 1 of this setting: [`SqlRecords::open`]
/// judges that.
///
/// A stop inside leaves the store as it was, or the upgraded one.
///
/// Errors, each with the connection, judged in this order: [`OpenFault::Device`], a transaction was open; [`OpenFault::Memory`]
/// or [`OpenFault::Device`], a table was not read; [`OpenFault::Damaged`]; [`OpenFault::Disagree`]; [`OpenFault::Memory`] or
/// [`OpenFault::Device`], the transaction failed. After any but [`OpenFault::Device`] nothing changed, and the connection may
/// be used.
///
/// [`SqlRecords::open`]: crate::SqlRecords::open
pub fn upgrade<S: Alter>(
    alloc: Global,
    conn: Connection<S>,
    setting: &Setting<'_>,
    hasher: RandomState,
) -> Result<(Option<u64>, Connection<S>), (OpenFault, Connection<S>)>
    ensures idle { IfOk result (λ done. done.1.in_transaction ≡ false) }
    // It was a store of layout 1 of this setting, and is that of layout 2 of the same acts.
    ensures schema { IfOk result (λ done. IfSome done.0 (λ count. conn.schema ≡ layout)) }
    ensures upgraded { IfOk result (λ done. IfSome done.0 (λ count. HasCleanDisk (state S.Store done.1)
        → ∥ IsUpgraded setting.now (state S.Store conn).now.trees (state S.Store done.1).now.trees ∥₁)) }
    ensures count { IfOk result (λ done. IfSome done.0 (λ count. HasCleanDisk (state S.Store done.1) → count ≡ length (act_rows (state S.Store conn).now.trees))) }
    ensures committed { IfOk result (λ done. IfSome done.0 (λ count. HasCleanDisk (state S.Store done.1)
        → IsTrue (state S.Store done.1).is_open × ((state S.Store done.1).now ≡ (state S.Store done.1).committed) × (done.1.schema ≡ layout))) }
    // What is not such a store stays as it was.
    ensures still { IfOk result (λ done. done.0 ≡ None → HasCleanDisk (state S.Store done.1) → (done.1 ≡ conn) ⊎ IsUndone (state S.Store conn) (state S.Store done.1)) }
    ensures other { IfOk result (λ done. done.0 ≡ None → (conn.schema ≢ layout)
        ⊎ ((conn.schema ≡ layout) × (HasCleanDisk (state S.Store done.1) → ¬ HasOldSetting setting.now (state S.Store conn).now.trees))) }
    ensures crash { IfOk result (λ done. Survives (state S.Store conn) (state S.Store done.1) (λ db. ∥ IsUpgraded setting.now (state S.Store conn).now.trees db ∥₁)) }
    ensures faults { IfErr result (λ failed. (failed.0 ≢ OpenFault.Empty) × (failed.0 ≢ OpenFault.Layout)) }
    // The rows are judged only where it is a store of layout 1 of this setting.
    ensures ours { IfErr result (λ failed. (failed.0 ≡ OpenFault.Damaged) ⊎ (failed.0 ≡ OpenFault.Disagree)
        → (conn.schema ≡ layout) × (HasCleanDisk (state S.Store failed.1) → HasOldSetting setting.now (state S.Store conn).now.trees)) }
    ensures damaged { IfErr result (λ failed. failed.0 ≡ OpenFault.Damaged → HasCleanDisk (state S.Store failed.1) → IsOldDamagedIn (state S.Store conn).now.trees) }
    ensures disagree { IfErr result (λ failed. failed.0 ≡ OpenFault.Disagree → HasCleanDisk (state S.Store failed.1) → OldDisagreeIn setting.now.terms (state S.Store conn).now.trees) }
    // Tables that hold a book are neither damaged nor disagree.
    ensures whole { IfErr result (λ failed. (failed.0 ≡ OpenFault.Damaged) ⊎ (failed.0 ≡ OpenFault.Disagree)
        → HasCleanDisk (state S.Store failed.1) → (held : Held) → ¬ HoldsOldBook setting.now.terms (state S.Store conn).now.trees held) }
    ensures undone { IfErr result (λ failed. failed.0 ≢ OpenFault.Device → HasCleanDisk (state S.Store failed.1)
        → IsUndone (state S.Store conn) (state S.Store failed.1)) }
    ensures left { IfErr result (λ failed. Survives (state S.Store conn) (state S.Store failed.1) (λ db. ∥ IsUpgraded setting.now (state S.Store conn).now.trees db ∥₁)) }
{
    old_books_have_pages();
    if !conn.is_autocommit() {
        return Err((OpenFault::Device, conn));
    }
    if !has_layout(conn.schema()) {
        return Ok((None, conn));
    }
    let mut conn = conn;
    match upgrade_store(alloc, &mut conn, setting, hasher) {
        Ok(count) => Ok((count, conn)),
        Err(fault) => Err((fault, conn)),
    }
}

/// The same of a database whose tables are those of a store. Every fault but [`OpenFault::Device`] leaves a store that may be
/// used.
fn upgrade_store<S: Alter>(
    alloc: Global,
    conn: &mut Connection<S>,
    setting: &Setting<'_>,
    hasher: RandomState,
) -> Result<Option<u64>, OpenFault>
    requires idle { conn.old.in_transaction ≡ false }
    requires settled { IsSettled (state S.Store conn.old) }
    requires schema { conn.old.schema ≡ layout }
    ensures mode { conn.new.in_transaction ≡ false }
    ensures upgraded { IfOk result (λ done. IfSome done (λ count. HasCleanDisk (state S.Store conn.new) → HasUpgraded setting.now (state S.Store conn.old) (state S.Store conn.new) count)) }
    ensures other { HasCleanDisk (state S.Store conn.new) → result ≡ Ok None → ¬ HasOldSetting setting.now (state S.Store conn.old).now.trees }
    ensures still { HasCleanDisk (state S.Store conn.new) → result ≡ Ok None → IsUndone (state S.Store conn.old) (state S.Store conn.new) }
    ensures faults { (result ≢ Err OpenFault.Empty) × (result ≢ Err OpenFault.Layout) }
    ensures ours { HasCleanDisk (state S.Store conn.new) → (result ≡ Err OpenFault.Damaged) ⊎ (result ≡ Err OpenFault.Disagree)
        → HasOldSetting setting.now (state S.Store conn.old).now.trees }
    ensures damaged { HasCleanDisk (state S.Store conn.new) → result ≡ Err OpenFault.Damaged → IsOldDamagedIn (state S.Store conn.old).now.trees }
    ensures disagree { HasCleanDisk (state S.Store conn.new) → result ≡ Err OpenFault.Disagree → OldDisagreeIn setting.now.terms (state S.Store conn.old).now.trees }
    ensures undone { HasCleanDisk (state S.Store conn.new) → IfErr result (λ fault. fault ≢ OpenFault.Device → IsUndone (state S.Store conn.old) (state S.Store conn.new)) }
    ensures crash { Survives (state S.Store conn.old) (state S.Store conn.new) (λ db. ∥ IsUpgraded setting.now (state S.Store conn.old).now.trees db ∥₁) }
{
    match is_old_store(alloc, conn, setting) {
        Ok(true) => Ok(Some(upgrade_old(alloc, conn, setting, hasher)?)),
        Ok(false) => Ok(None),
        Err(fault) => Err(open_fault(fault)),
    }
}

/// The same of a store of layout 1.
fn upgrade_old<S: Alter>(
    alloc: Global,
    conn: &mut Connection<S>,
    setting: &Setting<'_>,
    hasher: RandomState,
) -> Result<u64, OpenFault>
    requires { conn.old.in_transaction ≡ false }
    ensures mode { conn.new.in_transaction ≡ false }
    ensures clean { doubt (state S.Store conn.old).is_clean ≤ doubt (state S.Store conn.new).is_clean }
    ensures upgraded { HasCleanDisk (state S.Store conn.new) → conn.old.schema ≡ layout → HasOldSetting setting.now (state S.Store conn.old).now.trees
        → IfOk result (HasUpgraded setting.now (state S.Store conn.old) (state S.Store conn.new)) }
    ensures faults { (result ≢ Err OpenFault.Empty) × (result ≢ Err OpenFault.Layout) }
    ensures damaged { HasCleanDisk (state S.Store conn.new) → conn.old.schema ≡ layout
        → result ≡ Err OpenFault.Damaged → IsOldDamagedIn (state S.Store conn.old).now.trees }
    ensures disagree { HasCleanDisk (state S.Store conn.new) → conn.old.schema ≡ layout
        → result ≡ Err OpenFault.Disagree → OldDisagreeIn setting.now.terms (state S.Store conn.old).now.trees }
    ensures undone { HasCleanDisk (state S.Store conn.new) → conn.old.schema ≡ layout → IsSettled (state S.Store conn.old)
        → IfErr result (λ fault. fault ≢ OpenFault.Device → IsUndone (state S.Store conn.old) (state S.Store conn.new)) }
    ensures crash { Survives (state S.Store conn.old) (state S.Store conn.new) (CanUpgrade setting.now (state S.Store conn.old)) }
{
    pages_hold_their_rows();
    old_pages_hold_their_rows();
    let (book, count) = read_old_book(alloc, conn, &setting.terms, hasher)?;
    let made = remake_store(alloc, conn, setting, hasher, book.as_slice());
    // By a call: a book that is let go in place is proved part by part.
    drop(book);
    match made {
        Ok(()) => Ok(count),
        Err(fault) => Err(open_fault(fault)),
    }
}
