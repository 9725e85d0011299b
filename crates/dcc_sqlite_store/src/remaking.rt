//! The tables of a store made anew, in one transaction.

ghost use Rattle.std.specs.Prelude.{◌≡◌, ◌⊎◌, ◌≤◌, false, Err, IsTrue, OnOk, OnErr};
ghost use Rattle.std.specs.List.{AllByRecursion};
ghost use Rattle.sqlite.specs.View.{doubt};
ghost use Rattle.sqlite.specs.State.{HasCleanDisk, Survives};
ghost use Rattle.sqlite.specs.Held.{state};
ghost use Rattle.dcc_sqlite_rows.specs.Pages.{IsOwn};
ghost use Rattle.dcc_sqlite_store.specs.Tables.{layout};
ghost use Rattle.dcc_sqlite_store.specs.inner.Inside.{GoesOn, CommitStays};
ghost use Rattle.dcc_sqlite_store.specs.inner.Trees.{HasCommitted, IsUndone};
ghost use Rattle.dcc_sqlite_store.specs.inner.Making.{HasMade};
ghost use Rattle.dcc_sqlite_store.specs.inner.Refilling.{HoldsPages};

use crate::dropping::drop_tables;
use crate::making::make_tables;
use crate::refilling::add_pages;
use crate::setting::Setting;
use crate::telling::told;
use dcc_store::{Page, StoreFault};
use sqlite::{Alter, Connection, Error, Transaction};
use std::alloc::Global;
use std::hash::RandomState;

/// The tables are made anew with the rows of these pages, in one transaction, or nothing changes; want of memory leaves a store
/// that may be used.
pub fn remake_store<S: Alter>(
    alloc: Global,
    conn: &mut Connection<S>,
    setting: &Setting<'_>,
    hasher: RandomState,
    pages: &[Page],
) -> Result<(), StoreFault>
    requires idle { conn.old.in_transaction ≡ false }
    requires own { AllByRecursion (IsOwn setting.now.terms) pages.now }
    ensures mode { conn.new.in_transaction ≡ false }
    ensures clean { doubt (state S.Store conn.old).is_clean ≤ doubt (state S.Store conn.new).is_clean }
    ensures made { HasCleanDisk (state S.Store conn.new) → conn.old.schema ≡ layout
        → OnOk result (HasCommitted (λ _. HoldsPages setting.now pages.now) (state S.Store conn.old) (state S.Store conn.new)) }
    ensures undone { HasCleanDisk (state S.Store conn.new) → result ≡ Err StoreFault.Memory
        → IsUndone (state S.Store conn.old) (state S.Store conn.new) }
    ensures fault { OnErr result ((result ≡ Err StoreFault.Memory) ⊎ (result ≡ Err StoreFault.Device)) }
    ensures crash { Survives (state S.Store conn.old) (state S.Store conn.new) (λ db. conn.old.schema ≡ layout → HoldsPages setting.now pages.now db) }
{
    let Err(error) = commit_anew(alloc, conn, setting, hasher, pages) else {
        return Ok(());
    };
    let answers = conn.prepare("SELECT 1").is_ok();
    Err(told(&error, answers))
}

/// One transaction: the tables are made anew, or nothing changes. A stop at any call of the store leaves the one or the other.
fn commit_anew<S: Alter>(
    alloc: Global,
    conn: &mut Connection<S>,
    setting: &Setting<'_>,
    hasher: RandomState,
    pages: &[Page],
) -> Result<(), Error>
    requires idle { conn.old.in_transaction ≡ false }
    requires own { AllByRecursion (IsOwn setting.now.terms) pages.now }
    ensures mode { conn.new.in_transaction ≡ false }
    ensures clean { doubt (state S.Store conn.old).is_clean ≤ doubt (state S.Store conn.new).is_clean }
    ensures made { HasCleanDisk (state S.Store conn.new) → conn.old.schema ≡ layout
        → OnOk result (HasCommitted (λ _. HoldsPages setting.now pages.now) (state S.Store conn.old) (state S.Store conn.new)) }
    ensures undone { HasCleanDisk (state S.Store conn.new) → IsTrue (state S.Store conn.new).is_open
        → OnErr result (((state S.Store conn.new).now ≡ (state S.Store conn.old).committed) × ((state S.Store conn.new).committed ≡ (state S.Store conn.old).committed)) }
    ensures crash { Survives (state S.Store conn.old) (state S.Store conn.new) (λ db. conn.old.schema ≡ layout → HoldsPages setting.now pages.now db) }
{
    let mut tx = conn.transaction();
    make_anew(alloc, &mut tx, setting, hasher, pages)?;
    tx.commit()?;
    Ok(())
}

/// The tables are dropped, made in layout 2, and filled with the rows of these pages.
fn make_anew<S: Alter>(
    alloc: Global,
    tx: &mut Transaction<'_, S>,
    setting: &Setting<'_>,
    hasher: RandomState,
    pages: &[Page],
) -> Result<(), Error>
    requires { AllByRecursion (IsOwn setting.now.terms) pages.now }
    ensures same_reference { tx.new.conn.ghost_name ≡ tx.old.conn.ghost_name }
    ensures made { HasCleanDisk (state S.Store tx.new.conn.now) → IsTrue (state S.Store tx.old.conn.now).in_transaction
        → (state S.Store tx.old.conn.now).now.schema ≡ layout
        → OnOk result (HasMade layout (HoldsPages setting.now pages.now) (state S.Store tx.old.conn.now) (state S.Store tx.new.conn.now)) }
    ensures inside { GoesOn result (state S.Store tx.old.conn.now) (state S.Store tx.new.conn.now) }
    ensures kept { CommitStays (state S.Store tx.old.conn.now) (state S.Store tx.new.conn.now) }
    ensures survives { Survives (state S.Store tx.old.conn.now) (state S.Store tx.new.conn.now) (λ _. ⊥) }
{
    drop_tables(tx)?;
    make_tables(tx, setting)?;
    add_pages(alloc, tx, &setting.terms, hasher, pages)
}
