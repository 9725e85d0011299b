//! The rows of a book, added to empty tables inside a transaction.

ghost use Rattle.std.specs.Prelude.{◌≡◌, [], ◌∷◌, ◌++◌, length, IsTrue, OnOk};
ghost use Rattle.std.specs.List.{AllByRecursion};
ghost use Rattle.sqlite.specs.State.{HasCleanDisk, Survives};
ghost use Rattle.sqlite.specs.Held.{state};
ghost use Rattle.dcc_model.specs.Outcomes.{acts, funds};
ghost use Rattle.dcc_sqlite_rows.specs.Rows.{act_row, account_row, entry_rows_of};
ghost use Rattle.dcc_sqlite_rows.specs.Pages.{IsOwn, act_rows_from, entry_rows_to, page_act_rows, page_entry_rows, page_account_row, book_act_rows, book_entry_rows, book_account_rows};
ghost use Rattle.dcc_sqlite_store.specs.Tables.{layout};
ghost use Rattle.dcc_sqlite_store.specs.inner.Inside.{GoesOn, CommitStays};
ghost use Rattle.dcc_sqlite_store.specs.inner.Trees.{HasRun, AddsAccount};
ghost use Rattle.dcc_sqlite_store.specs.inner.Refilling.{Gathers, Refills, AddsNext};

use crate::adding::{add_account, add_act, add_entries};
use crate::appending::octets_of;
use dcc_account::Account;
use dcc_act::{Act, Entry};
use dcc_act_codec::write_act;
use dcc_model::{leaving_out_changes_nothing, one_more_act};
use dcc_store::Page;
use dcc_tariff::Terms;
use sqlite::{Alter, Error, ErrorCode, Transaction};
use std::alloc::Global;
use std::hash::RandomState;

/// The rows of these pages are added, page by page.
pub fn add_pages<S: Alter>(
    alloc: Global,
    tx: &mut Transaction<'_, S>,
    terms: &Terms,
    hasher: RandomState,
    pages: &[Page],
) -> Result<(), Error>
    requires { AllByRecursion (IsOwn terms.now) pages.now }
    ensures same_reference { tx.new.conn.ghost_name ≡ tx.old.conn.ghost_name }
    ensures added { HasCleanDisk (state S.Store tx.new.conn.now) → IsTrue (state S.Store tx.old.conn.now).in_transaction
        → (state S.Store tx.old.conn.now).now.schema ≡ layout
        → OnOk result (HasRun (Refills (book_act_rows pages.now) (book_entry_rows terms.now pages.now) (book_account_rows terms.now pages.now)) (state S.Store tx.old.conn.now) (state S.Store tx.new.conn.now)) }
    ensures inside { GoesOn result (state S.Store tx.old.conn.now) (state S.Store tx.new.conn.now) }
    ensures kept { CommitStays (state S.Store tx.old.conn.now) (state S.Store tx.new.conn.now) }
    ensures survives { Survives (state S.Store tx.old.conn.now) (state S.Store tx.new.conn.now) (λ _. ⊥) }
{
    for i in 0..pages.len() {
        add_page(alloc, tx, terms, hasher, &pages[i])?;
    }
    Ok(())
}

/// The rows of one page are added: of its acts, of their entries, and of the account.
fn add_page<S: Alter>(
    alloc: Global,
    tx: &mut Transaction<'_, S>,
    terms: &Terms,
    hasher: RandomState,
    page: &Page,
) -> Result<(), Error>
    requires { IsOwn terms.now page.now }
    ensures same_reference { tx.new.conn.ghost_name ≡ tx.old.conn.ghost_name }
    ensures added { HasCleanDisk (state S.Store tx.new.conn.now) → IsTrue (state S.Store tx.old.conn.now).in_transaction
        → (state S.Store tx.old.conn.now).now.schema ≡ layout
        → OnOk result (HasRun (Refills (page_act_rows page.now) (page_entry_rows terms.now page.now) (page_account_row terms.now page.now ∷ [])) (state S.Store tx.old.conn.now) (state S.Store tx.new.conn.now)) }
    ensures inside { GoesOn result (state S.Store tx.old.conn.now) (state S.Store tx.new.conn.now) }
    ensures kept { CommitStays (state S.Store tx.old.conn.now) (state S.Store tx.new.conn.now) }
    ensures survives { Survives (state S.Store tx.old.conn.now) (state S.Store tx.new.conn.now) (λ _. ⊥) }
{
    let sub = octets_of(alloc, page.sub())?;
    let mut account = Account::new(alloc, terms, hasher);
    let added = fill_page(alloc, tx, &mut account, &sub, page.acts());
    // By a call: an account that is let go in place is proved part by part.
    drop(account);
    added
}

/// The rows of a page are added, whose acts an account without acts makes.
fn fill_page<S: Alter>(
    alloc: Global,
    tx: &mut Transaction<'_, S>,
    account: &mut Account,
    sub: &[u8],
    all: &[Act],
) -> Result<(), Error>
    requires none { account.old.acts ≡ [] }
    requires own { acts account.old.terms all.now ≡ all.now }
    ensures same_reference { tx.new.conn.ghost_name ≡ tx.old.conn.ghost_name }
    ensures added { HasCleanDisk (state S.Store tx.new.conn.now) → IsTrue (state S.Store tx.old.conn.now).in_transaction
        → (state S.Store tx.old.conn.now).now.schema ≡ layout
        → OnOk result (HasRun (Refills (act_rows_from sub.now 0 all.now) (entry_rows_to account.old.terms sub.now all.now (length all.now))
        (account_row sub.now (length all.now) (funds account.old.terms all.now) ∷ [])) (state S.Store tx.old.conn.now) (state S.Store tx.new.conn.now)) }
    ensures inside { GoesOn result (state S.Store tx.old.conn.now) (state S.Store tx.new.conn.now) }
    ensures kept { CommitStays (state S.Store tx.old.conn.now) (state S.Store tx.new.conn.now) }
    ensures survives { Survives (state S.Store tx.old.conn.now) (state S.Store tx.new.conn.now) (λ _. ⊥) }
{
    add_acts(alloc, tx, account, sub, all)?;
    put_account(tx, account, sub)
}

/// The rows of acts are added, and of their entries, act by act.
fn add_acts<S: Alter>(
    alloc: Global,
    tx: &mut Transaction<'_, S>,
    account: &mut Account,
    sub: &[u8],
    all: &[Act],
) -> Result<(), Error>
    requires none { account.old.acts ≡ [] }
    requires own { acts account.old.terms all.now ≡ all.now }
    ensures same_reference { tx.new.conn.ghost_name ≡ tx.old.conn.ghost_name }
    ensures terms { account.new.terms ≡ account.old.terms }
    ensures acts { OnOk result (account.new.acts ≡ all.now) }
    ensures added { HasCleanDisk (state S.Store tx.new.conn.now) → IsTrue (state S.Store tx.old.conn.now).in_transaction
        → (state S.Store tx.old.conn.now).now.schema ≡ layout
        → OnOk result (HasRun (Gathers (act_rows_from sub.now 0 all.now) (entry_rows_to account.old.terms sub.now all.now (length all.now)) [])
        (state S.Store tx.old.conn.now) (state S.Store tx.new.conn.now)) }
    ensures inside { GoesOn result (state S.Store tx.old.conn.now) (state S.Store tx.new.conn.now) }
    ensures kept { CommitStays (state S.Store tx.old.conn.now) (state S.Store tx.new.conn.now) }
    ensures survives { Survives (state S.Store tx.old.conn.now) (state S.Store tx.new.conn.now) (λ _. ⊥) }
{
    one_more_act();
    leaving_out_changes_nothing();
    for i in 0..all.len() {
        add_next(alloc, tx, account, sub, &all[i])?;
    }
    Ok(())
}

/// The row of the next act of an account is added, with those of the entries that it adds, and the account makes it.
fn add_next<S: Alter>(
    alloc: Global,
    tx: &mut Transaction<'_, S>,
    account: &mut Account,
    sub: &[u8],
    act: &Act,
) -> Result<(), Error>
    ensures same_reference { tx.new.conn.ghost_name ≡ tx.old.conn.ghost_name }
    ensures terms { account.new.terms ≡ account.old.terms }
    ensures acts { OnOk result (account.new.acts ≡ acts account.old.terms (account.old.acts ++ act.now ∷ [])) }
    ensures added { HasCleanDisk (state S.Store tx.new.conn.now) → IsTrue (state S.Store tx.old.conn.now).in_transaction
        → (state S.Store tx.old.conn.now).now.schema ≡ layout
        → OnOk result (AddsNext account.old.terms sub.now account.old.acts act.now (state S.Store tx.old.conn.now) (state S.Store tx.new.conn.now)) }
    ensures inside { GoesOn result (state S.Store tx.old.conn.now) (state S.Store tx.new.conn.now) }
    ensures kept { CommitStays (state S.Store tx.old.conn.now) (state S.Store tx.new.conn.now) }
    ensures survives { Survives (state S.Store tx.old.conn.now) (state S.Store tx.new.conn.now) (λ _. ⊥) }
{
    let Ok(place) = u32::try_from(account.acts().len() + 1) else {
        return Err(Error::SqliteFailure(ErrorCode::IntegerOverflow));
    };
    let body = write_act(alloc, act)?;
    let step = account.prepare(act.copy()?)?;
    let added = put_act(tx, sub, place, &body, step.entries());
    account.install(step);
    added
}

/// The row of an act is added, and those of its entries.
fn put_act<S: Alter>(
    tx: &mut Transaction<'_, S>,
    sub: &[u8],
    place: u32,
    body: &[u8],
    entries: &[Entry],
) -> Result<(), Error>
    ensures same_reference { tx.new.conn.ghost_name ≡ tx.old.conn.ghost_name }
    ensures added { HasCleanDisk (state S.Store tx.new.conn.now) → IsTrue (state S.Store tx.old.conn.now).in_transaction
        → (state S.Store tx.old.conn.now).now.schema ≡ layout
        → OnOk result (HasRun (Gathers (act_row sub.now place body.now ∷ []) (entry_rows_of sub.now place 0 entries.now) []) (state S.Store tx.old.conn.now) (state S.Store tx.new.conn.now)) }
    ensures inside { GoesOn result (state S.Store tx.old.conn.now) (state S.Store tx.new.conn.now) }
    ensures kept { CommitStays (state S.Store tx.old.conn.now) (state S.Store tx.new.conn.now) }
    ensures survives { Survives (state S.Store tx.old.conn.now) (state S.Store tx.new.conn.now) (λ _. ⊥) }
{
    add_act(tx, sub, place, body)?;
    add_entries(tx, sub, place, entries)
}

/// The row of an account is added, which counts its acts and has its funds.
fn put_account<S: Alter>(
    tx: &mut Transaction<'_, S>,
    account: &Account,
    sub: &[u8],
) -> Result<(), Error>
    ensures same_reference { tx.new.conn.ghost_name ≡ tx.old.conn.ghost_name }
    ensures added { HasCleanDisk (state S.Store tx.new.conn.now) → IsTrue (state S.Store tx.old.conn.now).in_transaction
        → (state S.Store tx.old.conn.now).now.schema ≡ layout
        → OnOk result (HasRun (AddsAccount (account_row sub.now (length account.now.acts) (funds account.now.terms account.now.acts))) (state S.Store tx.old.conn.now) (state S.Store tx.new.conn.now)) }
    ensures inside { GoesOn result (state S.Store tx.old.conn.now) (state S.Store tx.new.conn.now) }
    ensures kept { CommitStays (state S.Store tx.old.conn.now) (state S.Store tx.new.conn.now) }
    ensures survives { Survives (state S.Store tx.old.conn.now) (state S.Store tx.new.conn.now) (λ _. ⊥) }
{
    let Ok(count) = u32::try_from(account.acts().len()) else {
        return Err(Error::SqliteFailure(ErrorCode::IntegerOverflow));
    };
    let funds = i64::try_from(account.funds()).unwrap();
    add_account(tx, sub, count, funds)
}
