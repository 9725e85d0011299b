//! A store of layout 1, read and judged.

ghost use Rattle.std.specs.Prelude.{◌≡◌, ◌≢◌, ◌⊎◌, ◌↔◌, ◌≤◌, true, false, Err, All, List, map, IfOk, OnOk, OnErr};
ghost use Rattle.sqlite.specs.View.{doubt};
ghost use Rattle.sqlite.specs.State.{HasCleanDisk, Survives, IsUnchanged};
ghost use Rattle.sqlite.specs.Held.{state};
ghost use Rattle.dcc_act_codec.specs.Limits.{IsAct};
ghost use Rattle.dcc_act_codec.specs.OldRecords.{IsOldAct};
ghost use Rattle.dcc_store.specs.Books.{PageView};
ghost use Rattle.std.specs.List.{AllByRecursion};
ghost use Rattle.dcc_sqlite_rows.specs.Pages.{IsSub, IsOwn, book_entry_rows, book_account_rows};
ghost use Rattle.dcc_sqlite_rows.specs.Stored.{Rows, line_row, AreOfBook};
ghost use Rattle.dcc_sqlite_rows.specs.OldRows.{old_line_row, IsOldDamaged, AreOfOldBook};
ghost use Rattle.dcc_sqlite_store.specs.Tables.{layout};
ghost use Rattle.dcc_sqlite_store.specs.Upgrade.{HasOldSetting, IsOldDamagedIn, OldDisagreeIn};
ghost use Rattle.dcc_sqlite_store.specs.inner.Trees.{IsUndone};
ghost use Rattle.dcc_sqlite_store.specs.inner.Reading.{IsSettled, HasOtherLayout};
ghost use Rattle.dcc_sqlite_store.specs.inner.Opening.{rows_in};
ghost use Rattle.dcc_sqlite_store.specs.inner.Upgrading.{ShowsOldPages};

use crate::fault::OpenFault;
use crate::opening::{Found, read_store};
use crate::parts::{Part, rows_of};
use crate::rising::are_rising;
use crate::setting::{Setting, is_setting_in};
use crate::telling::open_fault;
use dcc_sqlite_rows::{
    Line, ReadFault, are_of_subs, book_of, judge, old_lines_are_of_old_pages, read_old_lines,
};
use dcc_store::{Book, Page, StoreFault};
use dcc_tariff::Terms;
use sqlite::{Alter, Connection, Row};
use std::alloc::{AllocError, Global};
use std::hash::RandomState;

/// Whether the store is one of layout 1 of this setting. Want of memory leaves a store that may be used.
pub fn is_old_store<S: Alter>(
    alloc: Global,
    conn: &mut Connection<S>,
    setting: &Setting<'_>,
) -> Result<bool, StoreFault>
    requires { conn.old.in_transaction ≡ false }
    ensures mode { conn.new.in_transaction ≡ false }
    ensures clean { doubt (state S.Store conn.old).is_clean ≤ doubt (state S.Store conn.new).is_clean }
    ensures told { HasCleanDisk (state S.Store conn.new) → conn.old.schema ≡ layout
        → IfOk result (λ is_old. is_old ≡ true ↔ HasOldSetting setting.now (state S.Store conn.old).now.trees) }
    ensures same { HasCleanDisk (state S.Store conn.new) → conn.old.schema ≡ layout
        → OnOk result (IsUnchanged (state S.Store conn.old) (state S.Store conn.new)) }
    ensures still { HasCleanDisk (state S.Store conn.new) → conn.old.schema ≡ layout → IsSettled (state S.Store conn.old)
        → result ≢ Err StoreFault.Device → IsUndone (state S.Store conn.old) (state S.Store conn.new) }
    ensures fault { OnErr result ((result ≡ Err StoreFault.Memory) ⊎ (result ≡ Err StoreFault.Device)) }
    ensures crash { Survives (state S.Store conn.old) (state S.Store conn.new) (HasOtherLayout (state S.Store conn.old)) }
{
    let rows = rows_of(alloc, conn, Part::Setting)?;
    Ok(is_setting_in(&rows, setting, 1))
}

/// The book in the tables of a store of layout 1, and how many acts it has. Every fault but [`OpenFault::Device`] leaves a store
/// that may be used.
pub fn read_old_book<S: Alter>(
    alloc: Global,
    conn: &mut Connection<S>,
    terms: &Terms,
    hasher: RandomState,
) -> Result<(Book, u64), OpenFault>
    requires { conn.old.in_transaction ≡ false }
    ensures mode { conn.new.in_transaction ≡ false }
    ensures clean { doubt (state S.Store conn.old).is_clean ≤ doubt (state S.Store conn.new).is_clean }
    ensures book { IfOk result (λ found. (rows : Rows) × AreOfOldBook terms.now found.0 rows) }
    ensures shown { HasCleanDisk (state S.Store conn.new) → conn.old.schema ≡ layout
        → IfOk result (λ found. ShowsOldPages terms.now (state S.Store conn.old).now.trees found.0 found.1) }
    ensures same { HasCleanDisk (state S.Store conn.new) → conn.old.schema ≡ layout
        → OnOk result (IsUnchanged (state S.Store conn.old) (state S.Store conn.new)) }
    ensures still { HasCleanDisk (state S.Store conn.new) → conn.old.schema ≡ layout → IsSettled (state S.Store conn.old)
        → result ≢ Err OpenFault.Device → IsUndone (state S.Store conn.old) (state S.Store conn.new) }
    ensures damaged { HasCleanDisk (state S.Store conn.new) → conn.old.schema ≡ layout
        → result ≡ Err OpenFault.Damaged → IsOldDamagedIn (state S.Store conn.old).now.trees }
    ensures disagree { HasCleanDisk (state S.Store conn.new) → conn.old.schema ≡ layout
        → result ≡ Err OpenFault.Disagree → OldDisagreeIn terms.now (state S.Store conn.old).now.trees }
    ensures faults { (result ≢ Err OpenFault.Empty) × (result ≢ Err OpenFault.Layout) }
    ensures crash { Survives (state S.Store conn.old) (state S.Store conn.new) (HasOtherLayout (state S.Store conn.old)) }
{
    let found = match read_store(alloc, conn) {
        Ok(found) => found,
        Err(fault) => return Err(open_fault(fault)),
    };
    let acts = found.acts.len() as u64;
    let book = judge_old_store(alloc, &found, terms, hasher)?;
    Ok((book, acts))
}

/// The book whose rows of layout 1 were found.
fn judge_old_store(
    alloc: Global,
    found: &Found,
    terms: &Terms,
    hasher: RandomState,
) -> Result<Book, OpenFault>
    ensures book { IfOk result (λ book. AreOfOldBook terms.now book (rows_in found.now)) }
    ensures damaged { result ≡ Err OpenFault.Damaged → IsOldDamaged (rows_in found.now) }
    ensures disagree { result ≡ Err OpenFault.Disagree
        → (¬ IsOldDamaged (rows_in found.now)) × ((pages : List PageView) → ¬ AreOfOldBook terms.now pages (rows_in found.now)) }
    ensures faults { (result ≢ Err OpenFault.Empty) × (result ≢ Err OpenFault.Layout) }
{
    if !are_rising(&found.rowids) {
        return Err(OpenFault::Device);
    }
    judge_old_rows(
        alloc,
        terms,
        hasher,
        &found.acts,
        &found.entries,
        &found.accounts,
    )
}

/// The book whose rows these are, of the tables of acts, of entries and of accounts of layout 1, each in the order of its key.
///
/// Errors: [`OpenFault::Memory`]; [`OpenFault::Damaged`], a row is no act's, or is of nobody; [`OpenFault::Disagree`], no row
/// is damaged, and they are not those of a book under these terms.
fn judge_old_rows(
    alloc: Global,
    terms: &Terms,
    hasher: RandomState,
    acts: &[Row],
    entries: &[Row],
    accounts: &[Row],
) -> Result<Book, OpenFault>
    ensures book { IfOk result (λ book. AreOfOldBook terms.now book (record { acts = acts.now; entries = entries.now; accounts = accounts.now })) }
    ensures damaged { result ≡ Err OpenFault.Damaged → IsOldDamaged (record { acts = acts.now; entries = entries.now; accounts = accounts.now }) }
    ensures disagree { result ≡ Err OpenFault.Disagree
        → (¬ IsOldDamaged (record { acts = acts.now; entries = entries.now; accounts = accounts.now }))
        × ((pages : List PageView) → ¬ AreOfOldBook terms.now pages (record { acts = acts.now; entries = entries.now; accounts = accounts.now })) }
    ensures faults { OnErr result ((result ≡ Err OpenFault.Memory) ⊎ ((result ≡ Err OpenFault.Damaged) ⊎ (result ≡ Err OpenFault.Disagree))) }
{
    old_lines_are_of_old_pages();
    let lines = old_lines_in(alloc, acts, entries, accounts)?;
    book_of_lines(alloc, terms, hasher, lines, entries, accounts)
}

/// The lines of the rows of acts, where no row is damaged.
fn old_lines_in(
    alloc: Global,
    acts: &[Row],
    entries: &[Row],
    accounts: &[Row],
) -> Result<Vec<Line>, OpenFault>
    ensures lines { IfOk result (λ lines. acts.now ≡ map old_line_row lines.items) }
    ensures subs { IfOk result (λ lines. All (λ line. IsSub line.sub) lines.items) }
    ensures fit { IfOk result (λ lines. All (λ line. IsOldAct line.act) lines.items) }
    ensures whole { OnOk result (¬ IsOldDamaged (record { acts = acts.now; entries = entries.now; accounts = accounts.now })) }
    ensures damaged { result ≡ Err OpenFault.Damaged → IsOldDamaged (record { acts = acts.now; entries = entries.now; accounts = accounts.now }) }
    ensures faults { OnErr result ((result ≡ Err OpenFault.Memory) ⊎ (result ≡ Err OpenFault.Damaged)) }
{
    let lines = match read_old_lines(alloc, acts) {
        Ok(lines) => lines,
        Err(ReadFault::Memory) => return Err(OpenFault::Memory),
        Err(ReadFault::Damaged) => return Err(OpenFault::Damaged),
    };
    if !are_of_subs(entries) {
        return Err(OpenFault::Damaged);
    }
    if !are_of_subs(accounts) {
        return Err(OpenFault::Damaged);
    }
    Ok(lines)
}

/// The book of these lines, whose rows of entries and of accounts these are.
fn book_of_lines(
    alloc: Global,
    terms: &Terms,
    hasher: RandomState,
    lines: Vec<Line>,
    entries: &[Row],
    accounts: &[Row],
) -> Result<Book, OpenFault>
    requires subs { All (λ line. IsSub line.sub) lines.items }
    requires fit { All (λ line. IsAct line.act) lines.items }
    ensures book { IfOk result (λ book. AreOfBook terms.now book (record { acts = map line_row lines.items; entries = entries.now; accounts = accounts.now })) }
    ensures disagree { result ≡ Err OpenFault.Disagree
        → (pages : List PageView) → ¬ AreOfBook terms.now pages (record { acts = map line_row lines.items; entries = entries.now; accounts = accounts.now }) }
    ensures faults { OnErr result ((result ≡ Err OpenFault.Memory) ⊎ (result ≡ Err OpenFault.Disagree)) }
{
    let Some(book) = book_of(alloc, lines)? else {
        return Err(OpenFault::Disagree);
    };
    match are_of_book(alloc, terms, hasher, book.as_slice(), entries, accounts) {
        Ok(true) => Ok(book),
        Ok(false) => {
            drop(book);
            Err(OpenFault::Disagree)
        }
        Err(error) => {
            drop(book);
            Err(OpenFault::from(error))
        }
    }
}

/// Whether the acts of pages are those that each list itself makes, and these are the rows of their entries and accounts.
fn are_of_book(
    alloc: Global,
    terms: &Terms,
    hasher: RandomState,
    pages: &[Page],
    entries: &[Row],
    accounts: &[Row],
) -> Result<bool, AllocError>
    ensures own { IfOk result (λ are. are ≡ true → AllByRecursion (IsOwn terms.now) pages.now) }
    ensures entries { IfOk result (λ are. are ≡ true → entries.now ≡ book_entry_rows terms.now pages.now) }
    ensures accounts { IfOk result (λ are. are ≡ true → accounts.now ≡ book_account_rows terms.now pages.now) }
    ensures none { IfOk result (λ are. are ≡ false → AllByRecursion (IsOwn terms.now) pages.now
        → ¬ ((entries.now ≡ book_entry_rows terms.now pages.now) × (accounts.now ≡ book_account_rows terms.now pages.now))) }
{
    Ok(judge(alloc, terms, hasher, pages, entries, accounts)?.is_some())
}
