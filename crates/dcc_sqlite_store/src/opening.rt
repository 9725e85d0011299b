//! The opening of a store.

ghost use Rattle.std.specs.Prelude.{◌≡◌, ◌≢◌, ◌⊎◌, ◌≤◌, false, Err, IsTrue, IfOk, OnOk, OnErr, List, [], ◌∷◌};
ghost use Rattle.sqlite.specs.View.{doubt};
ghost use Rattle.sqlite.specs.State.{HasCleanDisk, Survives, IsUnchanged};
ghost use Rattle.sqlite.specs.Held.{state};
ghost use Rattle.dcc_store.specs.Books.{PageView};
ghost use Rattle.dcc_sqlite_rows.specs.Stored.{IsDamaged, AreOfBook};
ghost use Rattle.dcc_sqlite_store.specs.Tables.{layout};
ghost use Rattle.dcc_sqlite_store.specs.Trees.{setting_rows};
ghost use Rattle.dcc_sqlite_store.specs.Queries.{Shows};
ghost use Rattle.dcc_sqlite_store.specs.Setting.{setting_row};
ghost use Rattle.dcc_sqlite_store.specs.Opening.{HasOtherSetting, IsDamagedIn, DisagreeIn};
ghost use Rattle.dcc_sqlite_store.specs.inner.Trees.{IsUndone};
ghost use Rattle.dcc_sqlite_store.specs.inner.Reading.{IsSettled, HasOtherLayout, query_of};
ghost use Rattle.dcc_sqlite_store.specs.inner.Keeping.{KeepsBook};
ghost use Rattle.dcc_sqlite_store.specs.inner.Opening.{ShowsStore, IsOfBook, rows_in};

use crate::fault::OpenFault;
use crate::judging::judge_rows;
use crate::parts::{Part, rows_of};
use crate::rising::are_rising;
use crate::setting::{Setting, is_setting};
use crate::telling::open_fault;
use dcc_act::Sub;
use dcc_sqlite_rows::{Tally, pages_hold_their_rows};
use dcc_store::StoreFault;
use sqlite::{Alter, Connection, Row};
use std::alloc::Global;
use std::collections::BTreeMap;
use std::hash::RandomState;

/// What is read of a store.
#[derive(Drop)]
pub struct Found {
    pub setting: Vec<Row>,
    pub rowids: Vec<Row>,
    pub acts: Vec<Row>,
    pub entries: Vec<Row>,
    pub accounts: Vec<Row>,
}

/// The tallies of the book in the tables of a store of this setting. Every fault but [`OpenFault::Device`] leaves a store that
/// may be used.
pub fn open_store<S: Alter>(
    alloc: Global,
    conn: &mut Connection<S>,
    setting: &Setting<'_>,
    hasher: RandomState,
) -> Result<BTreeMap<Sub, Tally>, OpenFault>
    requires idle { conn.old.in_transaction ≡ false }
    requires settled { IsSettled (state S.Store conn.old) }
    ensures mode { conn.new.in_transaction ≡ false }
    ensures clean { doubt (state S.Store conn.old).is_clean ≤ doubt (state S.Store conn.new).is_clean }
    ensures kept { HasCleanDisk (state S.Store conn.new) → conn.old.schema ≡ layout
        → IfOk result (λ tallies. KeepsBook setting.now.terms (state S.Store conn.new) tallies.entries) }
    ensures set { HasCleanDisk (state S.Store conn.new) → conn.old.schema ≡ layout
        → IfOk result (λ tallies. setting_rows (state S.Store conn.new).now.trees ≡ setting_row setting.now ∷ []) }
    ensures still { HasCleanDisk (state S.Store conn.new) → conn.old.schema ≡ layout
        → result ≢ Err OpenFault.Device → IsUndone (state S.Store conn.old) (state S.Store conn.new) }
    ensures other { HasCleanDisk (state S.Store conn.new) → conn.old.schema ≡ layout
        → result ≡ Err OpenFault.Layout → HasOtherSetting setting.now (state S.Store conn.old).now.trees }
    ensures damaged { HasCleanDisk (state S.Store conn.new) → conn.old.schema ≡ layout
        → result ≡ Err OpenFault.Damaged → IsDamagedIn (state S.Store conn.old).now.trees }
    ensures disagree { HasCleanDisk (state S.Store conn.new) → conn.old.schema ≡ layout
        → result ≡ Err OpenFault.Disagree → DisagreeIn setting.now.terms (state S.Store conn.old).now.trees }
    ensures ours { HasCleanDisk (state S.Store conn.new) → conn.old.schema ≡ layout
        → (result ≡ Err OpenFault.Damaged) ⊎ (result ≡ Err OpenFault.Disagree)
        → setting_rows (state S.Store conn.old).now.trees ≡ setting_row setting.now ∷ [] }
    ensures filled { result ≢ Err OpenFault.Empty }
    ensures was_open { HasCleanDisk (state S.Store conn.new) → conn.old.schema ≡ layout → OnOk result (IsTrue (state S.Store conn.old).is_open) }
    ensures crash { Survives (state S.Store conn.old) (state S.Store conn.new) (HasOtherLayout (state S.Store conn.old)) }
{
    pages_hold_their_rows();
    let found = match read_store(alloc, conn) {
        Ok(found) => found,
        Err(fault) => return Err(open_fault(fault)),
    };
    judge_store(alloc, found, setting, hasher)
}

/// All that is read of a store. Want of memory leaves a store that may be used.
pub fn read_store<S: Alter>(alloc: Global, conn: &mut Connection<S>) -> Result<Found, StoreFault>
    requires { conn.old.in_transaction ≡ false }
    ensures mode { conn.new.in_transaction ≡ false }
    ensures clean { doubt (state S.Store conn.old).is_clean ≤ doubt (state S.Store conn.new).is_clean }
    ensures rows { HasCleanDisk (state S.Store conn.new) → conn.old.schema ≡ layout
        → IfOk result (λ found. ShowsStore (state S.Store conn.old).now.trees found) }
    ensures same { HasCleanDisk (state S.Store conn.new) → conn.old.schema ≡ layout
        → OnOk result (IsUnchanged (state S.Store conn.old) (state S.Store conn.new)) }
    ensures still { HasCleanDisk (state S.Store conn.new) → conn.old.schema ≡ layout → IsSettled (state S.Store conn.old)
        → result ≢ Err StoreFault.Device → IsUndone (state S.Store conn.old) (state S.Store conn.new) }
    ensures fault { OnErr result ((result ≡ Err StoreFault.Memory) ⊎ (result ≡ Err StoreFault.Device)) }
    ensures crash { Survives (state S.Store conn.old) (state S.Store conn.new) (HasOtherLayout (state S.Store conn.old)) }
{
    let labels = rows_of_two(alloc, conn, Part::Setting, Part::Rowids)?;
    let books = rows_of_two(alloc, conn, Part::Acts, Part::Entries)?;
    let accounts = rows_of(alloc, conn, Part::Accounts)?;
    let (setting, rowids) = labels;
    let (acts, entries) = books;
    Ok(Found {
        setting,
        rowids,
        acts,
        entries,
        accounts,
    })
}

/// The rows of two parts.
fn rows_of_two<S: Alter>(
    alloc: Global,
    conn: &mut Connection<S>,
    one: Part,
    other: Part,
) -> Result<(Vec<Row>, Vec<Row>), StoreFault>
    requires { conn.old.in_transaction ≡ false }
    ensures mode { conn.new.in_transaction ≡ false }
    ensures clean { doubt (state S.Store conn.old).is_clean ≤ doubt (state S.Store conn.new).is_clean }
    ensures rows { HasCleanDisk (state S.Store conn.new) → conn.old.schema ≡ layout
        → IfOk result (λ both. Shows (query_of one) (state S.Store conn.old).now.trees both.0.items × Shows (query_of other) (state S.Store conn.old).now.trees both.1.items) }
    ensures same { HasCleanDisk (state S.Store conn.new) → conn.old.schema ≡ layout
        → OnOk result (IsUnchanged (state S.Store conn.old) (state S.Store conn.new)) }
    ensures still { HasCleanDisk (state S.Store conn.new) → conn.old.schema ≡ layout → IsSettled (state S.Store conn.old)
        → result ≢ Err StoreFault.Device → IsUndone (state S.Store conn.old) (state S.Store conn.new) }
    ensures fault { OnErr result ((result ≡ Err StoreFault.Memory) ⊎ (result ≡ Err StoreFault.Device)) }
    ensures crash { Survives (state S.Store conn.old) (state S.Store conn.new) (HasOtherLayout (state S.Store conn.old)) }
{
    let first = rows_of(alloc, conn, one)?;
    let second = rows_of(alloc, conn, other)?;
    Ok((first, second))
}

/// The tallies of the book whose rows were found.
fn judge_store(
    alloc: Global,
    found: Found,
    setting: &Setting<'_>,
    hasher: RandomState,
) -> Result<BTreeMap<Sub, Tally>, OpenFault>
    ensures book { IfOk result (λ tallies. IsOfBook setting.now.terms found tallies.entries) }
    ensures set { IfOk result (λ tallies. found.setting.items ≡ setting_row setting.now ∷ []) }
    ensures other { result ≡ Err OpenFault.Layout → found.setting.items ≢ setting_row setting.now ∷ [] }
    ensures damaged { result ≡ Err OpenFault.Damaged → IsDamaged (rows_in found) }
    ensures disagree { result ≡ Err OpenFault.Disagree
        → (¬ IsDamaged (rows_in found)) × ((pages : List PageView) → ¬ AreOfBook setting.now.terms pages (rows_in found)) }
    ensures ours { (result ≡ Err OpenFault.Damaged) ⊎ (result ≡ Err OpenFault.Disagree) → found.setting.items ≡ setting_row setting.now ∷ [] }
    ensures filled { result ≢ Err OpenFault.Empty }
{
    if !is_setting(&found.setting, setting) {
        return Err(OpenFault::Layout);
    }
    if !are_rising(&found.rowids) {
        return Err(OpenFault::Device);
    }
    let Found {
        setting: _,
        rowids: _,
        acts,
        entries,
        accounts,
    } = found;
    judge_rows(alloc, &setting.terms, hasher, acts, &entries, &accounts)
}
