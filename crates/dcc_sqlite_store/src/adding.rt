//! The statements of an append, each inside its transaction.

ghost use Rattle.std.specs.Prelude.{◌≡◌, [], ◌∷◌, IsTrue, IfOk, OnOk};
ghost use Rattle.sqlite.specs.State.{HasCleanDisk, Survives};
ghost use Rattle.sqlite.specs.Held.{state};
ghost use Rattle.dcc_sqlite_store.specs.Tables.{layout};
ghost use Rattle.dcc_sqlite_rows.specs.Rows.{act_row, entry_cells, entry_row, account_row, entry_rows_of};
ghost use Rattle.dcc_sqlite_store.specs.inner.Inside.{GoesOn, CommitStays};
ghost use Rattle.dcc_sqlite_store.specs.inner.Trees.{account_tree, AddsActs, AddsEntries, DropsAccount, AddsAccount, SetsAccount, Appends, IsKeyed, HasRun};

use dcc_act::Entry;
use dcc_sqlite_rows::kind_code;
use sqlite::{Alter, Error, ErrorCode, Transaction, params};

/// The rows of an act, of its entries and of its subscriber's account are written.
pub fn add_rows<S: Alter>(
    tx: &mut Transaction<'_, S>,
    sub: &[u8],
    place: u32,
    body: &[u8],
    entries: &[Entry],
    funds: i64,
) -> Result<(), Error>
    ensures same_reference { tx.new.conn.ghost_name ≡ tx.old.conn.ghost_name }
    ensures added { HasCleanDisk (state S.Store tx.new.conn.now) → IsTrue (state S.Store tx.old.conn.now).in_transaction
        → (state S.Store tx.old.conn.now).now.schema ≡ layout
        → IsKeyed ((state S.Store tx.old.conn.now).now.trees account_tree)
        → OnOk result (HasRun (Appends sub.now place body.now entries.now funds) (state S.Store tx.old.conn.now) (state S.Store tx.new.conn.now)) }
    ensures inside { GoesOn result (state S.Store tx.old.conn.now) (state S.Store tx.new.conn.now) }
    ensures kept { CommitStays (state S.Store tx.old.conn.now) (state S.Store tx.new.conn.now) }
    ensures survives { Survives (state S.Store tx.old.conn.now) (state S.Store tx.new.conn.now) (λ _. ⊥) }
{
    add_act(tx, sub, place, body)?;
    add_entries(tx, sub, place, entries)?;
    set_account(tx, sub, place, funds)
}

/// The row of an act is added.
pub fn add_act<S: Alter>(
    tx: &mut Transaction<'_, S>,
    sub: &[u8],
    place: u32,
    body: &[u8],
) -> Result<(), Error>
    ensures same_reference { tx.new.conn.ghost_name ≡ tx.old.conn.ghost_name }
    ensures added { HasCleanDisk (state S.Store tx.new.conn.now) → IsTrue (state S.Store tx.old.conn.now).in_transaction
        → (state S.Store tx.old.conn.now).now.schema ≡ layout
        → OnOk result (HasRun (AddsActs (act_row sub.now place body.now ∷ [])) (state S.Store tx.old.conn.now) (state S.Store tx.new.conn.now)) }
    ensures inside { GoesOn result (state S.Store tx.old.conn.now) (state S.Store tx.new.conn.now) }
    ensures kept { CommitStays (state S.Store tx.old.conn.now) (state S.Store tx.new.conn.now) }
    ensures survives { Survives (state S.Store tx.old.conn.now) (state S.Store tx.new.conn.now) (λ _. ⊥) }
{
    tx.execute(
        "INSERT INTO act VALUES (?1, ?2, ?3)",
        params![sub, place, body],
    )?;
    Ok(())
}

/// The rows of the entries of an act are added, line by line.
pub fn add_entries<S: Alter>(
    tx: &mut Transaction<'_, S>,
    sub: &[u8],
    place: u32,
    entries: &[Entry],
) -> Result<(), Error>
    ensures same_reference { tx.new.conn.ghost_name ≡ tx.old.conn.ghost_name }
    ensures added { HasCleanDisk (state S.Store tx.new.conn.now) → IsTrue (state S.Store tx.old.conn.now).in_transaction
        → (state S.Store tx.old.conn.now).now.schema ≡ layout
        → OnOk result (HasRun (AddsEntries (entry_rows_of sub.now place 0 entries.now)) (state S.Store tx.old.conn.now) (state S.Store tx.new.conn.now)) }
    ensures inside { GoesOn result (state S.Store tx.old.conn.now) (state S.Store tx.new.conn.now) }
    ensures kept { CommitStays (state S.Store tx.old.conn.now) (state S.Store tx.new.conn.now) }
    ensures survives { Survives (state S.Store tx.old.conn.now) (state S.Store tx.new.conn.now) (λ _. ⊥) }
{
    for i in 0..entries.len() {
        let Ok(line) = u32::try_from(i + 1) else {
            return Err(Error::SqliteFailure(ErrorCode::IntegerOverflow));
        };
        add_entry(tx, sub, place, line, &entries[i])?;
    }
    Ok(())
}

/// The row of one entry is added.
fn add_entry<S: Alter>(
    tx: &mut Transaction<'_, S>,
    sub: &[u8],
    place: u32,
    line: u32,
    entry: &Entry,
) -> Result<(), Error>
    ensures same_reference { tx.new.conn.ghost_name ≡ tx.old.conn.ghost_name }
    ensures added { HasCleanDisk (state S.Store tx.new.conn.now) → IsTrue (state S.Store tx.old.conn.now).in_transaction
        → (state S.Store tx.old.conn.now).now.schema ≡ layout
        → OnOk result (HasRun (AddsEntries (entry_row sub.now place line entry.now ∷ [])) (state S.Store tx.old.conn.now) (state S.Store tx.new.conn.now)) }
    ensures inside { GoesOn result (state S.Store tx.old.conn.now) (state S.Store tx.new.conn.now) }
    ensures kept { CommitStays (state S.Store tx.old.conn.now) (state S.Store tx.new.conn.now) }
    ensures survives { Survives (state S.Store tx.old.conn.now) (state S.Store tx.new.conn.now) (λ _. ⊥) }
{
    let Ok(units) = i64::try_from(entry.units) else {
        return Err(Error::SqliteFailure(ErrorCode::IntegerOverflow));
    };
    let kind = kind_code(entry.kind);
    put_entry(tx, sub, place, line, kind, entry.group, units, entry.amount)
}

/// The row of these columns is added.
fn put_entry<S: Alter>(
    tx: &mut Transaction<'_, S>,
    sub: &[u8],
    place: u32,
    line: u32,
    kind: u32,
    group: Option<u32>,
    units: i64,
    amount: i64,
) -> Result<(), Error>
    ensures same_reference { tx.new.conn.ghost_name ≡ tx.old.conn.ghost_name }
    ensures added { HasCleanDisk (state S.Store tx.new.conn.now) → IsTrue (state S.Store tx.old.conn.now).in_transaction
        → (state S.Store tx.old.conn.now).now.schema ≡ layout
        → OnOk result (HasRun (AddsEntries (entry_cells sub.now place line kind group units amount ∷ [])) (state S.Store tx.old.conn.now) (state S.Store tx.new.conn.now)) }
    ensures inside { GoesOn result (state S.Store tx.old.conn.now) (state S.Store tx.new.conn.now) }
    ensures kept { CommitStays (state S.Store tx.old.conn.now) (state S.Store tx.new.conn.now) }
    ensures survives { Survives (state S.Store tx.old.conn.now) (state S.Store tx.new.conn.now) (λ _. ⊥) }
{
    tx.execute(
        "INSERT INTO entry VALUES (?1, ?2, ?3, ?4, ?5, ?6, ?7)",
        params![sub, place, line, kind, group, units, amount],
    )?;
    Ok(())
}

/// The row of an account is set: it takes the place of the row of this subscriber, if there is one.
fn set_account<S: Alter>(
    tx: &mut Transaction<'_, S>,
    sub: &[u8],
    acts: u32,
    funds: i64,
) -> Result<(), Error>
    ensures same_reference { tx.new.conn.ghost_name ≡ tx.old.conn.ghost_name }
    ensures set { HasCleanDisk (state S.Store tx.new.conn.now) → IsTrue (state S.Store tx.old.conn.now).in_transaction
        → (state S.Store tx.old.conn.now).now.schema ≡ layout
        → IsKeyed ((state S.Store tx.old.conn.now).now.trees account_tree)
        → OnOk result (HasRun (SetsAccount sub.now (account_row sub.now acts funds)) (state S.Store tx.old.conn.now) (state S.Store tx.new.conn.now)) }
    ensures inside { GoesOn result (state S.Store tx.old.conn.now) (state S.Store tx.new.conn.now) }
    ensures kept { CommitStays (state S.Store tx.old.conn.now) (state S.Store tx.new.conn.now) }
    ensures survives { Survives (state S.Store tx.old.conn.now) (state S.Store tx.new.conn.now) (λ _. ⊥) }
{
    match update_account(tx, sub, acts, funds)? {
        0 => add_account(tx, sub, acts, funds),
        1 => Ok(()),
        // A subscriber has one row at most.
        _ => Err(Error::SqliteFailure(ErrorCode::DatabaseCorrupt)),
    }
}

/// The row of a subscriber's account is set, if there is one. Returns the number of rows that were set.
fn update_account<S: Alter>(
    tx: &mut Transaction<'_, S>,
    sub: &[u8],
    acts: u32,
    funds: i64,
) -> Result<usize, Error>
    ensures same_reference { tx.new.conn.ghost_name ≡ tx.old.conn.ghost_name }
    ensures none { HasCleanDisk (state S.Store tx.new.conn.now) → IsTrue (state S.Store tx.old.conn.now).in_transaction
        → (state S.Store tx.old.conn.now).now.schema ≡ layout
        → IsKeyed ((state S.Store tx.old.conn.now).now.trees account_tree)
        → IfOk result (λ count. count ≡ 0 → HasRun (DropsAccount sub.now) (state S.Store tx.old.conn.now) (state S.Store tx.new.conn.now)) }
    ensures set { HasCleanDisk (state S.Store tx.new.conn.now) → IsTrue (state S.Store tx.old.conn.now).in_transaction
        → (state S.Store tx.old.conn.now).now.schema ≡ layout
        → IsKeyed ((state S.Store tx.old.conn.now).now.trees account_tree)
        → IfOk result (λ count. count ≡ 1
        → HasRun (SetsAccount sub.now (account_row sub.now acts funds)) (state S.Store tx.old.conn.now) (state S.Store tx.new.conn.now)) }
    ensures inside { GoesOn result (state S.Store tx.old.conn.now) (state S.Store tx.new.conn.now) }
    ensures kept { CommitStays (state S.Store tx.old.conn.now) (state S.Store tx.new.conn.now) }
    ensures survives { Survives (state S.Store tx.old.conn.now) (state S.Store tx.new.conn.now) (λ _. ⊥) }
{
    let count = tx.execute(
        "UPDATE account SET acts = ?2, funds = ?3 WHERE sub = ?1",
        params![sub, acts, funds],
    )?;
    Ok(count)
}

/// The row of an account is added.
pub fn add_account<S: Alter>(
    tx: &mut Transaction<'_, S>,
    sub: &[u8],
    acts: u32,
    funds: i64,
) -> Result<(), Error>
    ensures same_reference { tx.new.conn.ghost_name ≡ tx.old.conn.ghost_name }
    ensures added { HasCleanDisk (state S.Store tx.new.conn.now) → IsTrue (state S.Store tx.old.conn.now).in_transaction
        → (state S.Store tx.old.conn.now).now.schema ≡ layout
        → OnOk result (HasRun (AddsAccount (account_row sub.now acts funds)) (state S.Store tx.old.conn.now) (state S.Store tx.new.conn.now)) }
    ensures inside { GoesOn result (state S.Store tx.old.conn.now) (state S.Store tx.new.conn.now) }
    ensures kept { CommitStays (state S.Store tx.old.conn.now) (state S.Store tx.new.conn.now) }
    ensures survives { Survives (state S.Store tx.old.conn.now) (state S.Store tx.new.conn.now) (λ _. ⊥) }
{
    tx.execute(
        "INSERT INTO account VALUES (?1, ?2, ?3)",
        params![sub, acts, funds],
    )?;
    Ok(())
}
