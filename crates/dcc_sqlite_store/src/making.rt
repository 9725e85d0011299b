//! The making of a store.

ghost use Rattle.std.specs.Prelude.{◌≡◌, ◌↔◌, ◌≤◌, true, false, Err, IsTrue, OnOk, OnErr};
ghost use Rattle.sqlite.specs.View.{doubt};
ghost use Rattle.sqlite.specs.State.{HasCleanDisk, Survives};
ghost use Rattle.sqlite.specs.Held.{state};
ghost use Rattle.dcc_sqlite_store.specs.Tables.{no_schema, one_table, two_tables, three_tables, layout};
ghost use Rattle.dcc_sqlite_store.specs.inner.Inside.{GoesOn, CommitStays};
ghost use Rattle.dcc_sqlite_store.specs.inner.Trees.{HasCommitted, IsUndone};
ghost use Rattle.dcc_sqlite_store.specs.inner.Making.{HasMade, NoSetting, NoActs, NoEntries, NoRows, IsFirst};

use crate::setting::Setting;
use crate::telling::told;
use dcc_store::StoreFault;
use sqlite::{Alter, Connection, Error, Transaction, params};
use sqlite_schema::schema::Schema;

/// Whether a database has nothing in it.
pub fn is_blank(schema: &Schema) -> bool
    ensures { result ≡ true ↔ schema.now ≡ no_schema }
{
    schema.tables.as_slice().is_empty()
        && schema.indexes.as_slice().is_empty()
        && schema.views.as_slice().is_empty()
}

/// The tables are made, without acts, or nothing changes; want of memory leaves a database that may be used.
pub fn make_store<S: Alter>(
    conn: &mut Connection<S>,
    setting: &Setting<'_>,
) -> Result<(), StoreFault>
    requires { conn.old.in_transaction ≡ false }
    ensures mode { conn.new.in_transaction ≡ false }
    ensures clean { doubt (state S.Store conn.old).is_clean ≤ doubt (state S.Store conn.new).is_clean }
    ensures made { HasCleanDisk (state S.Store conn.new) → conn.old.schema ≡ no_schema
        → OnOk result (HasCommitted (λ _. IsFirst setting.now) (state S.Store conn.old) (state S.Store conn.new)) }
    ensures undone { HasCleanDisk (state S.Store conn.new) → result ≡ Err StoreFault.Memory
        → IsUndone (state S.Store conn.old) (state S.Store conn.new) }
    ensures crash { conn.old.schema ≡ no_schema → Survives (state S.Store conn.old) (state S.Store conn.new) (IsFirst setting.now) }
{
    let Err(error) = commit_tables(conn, setting) else {
        return Ok(());
    };
    let answers = conn.prepare("SELECT 1").is_ok();
    Err(told(&error, answers))
}

/// One transaction: the tables are made, or nothing changes. A stop at any call of the store leaves the one or the other.
fn commit_tables<S: Alter>(conn: &mut Connection<S>, setting: &Setting<'_>) -> Result<(), Error>
    requires { conn.old.in_transaction ≡ false }
    ensures mode { conn.new.in_transaction ≡ false }
    ensures clean { doubt (state S.Store conn.old).is_clean ≤ doubt (state S.Store conn.new).is_clean }
    ensures made { HasCleanDisk (state S.Store conn.new) → conn.old.schema ≡ no_schema
        → OnOk result (HasCommitted (λ _. IsFirst setting.now) (state S.Store conn.old) (state S.Store conn.new)) }
    ensures undone { HasCleanDisk (state S.Store conn.new) → IsTrue (state S.Store conn.new).is_open
        → OnErr result (((state S.Store conn.new).now ≡ (state S.Store conn.old).committed) × ((state S.Store conn.new).committed ≡ (state S.Store conn.old).committed)) }
    ensures crash { conn.old.schema ≡ no_schema → Survives (state S.Store conn.old) (state S.Store conn.new) (IsFirst setting.now) }
{
    let mut tx = conn.transaction();
    make_tables(&mut tx, setting)?;
    tx.commit()?;
    Ok(())
}

/// The four tables are made, and the row of the setting is written.
pub fn make_tables<S: Alter>(
    tx: &mut Transaction<'_, S>,
    setting: &Setting<'_>,
) -> Result<(), Error>
    ensures same_reference { tx.new.conn.ghost_name ≡ tx.old.conn.ghost_name }
    ensures made { HasCleanDisk (state S.Store tx.new.conn.now) → IsTrue (state S.Store tx.old.conn.now).in_transaction
        → (state S.Store tx.old.conn.now).now.schema ≡ no_schema
        → OnOk result (HasMade layout (IsFirst setting.now) (state S.Store tx.old.conn.now) (state S.Store tx.new.conn.now)) }
    ensures inside { GoesOn result (state S.Store tx.old.conn.now) (state S.Store tx.new.conn.now) }
    ensures kept { CommitStays (state S.Store tx.old.conn.now) (state S.Store tx.new.conn.now) }
    ensures survives { Survives (state S.Store tx.old.conn.now) (state S.Store tx.new.conn.now) (λ _. ⊥) }
{
    make_setting(tx)?;
    make_act(tx)?;
    make_entry(tx)?;
    make_account(tx)?;
    add_setting(tx, setting)
}

/// The table of the setting is made.
fn make_setting<S: Alter>(tx: &mut Transaction<'_, S>) -> Result<(), Error>
    ensures same_reference { tx.new.conn.ghost_name ≡ tx.old.conn.ghost_name }
    ensures made { HasCleanDisk (state S.Store tx.new.conn.now) → IsTrue (state S.Store tx.old.conn.now).in_transaction
        → (state S.Store tx.old.conn.now).now.schema ≡ no_schema
        → OnOk result (HasMade one_table NoSetting (state S.Store tx.old.conn.now) (state S.Store tx.new.conn.now)) }
    ensures inside { GoesOn result (state S.Store tx.old.conn.now) (state S.Store tx.new.conn.now) }
    ensures kept { CommitStays (state S.Store tx.old.conn.now) (state S.Store tx.new.conn.now) }
    ensures survives { Survives (state S.Store tx.old.conn.now) (state S.Store tx.new.conn.now) (λ _. ⊥) }
{
    tx.execute(
        "CREATE TABLE setting (id INTEGER PRIMARY KEY, layout INTEGER NOT NULL, shard INTEGER NOT NULL, shards INTEGER NOT NULL, host TEXT NOT NULL, realm TEXT NOT NULL, validity INTEGER NOT NULL, hold INTEGER NOT NULL, currency INTEGER NOT NULL, exponent INTEGER NOT NULL) STRICT",
        &[],
    )?;
    Ok(())
}

/// The table of acts is made.
fn make_act<S: Alter>(tx: &mut Transaction<'_, S>) -> Result<(), Error>
    ensures same_reference { tx.new.conn.ghost_name ≡ tx.old.conn.ghost_name }
    ensures made { HasCleanDisk (state S.Store tx.new.conn.now) → IsTrue (state S.Store tx.old.conn.now).in_transaction
        → (state S.Store tx.old.conn.now).now.schema ≡ one_table
        → NoSetting (state S.Store tx.old.conn.now).now.trees
        → OnOk result (HasMade two_tables NoActs (state S.Store tx.old.conn.now) (state S.Store tx.new.conn.now)) }
    ensures inside { GoesOn result (state S.Store tx.old.conn.now) (state S.Store tx.new.conn.now) }
    ensures kept { CommitStays (state S.Store tx.old.conn.now) (state S.Store tx.new.conn.now) }
    ensures survives { Survives (state S.Store tx.old.conn.now) (state S.Store tx.new.conn.now) (λ _. ⊥) }
{
    tx.execute(
        "CREATE TABLE act (sub BLOB NOT NULL, place INTEGER NOT NULL, body BLOB NOT NULL, PRIMARY KEY (sub, place)) STRICT",
        &[],
    )?;
    Ok(())
}

/// The table of entries is made.
fn make_entry<S: Alter>(tx: &mut Transaction<'_, S>) -> Result<(), Error>
    ensures same_reference { tx.new.conn.ghost_name ≡ tx.old.conn.ghost_name }
    ensures made { HasCleanDisk (state S.Store tx.new.conn.now) → IsTrue (state S.Store tx.old.conn.now).in_transaction
        → (state S.Store tx.old.conn.now).now.schema ≡ two_tables
        → NoActs (state S.Store tx.old.conn.now).now.trees
        → OnOk result (HasMade three_tables NoEntries (state S.Store tx.old.conn.now) (state S.Store tx.new.conn.now)) }
    ensures inside { GoesOn result (state S.Store tx.old.conn.now) (state S.Store tx.new.conn.now) }
    ensures kept { CommitStays (state S.Store tx.old.conn.now) (state S.Store tx.new.conn.now) }
    ensures survives { Survives (state S.Store tx.old.conn.now) (state S.Store tx.new.conn.now) (λ _. ⊥) }
{
    tx.execute(
        "CREATE TABLE entry (sub BLOB NOT NULL, place INTEGER NOT NULL, line INTEGER NOT NULL, kind INTEGER NOT NULL, grp INTEGER, units INTEGER NOT NULL, amount INTEGER NOT NULL, PRIMARY KEY (sub, place, line), FOREIGN KEY (sub, place) REFERENCES act (sub, place)) STRICT",
        &[],
    )?;
    Ok(())
}

/// The table of accounts is made.
fn make_account<S: Alter>(tx: &mut Transaction<'_, S>) -> Result<(), Error>
    ensures same_reference { tx.new.conn.ghost_name ≡ tx.old.conn.ghost_name }
    ensures made { HasCleanDisk (state S.Store tx.new.conn.now) → IsTrue (state S.Store tx.old.conn.now).in_transaction
        → (state S.Store tx.old.conn.now).now.schema ≡ three_tables
        → NoEntries (state S.Store tx.old.conn.now).now.trees
        → OnOk result (HasMade layout NoRows (state S.Store tx.old.conn.now) (state S.Store tx.new.conn.now)) }
    ensures inside { GoesOn result (state S.Store tx.old.conn.now) (state S.Store tx.new.conn.now) }
    ensures kept { CommitStays (state S.Store tx.old.conn.now) (state S.Store tx.new.conn.now) }
    ensures survives { Survives (state S.Store tx.old.conn.now) (state S.Store tx.new.conn.now) (λ _. ⊥) }
{
    tx.execute(
        "CREATE TABLE account (sub BLOB NOT NULL PRIMARY KEY, acts INTEGER NOT NULL, funds INTEGER NOT NULL) STRICT",
        &[],
    )?;
    Ok(())
}

/// The row of the setting is written: layout 2.
fn add_setting<S: Alter>(tx: &mut Transaction<'_, S>, setting: &Setting<'_>) -> Result<(), Error>
    ensures same_reference { tx.new.conn.ghost_name ≡ tx.old.conn.ghost_name }
    ensures made { HasCleanDisk (state S.Store tx.new.conn.now) → IsTrue (state S.Store tx.old.conn.now).in_transaction
        → (state S.Store tx.old.conn.now).now.schema ≡ layout
        → NoRows (state S.Store tx.old.conn.now).now.trees
        → OnOk result (HasMade layout (IsFirst setting.now) (state S.Store tx.old.conn.now) (state S.Store tx.new.conn.now)) }
    ensures inside { GoesOn result (state S.Store tx.old.conn.now) (state S.Store tx.new.conn.now) }
    ensures kept { CommitStays (state S.Store tx.old.conn.now) (state S.Store tx.new.conn.now) }
    ensures survives { Survives (state S.Store tx.old.conn.now) (state S.Store tx.new.conn.now) (λ _. ⊥) }
{
    let terms = &setting.terms;
    tx.execute(
        "INSERT INTO setting VALUES (1, 2, ?1, ?2, ?3, ?4, ?5, ?6, ?7, ?8)",
        params![
            setting.shard,
            setting.shards,
            setting.host,
            setting.realm,
            terms.validity,
            terms.hold,
            terms.currency,
            terms.exponent
        ],
    )?;
    Ok(())
}
