//! The statements that read the tables.

ghost use Rattle.std.specs.Prelude.{◌≡◌, ◌≤◌, false, IfOk, OnOk, OnErr};
ghost use Rattle.sqlite.specs.View.{doubt};
ghost use Rattle.sqlite.specs.State.{HasCleanDisk, Survives, IsUnchanged};
ghost use Rattle.sqlite.specs.Held.{state};
ghost use Rattle.dcc_sqlite_store.specs.Tables.{layout};
ghost use Rattle.dcc_sqlite_store.specs.Queries.{settings_query, acts_query, entries_query, accounts_query, rowids_query, Shows};
ghost use Rattle.dcc_sqlite_store.specs.inner.Reading.{LeftOrUndone, HasOtherLayout};

use crate::collecting::all_rows;
use sqlite::{Alter, Connection, Error, Row};
use std::alloc::Global;

/// The row of the setting.
pub fn read_setting<S: Alter>(alloc: Global, conn: &mut Connection<S>) -> Result<Vec<Row>, Error>
    requires { conn.old.in_transaction ≡ false }
    ensures mode { conn.new.in_transaction ≡ false }
    ensures clean { doubt (state S.Store conn.old).is_clean ≤ doubt (state S.Store conn.new).is_clean }
    ensures rows { HasCleanDisk (state S.Store conn.new) → conn.old.schema ≡ layout
        → IfOk result (λ rows. Shows settings_query (state S.Store conn.old).now.trees rows.items) }
    ensures same { HasCleanDisk (state S.Store conn.new) → conn.old.schema ≡ layout
        → OnOk result (IsUnchanged (state S.Store conn.old) (state S.Store conn.new)) }
    ensures failed { HasCleanDisk (state S.Store conn.new) → conn.old.schema ≡ layout
        → OnErr result (LeftOrUndone (state S.Store conn.old) (state S.Store conn.new)) }
    ensures crash { Survives (state S.Store conn.old) (state S.Store conn.new) (HasOtherLayout (state S.Store conn.old)) }
{
    all_rows(
        alloc,
        conn,
        "SELECT id, layout, shard, shards, host, realm, validity, hold, currency, exponent FROM setting ORDER BY id",
    )
}

/// The rows of all acts, in the order of their key.
pub fn read_acts<S: Alter>(alloc: Global, conn: &mut Connection<S>) -> Result<Vec<Row>, Error>
    requires { conn.old.in_transaction ≡ false }
    ensures mode { conn.new.in_transaction ≡ false }
    ensures clean { doubt (state S.Store conn.old).is_clean ≤ doubt (state S.Store conn.new).is_clean }
    ensures rows { HasCleanDisk (state S.Store conn.new) → conn.old.schema ≡ layout
        → IfOk result (λ rows. Shows acts_query (state S.Store conn.old).now.trees rows.items) }
    ensures same { HasCleanDisk (state S.Store conn.new) → conn.old.schema ≡ layout
        → OnOk result (IsUnchanged (state S.Store conn.old) (state S.Store conn.new)) }
    ensures failed { HasCleanDisk (state S.Store conn.new) → conn.old.schema ≡ layout
        → OnErr result (LeftOrUndone (state S.Store conn.old) (state S.Store conn.new)) }
    ensures crash { Survives (state S.Store conn.old) (state S.Store conn.new) (HasOtherLayout (state S.Store conn.old)) }
{
    all_rows(
        alloc,
        conn,
        "SELECT sub, place, body FROM act ORDER BY sub, place",
    )
}

/// The rows of all entries, in the order of their key.
pub fn read_entries<S: Alter>(alloc: Global, conn: &mut Connection<S>) -> Result<Vec<Row>, Error>
    requires { conn.old.in_transaction ≡ false }
    ensures mode { conn.new.in_transaction ≡ false }
    ensures clean { doubt (state S.Store conn.old).is_clean ≤ doubt (state S.Store conn.new).is_clean }
    ensures rows { HasCleanDisk (state S.Store conn.new) → conn.old.schema ≡ layout
        → IfOk result (λ rows. Shows entries_query (state S.Store conn.old).now.trees rows.items) }
    ensures same { HasCleanDisk (state S.Store conn.new) → conn.old.schema ≡ layout
        → OnOk result (IsUnchanged (state S.Store conn.old) (state S.Store conn.new)) }
    ensures failed { HasCleanDisk (state S.Store conn.new) → conn.old.schema ≡ layout
        → OnErr result (LeftOrUndone (state S.Store conn.old) (state S.Store conn.new)) }
    ensures crash { Survives (state S.Store conn.old) (state S.Store conn.new) (HasOtherLayout (state S.Store conn.old)) }
{
    all_rows(
        alloc,
        conn,
        "SELECT sub, place, line, kind, grp, units, amount FROM entry ORDER BY sub, place, line",
    )
}

/// The rows of all accounts, in the order of their key.
pub fn read_accounts<S: Alter>(alloc: Global, conn: &mut Connection<S>) -> Result<Vec<Row>, Error>
    requires { conn.old.in_transaction ≡ false }
    ensures mode { conn.new.in_transaction ≡ false }
    ensures clean { doubt (state S.Store conn.old).is_clean ≤ doubt (state S.Store conn.new).is_clean }
    ensures rows { HasCleanDisk (state S.Store conn.new) → conn.old.schema ≡ layout
        → IfOk result (λ rows. Shows accounts_query (state S.Store conn.old).now.trees rows.items) }
    ensures same { HasCleanDisk (state S.Store conn.new) → conn.old.schema ≡ layout
        → OnOk result (IsUnchanged (state S.Store conn.old) (state S.Store conn.new)) }
    ensures failed { HasCleanDisk (state S.Store conn.new) → conn.old.schema ≡ layout
        → OnErr result (LeftOrUndone (state S.Store conn.old) (state S.Store conn.new)) }
    ensures crash { Survives (state S.Store conn.old) (state S.Store conn.new) (HasOtherLayout (state S.Store conn.old)) }
{
    all_rows(
        alloc,
        conn,
        "SELECT sub, acts, funds FROM account ORDER BY sub",
    )
}

/// The rowids of all accounts, in their order.
pub fn read_rowids<S: Alter>(alloc: Global, conn: &mut Connection<S>) -> Result<Vec<Row>, Error>
    requires { conn.old.in_transaction ≡ false }
    ensures mode { conn.new.in_transaction ≡ false }
    ensures clean { doubt (state S.Store conn.old).is_clean ≤ doubt (state S.Store conn.new).is_clean }
    ensures rows { HasCleanDisk (state S.Store conn.new) → conn.old.schema ≡ layout
        → IfOk result (λ rows. Shows rowids_query (state S.Store conn.old).now.trees rows.items) }
    ensures same { HasCleanDisk (state S.Store conn.new) → conn.old.schema ≡ layout
        → OnOk result (IsUnchanged (state S.Store conn.old) (state S.Store conn.new)) }
    ensures failed { HasCleanDisk (state S.Store conn.new) → conn.old.schema ≡ layout
        → OnErr result (LeftOrUndone (state S.Store conn.old) (state S.Store conn.new)) }
    ensures crash { Survives (state S.Store conn.old) (state S.Store conn.new) (HasOtherLayout (state S.Store conn.old)) }
{
    all_rows(alloc, conn, "SELECT rowid FROM account ORDER BY rowid")
}
