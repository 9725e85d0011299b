//! The parts of a store, each of which is read whole by one statement.

ghost use Rattle.std.specs.Prelude.{◌≡◌, ◌≢◌, ◌⊎◌, ◌≤◌, false, Err, IfOk, OnOk, OnErr};
ghost use Rattle.sqlite.specs.View.{doubt};
ghost use Rattle.sqlite.specs.State.{HasCleanDisk, Survives, IsUnchanged};
ghost use Rattle.sqlite.specs.Held.{state};
ghost use Rattle.dcc_sqlite_store.specs.Tables.{layout};
ghost use Rattle.dcc_sqlite_store.specs.Queries.{Shows};
ghost use Rattle.dcc_sqlite_store.specs.inner.Trees.{IsUndone};
ghost use Rattle.dcc_sqlite_store.specs.inner.Reading.{LeftOrUndone, IsSettled, HasOtherLayout, query_of};

use crate::reading::{read_accounts, read_acts, read_entries, read_rowids, read_setting};
use crate::telling::told;
use dcc_store::StoreFault;
use sqlite::{Alter, Connection, Error, Row};
use std::alloc::Global;

/// A part of a store.
#[derive(Clone, Copy)]
pub enum Part {
    Setting,
    Acts,
    Entries,
    Accounts,
    Rowids,
}

/// The rows of a part, in the order of its key. Want of memory leaves a store that may be used.
pub fn rows_of<S: Alter>(
    alloc: Global,
    conn: &mut Connection<S>,
    part: Part,
) -> Result<Vec<Row>, StoreFault>
    requires { conn.old.in_transaction ≡ false }
    ensures mode { conn.new.in_transaction ≡ false }
    ensures clean { doubt (state S.Store conn.old).is_clean ≤ doubt (state S.Store conn.new).is_clean }
    ensures rows { HasCleanDisk (state S.Store conn.new) → conn.old.schema ≡ layout
        → IfOk result (λ rows. Shows (query_of part) (state S.Store conn.old).now.trees rows.items) }
    ensures same { HasCleanDisk (state S.Store conn.new) → conn.old.schema ≡ layout
        → OnOk result (IsUnchanged (state S.Store conn.old) (state S.Store conn.new)) }
    ensures still { HasCleanDisk (state S.Store conn.new) → conn.old.schema ≡ layout → IsSettled (state S.Store conn.old)
        → result ≢ Err StoreFault.Device → IsUndone (state S.Store conn.old) (state S.Store conn.new) }
    ensures fault { OnErr result ((result ≡ Err StoreFault.Memory) ⊎ (result ≡ Err StoreFault.Device)) }
    ensures crash { Survives (state S.Store conn.old) (state S.Store conn.new) (HasOtherLayout (state S.Store conn.old)) }
{
    let error = match read_part(alloc, conn, part) {
        Ok(rows) => return Ok(rows),
        Err(error) => error,
    };
    let answers = conn.prepare("SELECT 1").is_ok();
    Err(told(&error, answers))
}

/// The rows of a part.
fn read_part<S: Alter>(
    alloc: Global,
    conn: &mut Connection<S>,
    part: Part,
) -> Result<Vec<Row>, Error>
    requires { conn.old.in_transaction ≡ false }
    ensures mode { conn.new.in_transaction ≡ false }
    ensures clean { doubt (state S.Store conn.old).is_clean ≤ doubt (state S.Store conn.new).is_clean }
    ensures rows { HasCleanDisk (state S.Store conn.new) → conn.old.schema ≡ layout
        → IfOk result (λ rows. Shows (query_of part) (state S.Store conn.old).now.trees rows.items) }
    ensures same { HasCleanDisk (state S.Store conn.new) → conn.old.schema ≡ layout
        → OnOk result (IsUnchanged (state S.Store conn.old) (state S.Store conn.new)) }
    ensures failed { HasCleanDisk (state S.Store conn.new) → conn.old.schema ≡ layout
        → OnErr result (LeftOrUndone (state S.Store conn.old) (state S.Store conn.new)) }
    ensures crash { Survives (state S.Store conn.old) (state S.Store conn.new) (HasOtherLayout (state S.Store conn.old)) }
{
    match part {
        Part::Setting => read_setting(alloc, conn),
        Part::Acts => read_acts(alloc, conn),
        Part::Entries => read_entries(alloc, conn),
        Part::Accounts => read_accounts(alloc, conn),
        Part::Rowids => read_rowids(alloc, conn),
    }
}
