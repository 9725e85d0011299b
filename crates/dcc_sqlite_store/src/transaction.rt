//! An append as one transaction.

ghost use Rattle.std.specs.Prelude.{◌≡◌, ◌⊎◌, ◌≤◌, false, Err, IsTrue, OnOk, OnErr};
ghost use Rattle.sqlite.specs.View.{doubt};
ghost use Rattle.sqlite.specs.State.{HasCleanDisk, Survives};
ghost use Rattle.sqlite.specs.Held.{state};
ghost use Rattle.dcc_sqlite_store.specs.Tables.{layout};
ghost use Rattle.dcc_sqlite_store.specs.inner.Trees.{account_tree, IsKeyed, HasCommitted, IsUndone};
ghost use Rattle.dcc_sqlite_store.specs.inner.Steps.{AppendsAll};

use crate::appending::{Step, add_steps};
use crate::telling::told;
use dcc_store::StoreFault;
use sqlite::{Alter, Connection, Error};

/// One transaction: the rows of all steps are written, or nothing changes. A stop at any call of the store leaves the one or the other.
fn commit_steps<S: Alter>(conn: &mut Connection<S>, steps: &[Step<'_>]) -> Result<(), Error>
    requires { conn.old.in_transaction ≡ false }
    ensures mode { conn.new.in_transaction ≡ false }
    ensures clean { doubt (state S.Store conn.old).is_clean ≤ doubt (state S.Store conn.new).is_clean }
    ensures added { HasCleanDisk (state S.Store conn.new) → conn.old.schema ≡ layout → IsKeyed ((state S.Store conn.old).now.trees account_tree)
        → OnOk result (HasCommitted (AppendsAll steps.now) (state S.Store conn.old) (state S.Store conn.new)) }
    ensures undone { HasCleanDisk (state S.Store conn.new) → IsTrue (state S.Store conn.new).is_open
        → OnErr result (((state S.Store conn.new).now ≡ (state S.Store conn.old).committed) × ((state S.Store conn.new).committed ≡ (state S.Store conn.old).committed)) }
    ensures crash { conn.old.schema ≡ layout → IsKeyed ((state S.Store conn.old).now.trees account_tree)
        → Survives (state S.Store conn.old) (state S.Store conn.new) (AppendsAll steps.now (state S.Store conn.old).now.trees) }
{
    let mut tx = conn.transaction();
    add_steps(&mut tx, steps)?;
    tx.commit()?;
    Ok(())
}

/// The same, with its errors as faults: want of memory leaves a store that may be used.
pub fn append_steps<S: Alter>(
    conn: &mut Connection<S>,
    steps: &[Step<'_>],
) -> Result<(), StoreFault>
    requires { conn.old.in_transaction ≡ false }
    ensures mode { conn.new.in_transaction ≡ false }
    ensures clean { doubt (state S.Store conn.old).is_clean ≤ doubt (state S.Store conn.new).is_clean }
    ensures added { HasCleanDisk (state S.Store conn.new) → conn.old.schema ≡ layout → IsKeyed ((state S.Store conn.old).now.trees account_tree)
        → OnOk result (HasCommitted (AppendsAll steps.now) (state S.Store conn.old) (state S.Store conn.new)) }
    ensures undone { HasCleanDisk (state S.Store conn.new) → result ≡ Err StoreFault.Memory
        → IsUndone (state S.Store conn.old) (state S.Store conn.new) }
    ensures fault { OnErr result ((result ≡ Err StoreFault.Memory) ⊎ (result ≡ Err StoreFault.Device)) }
    ensures crash { conn.old.schema ≡ layout → IsKeyed ((state S.Store conn.old).now.trees account_tree)
        → Survives (state S.Store conn.old) (state S.Store conn.new) (AppendsAll steps.now (state S.Store conn.old).now.trees) }
{
    let Err(error) = commit_steps(conn, steps) else {
        return Ok(());
    };
    let answers = conn.prepare("SELECT 1").is_ok();
    Err(told(&error, answers))
}
