//! A batch, stored.

ghost use Rattle.std.specs.Prelude.{◌≡◌, ◌⊎◌, ◌≤◌, false, Err, OnOk, OnErr};
ghost use Rattle.sqlite.specs.View.{doubt};
ghost use Rattle.sqlite.specs.State.{HasCleanDisk, Survives};
ghost use Rattle.sqlite.specs.Held.{state};
ghost use Rattle.dcc_act.specs.declared.sub.Sub.{Sub};
ghost use Rattle.dcc_sqlite_store.specs.Tables.{layout};
ghost use Rattle.dcc_sqlite_store.specs.inner.Tallies.{tally_in};
ghost use Rattle.dcc_sqlite_store.specs.inner.Trees.{account_tree, IsKeyed, HasCommitted, IsUndone};
ghost use Rattle.dcc_sqlite_store.specs.inner.Steps.{steps_behind, tallies_after, AppendsAll};

use crate::appending::steps_of;
use crate::tally::set_tallies;
use crate::transaction::append_steps;
use dcc_act::Sub;
use dcc_sqlite_rows::Tally;
use dcc_store::{Addition, StoreFault};
use sqlite::{Alter, Connection};
use std::alloc::Global;
use std::collections::BTreeMap;

/// The acts of a batch are written, each with its entries and the account that it leaves, and the tallies are set; or nothing changes.
pub fn store_batch<S: Alter>(
    alloc: Global,
    conn: &mut Connection<S>,
    tallies: &mut BTreeMap<Sub, Tally>,
    batch: &[Addition<'_>],
) -> Result<(), StoreFault>
    requires { conn.old.in_transaction ≡ false }
    ensures mode { conn.new.in_transaction ≡ false }
    ensures clean { doubt (state S.Store conn.old).is_clean ≤ doubt (state S.Store conn.new).is_clean }
    ensures added { HasCleanDisk (state S.Store conn.new) → conn.old.schema ≡ layout → IsKeyed ((state S.Store conn.old).now.trees account_tree)
        → OnOk result (HasCommitted (AppendsAll (steps_behind tallies.old.entries batch.now)) (state S.Store conn.old) (state S.Store conn.new)) }
    ensures set { OnOk result ((other : Sub)
        → tally_in tallies.new.entries other ≡ tallies_after (steps_behind tallies.old.entries batch.now) (tally_in tallies.old.entries) other) }
    ensures same { OnErr result ((other : Sub) → tally_in tallies.new.entries other ≡ tally_in tallies.old.entries other) }
    ensures undone { HasCleanDisk (state S.Store conn.new) → result ≡ Err StoreFault.Memory
        → IsUndone (state S.Store conn.old) (state S.Store conn.new) ⊎ (conn.new ≡ conn.old) }
    ensures fault { OnErr result ((result ≡ Err StoreFault.Memory) ⊎ (result ≡ Err StoreFault.Device)) }
    ensures crash { conn.old.schema ≡ layout → IsKeyed ((state S.Store conn.old).now.trees account_tree)
        → Survives (state S.Store conn.old) (state S.Store conn.new) (AppendsAll (steps_behind tallies.old.entries batch.now) (state S.Store conn.old).now.trees) }
{
    let steps = steps_of(alloc, tallies, batch)?;
    let stored = append_steps(conn, &steps);
    if stored.is_ok() {
        set_tallies(tallies, &steps);
    }
    // By a call: steps that are let go in place are proved part by part.
    drop(steps);
    stored
}
