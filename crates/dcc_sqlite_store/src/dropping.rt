//! The four tables are dropped.

ghost use Rattle.std.specs.Prelude.{◌≡◌, IsTrue, OnOk};
ghost use Rattle.sqlite.specs.State.{HasCleanDisk, Survives};
ghost use Rattle.sqlite.specs.Held.{state};
ghost use Rattle.dcc_sqlite_store.specs.Tables.{no_schema, layout};
ghost use Rattle.dcc_sqlite_store.specs.inner.Dropping.{without_entries, without_accounts, without_acts, HasLeft};
ghost use Rattle.dcc_sqlite_store.specs.inner.Inside.{GoesOn, CommitStays};

use sqlite::{Alter, Error, Transaction};

/// The tables are dropped, those first that refer to others.
pub fn drop_tables<S: Alter>(tx: &mut Transaction<'_, S>) -> Result<(), Error>
    ensures same_reference { tx.new.conn.ghost_name ≡ tx.old.conn.ghost_name }
    ensures left { HasCleanDisk (state S.Store tx.new.conn.now) → IsTrue (state S.Store tx.old.conn.now).in_transaction
        → (state S.Store tx.old.conn.now).now.schema ≡ layout
        → OnOk result (HasLeft no_schema (state S.Store tx.old.conn.now) (state S.Store tx.new.conn.now)) }
    ensures inside { GoesOn result (state S.Store tx.old.conn.now) (state S.Store tx.new.conn.now) }
    ensures kept { CommitStays (state S.Store tx.old.conn.now) (state S.Store tx.new.conn.now) }
    ensures survives { Survives (state S.Store tx.old.conn.now) (state S.Store tx.new.conn.now) (λ _. ⊥) }
{
    drop_entry(tx)?;
    drop_account(tx)?;
    drop_act(tx)?;
    drop_setting(tx)
}

/// The table `entry` is dropped.
fn drop_entry<S: Alter>(tx: &mut Transaction<'_, S>) -> Result<(), Error>
    ensures same_reference { tx.new.conn.ghost_name ≡ tx.old.conn.ghost_name }
    ensures left { HasCleanDisk (state S.Store tx.new.conn.now) → IsTrue (state S.Store tx.old.conn.now).in_transaction
        → (state S.Store tx.old.conn.now).now.schema ≡ layout
        → OnOk result (HasLeft without_entries (state S.Store tx.old.conn.now) (state S.Store tx.new.conn.now)) }
    ensures inside { GoesOn result (state S.Store tx.old.conn.now) (state S.Store tx.new.conn.now) }
    ensures kept { CommitStays (state S.Store tx.old.conn.now) (state S.Store tx.new.conn.now) }
    ensures survives { Survives (state S.Store tx.old.conn.now) (state S.Store tx.new.conn.now) (λ _. ⊥) }
{
    tx.execute("DROP TABLE entry", &[])?;
    Ok(())
}

/// The table `account` is dropped.
fn drop_account<S: Alter>(tx: &mut Transaction<'_, S>) -> Result<(), Error>
    ensures same_reference { tx.new.conn.ghost_name ≡ tx.old.conn.ghost_name }
    ensures left { HasCleanDisk (state S.Store tx.new.conn.now) → IsTrue (state S.Store tx.old.conn.now).in_transaction
        → (state S.Store tx.old.conn.now).now.schema ≡ without_entries
        → OnOk result (HasLeft without_accounts (state S.Store tx.old.conn.now) (state S.Store tx.new.conn.now)) }
    ensures inside { GoesOn result (state S.Store tx.old.conn.now) (state S.Store tx.new.conn.now) }
    ensures kept { CommitStays (state S.Store tx.old.conn.now) (state S.Store tx.new.conn.now) }
    ensures survives { Survives (state S.Store tx.old.conn.now) (state S.Store tx.new.conn.now) (λ _. ⊥) }
{
    tx.execute("DROP TABLE account", &[])?;
    Ok(())
}

/// The table `act` is dropped.
fn drop_act<S: Alter>(tx: &mut Transaction<'_, S>) -> Result<(), Error>
    ensures same_reference { tx.new.conn.ghost_name ≡ tx.old.conn.ghost_name }
    ensures left { HasCleanDisk (state S.Store tx.new.conn.now) → IsTrue (state S.Store tx.old.conn.now).in_transaction
        → (state S.Store tx.old.conn.now).now.schema ≡ without_accounts
        → OnOk result (HasLeft without_acts (state S.Store tx.old.conn.now) (state S.Store tx.new.conn.now)) }
    ensures inside { GoesOn result (state S.Store tx.old.conn.now) (state S.Store tx.new.conn.now) }
    ensures kept { CommitStays (state S.Store tx.old.conn.now) (state S.Store tx.new.conn.now) }
    ensures survives { Survives (state S.Store tx.old.conn.now) (state S.Store tx.new.conn.now) (λ _. ⊥) }
{
    tx.execute("DROP TABLE act", &[])?;
    Ok(())
}

/// The table `setting` is dropped.
fn drop_setting<S: Alter>(tx: &mut Transaction<'_, S>) -> Result<(), Error>
    ensures same_reference { tx.new.conn.ghost_name ≡ tx.old.conn.ghost_name }
    ensures left { HasCleanDisk (state S.Store tx.new.conn.now) → IsTrue (state S.Store tx.old.conn.now).in_transaction
        → (state S.Store tx.old.conn.now).now.schema ≡ without_acts
        → OnOk result (HasLeft no_schema (state S.Store tx.old.conn.now) (state S.Store tx.new.conn.now)) }
    ensures inside { GoesOn result (state S.Store tx.old.conn.now) (state S.Store tx.new.conn.now) }
    ensures kept { CommitStays (state S.Store tx.old.conn.now) (state S.Store tx.new.conn.now) }
    ensures survives { Survives (state S.Store tx.old.conn.now) (state S.Store tx.new.conn.now) (λ _. ⊥) }
{
    tx.execute("DROP TABLE setting", &[])?;
    Ok(())
}
