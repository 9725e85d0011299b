//! Records over a database.

ghost use Rattle.std.specs.Prelude.{◌≡◌, ◌≢◌, ◌⊎◌, false, [], ◌∷◌, IfOk, IfErr};
ghost use Rattle.sqlite.specs.Tree.{Trees};
ghost use Rattle.sqlite.specs.State.{HasCleanDisk, Survives};
ghost use Rattle.sqlite.specs.Held.{state};
ghost use Rattle.dcc_store.specs.Books.{Held, no_acts};
ghost use Rattle.dcc_store.specs.Stops.{LeavesOnly};
ghost use Rattle.dcc_sqlite_store.specs.Tables.{no_schema, layout};
ghost use Rattle.dcc_sqlite_store.specs.Content.{HoldsBook, leaves};
ghost use Rattle.dcc_sqlite_store.specs.Opening.{FindsBook, HasOtherSetting, IsDamagedIn, DisagreeIn};
ghost use Rattle.dcc_sqlite_store.specs.Trees.{IsUndone, IsStore, setting_rows};
ghost use Rattle.dcc_sqlite_store.specs.Setting.{setting_row, IsFirst};
ghost use Rattle.dcc_sqlite_store.specs.inner.Keeping.{KeepsBook};

use crate::fault::{CreateFault, OpenFault};
use crate::layout::has_layout;
use crate::making::{is_blank, make_store};
use crate::opening::open_store;
use crate::setting::Setting;
use crate::telling::create_fault;
use dcc_act::Sub;
use dcc_model::{funds_are_accounted_for, leaving_out_changes_nothing};
use dcc_sqlite_rows::{Tally, books_have_pages};
use dcc_tariff::Terms;
use sqlite::{Alter, Connection};
use std::alloc::Global;
use std::collections::BTreeMap;
use std::hash::RandomState;

/// Records in the tables of a database, over a connection of their own.
pub struct SqlRecords<S: Alter> {
    pub(crate) alloc: Global,
    pub(crate) conn: Connection<S>,
    pub(crate) terms: Terms,
    pub(crate) hasher: RandomState,
    pub(crate) tallies: BTreeMap<Sub, Tally>,
    pub(crate) stopped: bool,
    ghost idle: { conn.in_transaction ≡ false },
    ghost kept: { stopped ≡ false → HasCleanDisk (state S.Store conn) → ∥ KeepsBook terms (state S.Store conn) tallies.entries ∥₁ },
    ghost store: { HasCleanDisk (state S.Store conn) → (db : Trees) → (state S.Store conn).may_leave db → ∥ IsStore db ∥₁ },
}

impl<S: Alter + Drop> Drop for SqlRecords<S> {
    fn drop(self) {
        let SqlRecords {
            alloc: _,
            conn: _,
            terms: _,
            hasher: _,
            tallies: _,
            stopped: _,
        } = self;
    }
}

impl<S: Alter> SqlRecords<S> {
    /// Makes the tables in a database that has nothing in it, with the row of the setting, and records without acts over them.
    /// It is one transaction: a stop inside leaves the database as it was, or with the tables, the row of the setting, and no
    /// acts.
    ///
    /// Errors, each with the connection: [`CreateFault::Memory`], nothing changed; [`CreateFault::Device`], the database
    /// failed, or a transaction was open; [`CreateFault::Layout`], there is something in the database, and nothing changed.
    pub fn create(
        alloc: Global,
        conn: Connection<S>,
        setting: &Setting<'_>,
        hasher: RandomState,
    ) -> Result<SqlRecords<S>, (CreateFault, Connection<S>)>
        ensures terms { IfOk result (λ records. records.terms ≡ setting.now.terms) }
        ensures going { IfOk result (λ records. records.stopped ≡ false) }
        // It was made just where there was nothing.
        ensures fresh { IfOk result (λ records. conn.schema ≡ no_schema) }
        ensures empty { IfOk result (λ records. LeavesOnly records.terms no_acts (leaves records.terms (state S.Store records.conn))) }
        ensures setting { IfOk result (λ records. HasCleanDisk (state S.Store records.conn) → setting_rows (state S.Store records.conn).now.trees ≡ setting_row setting.now ∷ []) }
        ensures crash { IfOk result (λ records. Survives (state S.Store conn) (state S.Store records.conn) (IsFirst setting.now)) }
        ensures undone { IfErr result (λ failed. failed.0 ≡ CreateFault.Memory → HasCleanDisk (state S.Store failed.1) → IsUndone (state S.Store conn) (state S.Store failed.1)) }
        ensures blank { IfErr result (λ failed. failed.0 ≡ CreateFault.Layout → (conn.schema ≢ no_schema) × (failed.1 ≡ conn)) }
        ensures left { IfErr result (λ failed. Survives (state S.Store conn) (state S.Store failed.1) (λ db. (conn.schema ≡ no_schema) × IsFirst setting.now db)) }
    {
        leaving_out_changes_nothing();
        funds_are_accounted_for();
        if !conn.is_autocommit() {
            return Err((CreateFault::Device, conn));
        }
        if !is_blank(conn.schema()) {
            return Err((CreateFault::Layout, conn));
        }
        let mut conn = conn;
        match make_store(&mut conn, setting) {
            Ok(()) => Ok(SqlRecords {
                alloc,
                conn,
                terms: setting.terms,
                hasher,
                tallies: BTreeMap::new(alloc),
                stopped: false,
            }),
            Err(fault) => Err((create_fault(fault), conn)),
        }
    }

    /// Records over the tables of a database that were made for this setting, with the acts that stand there. Nothing is
    /// written, and a stop inside leaves the database as it was.
    ///
    /// Errors, each with the connection, judged in this order: [`OpenFault::Device`], a transaction was open; [`OpenFault::Empty`]
    /// and [`OpenFault::Layout`], there is nothing in the database, or its schema isn't that of a store; [`OpenFault::Memory`] or
    /// [`OpenFault::Device`], a table was not read; [`OpenFault::Layout`], the store is of another setting; [`OpenFault::Damaged`];
    /// [`OpenFault::Disagree`]. After any but [`OpenFault::Device`] the connection may be used.
    pub fn open(
        alloc: Global,
        conn: Connection<S>,
        setting: &Setting<'_>,
        hasher: RandomState,
    ) -> Result<SqlRecords<S>, (OpenFault, Connection<S>)>
        ensures terms { IfOk result (λ records. records.terms ≡ setting.now.terms) }
        ensures going { IfOk result (λ records. records.stopped ≡ false) }
        // The tables are those of a store, and it is of this setting.
        ensures schema { IfOk result (λ records. conn.schema ≡ layout) }
        ensures setting { IfOk result (λ records. HasCleanDisk (state S.Store records.conn) → setting_rows (state S.Store records.conn).now.trees ≡ setting_row setting.now ∷ []) }
        // The records hold the book that was in the tables, and nothing changed.
        ensures found { IfOk result (λ records. HasCleanDisk (state S.Store records.conn) → ∥ FindsBook records.terms (state S.Store conn).committed.trees (leaves records.terms (state S.Store records.conn)) ∥₁) }
        ensures still { IfOk result (λ records. HasCleanDisk (state S.Store records.conn) → IsUndone (state S.Store conn) (state S.Store records.conn)) }
        ensures crash { IfOk result (λ records. Survives (state S.Store conn) (state S.Store records.conn) (λ _. ⊥)) }
        ensures empty { IfErr result (λ failed. failed.0 ≡ OpenFault.Empty → (conn.schema ≡ no_schema) × (failed.1 ≡ conn)) }
        ensures other { IfErr result (λ failed. failed.0 ≡ OpenFault.Layout
            → ((conn.schema ≢ no_schema) × (conn.schema ≢ layout) × (failed.1 ≡ conn))
            ⊎ ((conn.schema ≡ layout) × (HasCleanDisk (state S.Store failed.1) → HasOtherSetting setting.now (state S.Store conn).now.trees))) }
        ensures damaged { IfErr result (λ failed. failed.0 ≡ OpenFault.Damaged → HasCleanDisk (state S.Store failed.1) → IsDamagedIn (state S.Store conn).now.trees) }
        ensures disagree { IfErr result (λ failed. failed.0 ≡ OpenFault.Disagree → HasCleanDisk (state S.Store failed.1) → DisagreeIn setting.now.terms (state S.Store conn).now.trees) }
        // Tables that hold a book are neither damaged nor disagree.
        ensures whole { IfErr result (λ failed. (failed.0 ≡ OpenFault.Damaged) ⊎ (failed.0 ≡ OpenFault.Disagree)
            → HasCleanDisk (state S.Store failed.1) → (held : Held) → ¬ HoldsBook setting.now.terms (state S.Store conn).now.trees held) }
        // The rows are judged only where the tables are those of a store, and it is of this setting.
        ensures ours { IfErr result (λ failed. (failed.0 ≡ OpenFault.Damaged) ⊎ (failed.0 ≡ OpenFault.Disagree)
            → (conn.schema ≡ layout) × (HasCleanDisk (state S.Store failed.1) → setting_rows (state S.Store conn).now.trees ≡ setting_row setting.now ∷ [])) }
        ensures undone { IfErr result (λ failed. failed.0 ≢ OpenFault.Device → HasCleanDisk (state S.Store failed.1)
            → (failed.1 ≡ conn) ⊎ IsUndone (state S.Store conn) (state S.Store failed.1)) }
        ensures left { IfErr result (λ failed. Survives (state S.Store conn) (state S.Store failed.1) (λ _. ⊥)) }
    {
        books_have_pages();
        if !conn.is_autocommit() {
            return Err((OpenFault::Device, conn));
        }
        if is_blank(conn.schema()) {
            return Err((OpenFault::Empty, conn));
        }
        if !has_layout(conn.schema()) {
            return Err((OpenFault::Layout, conn));
        }
        let mut conn = conn;
        match open_store(alloc, &mut conn, setting, hasher) {
            Ok(tallies) => Ok(SqlRecords {
                alloc,
                conn,
                terms: setting.terms,
                hasher,
                tallies,
                stopped: false,
            }),
            Err(fault) => Err((fault, conn)),
        }
    }

    /// The connection, whose tables stay as they are. Whatever a stop leaves of it is a store.
    pub fn into_connection(self) -> Connection<S>
        ensures same { result ≡ self.conn }
        ensures idle { result.in_transaction ≡ false }
        ensures store { HasCleanDisk (state S.Store result) → (db : Trees) → (state S.Store result).may_leave db → ∥ IsStore db ∥₁ }
    {
        let SqlRecords {
            alloc: _,
            conn,
            terms: _,
            hasher: _,
            tallies: _,
            stopped: _,
        } = self;
        conn
    }
}
