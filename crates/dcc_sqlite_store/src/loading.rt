//! The book of the acts that the tables have.

ghost use Rattle.std.specs.Prelude.{◌≡◌, ◌≢◌, ◌⊎◌, ◌≤◌, false, Err, IfOk, OnErr};
ghost use Rattle.std.specs.List.{AllByRecursion};
ghost use Rattle.sqlite.specs.View.{doubt};
ghost use Rattle.sqlite.specs.State.{HasCleanDisk, Survives};
ghost use Rattle.sqlite.specs.Held.{state};
ghost use Rattle.dcc_store.specs.Books.{acts_in, IsBook, AreInOrder};
ghost use Rattle.dcc_sqlite_rows.specs.Pages.{IsPage, book_act_rows};
ghost use Rattle.dcc_sqlite_store.specs.Tables.{layout};
ghost use Rattle.dcc_sqlite_store.specs.inner.Trees.{IsUndone};
ghost use Rattle.dcc_sqlite_store.specs.inner.Reading.{HasActs, IsSettled, HasOtherLayout};

use crate::parts::{Part, rows_of};
use dcc_sqlite_rows::{ReadFault, are_own, book_of, pages_hold_their_rows, read_lines};
use dcc_store::{Book, StoreFault};
use dcc_tariff::Terms;
use sqlite::{Alter, Connection, Row};
use std::alloc::Global;
use std::hash::RandomState;

/// The book of the acts in the tables, each list of which is what it makes itself. Want of memory leaves a store that may be
/// used.
pub fn load_book<S: Alter>(
    alloc: Global,
    conn: &mut Connection<S>,
    terms: &Terms,
    hasher: RandomState,
) -> Result<Book, StoreFault>
    requires { conn.old.in_transaction ≡ false }
    ensures mode { conn.new.in_transaction ≡ false }
    ensures clean { doubt (state S.Store conn.old).is_clean ≤ doubt (state S.Store conn.new).is_clean }
    ensures own { IfOk result (λ book. IsBook terms.now (acts_in book)) }
    ensures acts { HasCleanDisk (state S.Store conn.new) → conn.old.schema ≡ layout
        → IfOk result (λ book. HasActs (state S.Store conn.old).now.trees (acts_in book)) }
    ensures still { HasCleanDisk (state S.Store conn.new) → conn.old.schema ≡ layout → IsSettled (state S.Store conn.old)
        → result ≢ Err StoreFault.Device → IsUndone (state S.Store conn.old) (state S.Store conn.new) }
    ensures fault { OnErr result ((result ≡ Err StoreFault.Memory) ⊎ (result ≡ Err StoreFault.Device)) }
    ensures crash { Survives (state S.Store conn.old) (state S.Store conn.new) (HasOtherLayout (state S.Store conn.old)) }
{
    pages_hold_their_rows();
    let rows = rows_of(alloc, conn, Part::Acts)?;
    book_in(alloc, terms, hasher, rows)
}

/// The book whose acts these rows are. The rows end once their lines are read, and the acts of the lines become those of the book.
fn book_in(
    alloc: Global,
    terms: &Terms,
    hasher: RandomState,
    rows: Vec<Row>,
) -> Result<Book, StoreFault>
    ensures own { IfOk result (λ book. IsBook terms.now (acts_in book)) }
    ensures rows { IfOk result (λ book. rows.items ≡ book_act_rows book) }
    ensures valid { IfOk result (λ book. AllByRecursion IsPage book) }
    ensures ordered { IfOk result (λ book. AreInOrder book) }
    ensures fault { OnErr result ((result ≡ Err StoreFault.Memory) ⊎ (result ≡ Err StoreFault.Device)) }
{
    pages_hold_their_rows();
    let read = read_lines(alloc, &rows);
    drop(rows);
    let lines = match read {
        Ok(lines) => lines,
        Err(ReadFault::Memory) => return Err(StoreFault::Memory),
        Err(ReadFault::Damaged) => return Err(StoreFault::Device),
    };
    let Some(book) = book_of(alloc, lines)? else {
        return Err(StoreFault::Device);
    };
    if !are_own(alloc, terms, hasher, book.as_slice())? {
        return Err(StoreFault::Device);
    }
    Ok(book)
}
