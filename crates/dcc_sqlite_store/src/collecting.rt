//! All rows of a query, in memory that ends with them.

ghost use Rattle.std.specs.Prelude.{◌≡◌, ◌⊎◌, false, [], IfOk, IfErr};
ghost use Rattle.sqlite.specs.State.{HasCleanDisk, Survives, IsUnchanged, Shown, FailsToQuery, CommitsShowing};
ghost use Rattle.sqlite.specs.Held.{state};
ghost use Rattle.sqlite.specs.Given.{IsPlain};
ghost use Rattle.sqlite.specs.Listing.{understood};

use sqlite::{Alter, Connection, Error, ErrorCode, Row};
use std::alloc::Global;

/// All rows of a query without parameters. Want of memory for a row leaves the database as it was.
///
/// The rows are read one after another, since `Connection::query_all` keeps memory for all of them in the connection.
pub fn all_rows<S: Alter>(
    alloc: Global,
    conn: &mut Connection<S>,
    sql: &str,
) -> Result<Vec<Row>, Error>
    ensures ok { HasCleanDisk (state S.Store conn.new) → IsPlain (understood conn.old.schema sql.now)
        → IfOk result (λ rows. Shown sql.now [] (state S.Store conn.old) (state S.Store conn.new) rows.items) }
    ensures err { HasCleanDisk (state S.Store conn.new) → IsPlain (understood conn.old.schema sql.now)
        → IfErr result (λ e. FailsToQuery sql.now [] (state S.Store conn.old) (state S.Store conn.new) e ⊎ ((e ≡ Error.SqliteFailure ErrorCode.OutOfMemory) × IsUnchanged (state S.Store conn.old) (state S.Store conn.new))) }
    ensures mode { conn.old.in_transaction ≡ false → conn.new.in_transaction ≡ false }
    ensures survives { Survives (state S.Store conn.old) (state S.Store conn.new) (CommitsShowing sql.now [] (state S.Store conn.old)) }
{
    let mut all = Vec::new(alloc);
    let mut rows = conn.query(sql, &[])?;
    'rows: for _done in 0..usize::MAX {
        let Some(row) = rows.next()? else {
            return Ok(all);
        };
        all.push(row.copy()?)?;
    }
    unreachable!()
}
