//! Files that may be stopped and opened again.

ghost use Rattle.std.specs.Prelude.{◌≡◌, ◌⊎◌, false, IfOk, IfErr, IfSome};
ghost use Rattle.sqlite.specs.Files.{file_state, IsOpened};
ghost use Rattle.sqlite.specs.State.{HasCleanDisk};
ghost use Rattle.dcc_store.specs.Books.{Held};
ghost use Rattle.dcc_store.specs.Contents.{Content};
ghost use Rattle.dcc_store.specs.Stops.{LeavesEither};
ghost use Rattle.dcc_sqlite_store.specs.Content.{leaves};
ghost use Rattle.dcc_sqlite_store.specs.Opening.{IsRefusedAfter};
ghost use Rattle.dcc_sqlite_store.specs.inner.Telling.{unopened};

use crate::fault::OpenFault;
use crate::setting::Setting;
use crate::sql_records::SqlRecords;
use crate::telling::is_memory;
use dcc_act_codec::records_differ;
use sqlite::{Connection, Error, FileStore, Options};
use sqlite_disk::Crash;
use std::alloc::Global;

/// The process ends at this moment, and what it left of the files is opened again. What is found is one of the databases that a stop at
/// this moment leaves, where the disk has returned what was written.
///
/// Errors: [`OpenFault::Memory`]; [`OpenFault::Device`], the files weren't opened for another reason.
pub fn stop_and_open<D: Crash + Drop>(
    alloc: Global,
    conn: Connection<FileStore<D>>,
    options: Options,
) -> Result<Connection<FileStore<D>>, OpenFault>
    ensures idle { IfOk result (λ again. again.in_transaction ≡ false) }
    ensures opened { IfOk result (λ again. HasCleanDisk (file_state again) → IsOpened again) }
    ensures found { IfOk result (λ again. HasCleanDisk (file_state again) → ∥ (file_state conn).may_leave (file_state again).committed.trees ∥₁) }
    ensures fault { IfErr result (λ fault. (fault ≡ OpenFault.Memory) ⊎ (fault ≡ OpenFault.Device)) }
{
    let mut files = conn.into_store().close();
    files.log.crash();
    files.db.crash();
    match Connection::open_files(alloc, files, options) {
        Ok(again) => Ok(again),
        Err((error, left)) => {
            // By a call: files that are let go in place are proved part by part.
            drop(left);
            Err(unopened(&error))
        }
    }
}

/// Why files aren't opened: memory was refused, or they failed.
fn unopened(error: &Error) -> OpenFault
    ensures value { result ≡ unopened error.now }
    ensures either { (result ≡ OpenFault.Memory) ⊎ (result ≡ OpenFault.Device) }
{
    if is_memory(error) {
        return OpenFault::Memory;
    }
    OpenFault::Device
}

/// The same of records: the process ends at this moment, and what it left of the files is opened again as the store of a setting. What
/// is held then is one of the contents that a stop at this moment leaves, where the disk has returned what was written.
///
/// Errors, each with the connection where the files were opened: as of [`SqlRecords::open`]. Where the disk has returned what was written,
/// the tables are those of a store; and where a stop leaves the content of a book, or of one of two, they hold it. So what is left is want
/// of memory, a database that fails, and another setting.
pub fn stop_and_reopen<D: Crash + Drop>(
    records: SqlRecords<FileStore<D>>,
    options: Options,
    setting: &Setting<'_>,
) -> Result<SqlRecords<FileStore<D>>, (OpenFault, Option<Connection<FileStore<D>>>)>
    ensures terms { IfOk result (λ again. again.terms ≡ setting.now.terms) }
    ensures going { IfOk result (λ again. again.stopped ≡ false) }
    ensures found { HasCleanDisk (file_state records.conn) → setting.now.terms ≡ records.terms → IfOk result (λ again. (found : Content)
        → leaves again.terms (file_state again.conn) found → ∥ leaves records.terms (file_state records.conn) found ∥₁) }
    ensures unopened { IfErr result (λ failed. failed.1 ≡ None → (failed.0 ≡ OpenFault.Memory) ⊎ (failed.0 ≡ OpenFault.Device)) }
    ensures whole { HasCleanDisk (file_state records.conn) → setting.now.terms ≡ records.terms
        → (one other : Held) → LeavesEither records.terms one other (leaves records.terms (file_state records.conn))
        → IfErr result (λ failed. IfSome failed.1 (λ conn. HasCleanDisk (file_state conn)
        → IsRefusedAfter (file_state records.conn).may_leave setting.now failed.0)) }
{
    records_differ();
    let (alloc, hasher) = (records.alloc, records.hasher);
    let conn = records.into_connection();
    let again = match stop_and_open(alloc, conn, options) {
        Ok(again) => again,
        Err(fault) => return Err((fault, None)),
    };
    match SqlRecords::open(alloc, again, setting, hasher) {
        Ok(records) => Ok(records),
        Err((fault, conn)) => Err((fault, Some(conn))),
    }
}
