//! Records of a shard in a file.

ghost use Rattle.std.specs.Prelude.{◌≡◌};

use dcc_sqlite_store::SqlRecords;
use dcc_store::{Addition, Book, Records, StoreFault};
use dcc_tariff::Terms;
use sqlite::FileStore;
use sqlite_std_file::File;

/// Records over a database in a file, as a type of its own: whoever is handed one meets none of the database's types.
#[derive(Drop)]
pub struct FileRecords {
    pub(crate) records: SqlRecords<FileStore<File>>,
}

impl Records for FileRecords {
    ghost terms = { λ r. ⟦<SqlRecords<FileStore<File>> as Records>⟧.terms r.records };

    ghost may_leave = { λ r. ⟦<SqlRecords<FileStore<File>> as Records>⟧.may_leave r.records };

    ghost is_honest = { λ r. ⟦<SqlRecords<FileStore<File>> as Records>⟧.is_honest r.records };

    ghost is_stopped = { λ r. ⟦<SqlRecords<FileStore<File>> as Records>⟧.is_stopped r.records };

    ghost faults = { λ r. ⟦<SqlRecords<FileStore<File>> as Records>⟧.faults r.records };

    fn terms(&self) -> &Terms {
        self.records.terms()
    }

    fn faults(&self) -> u64 {
        u64::from(self.is_stopped())
    }

    fn is_stopped(&self) -> bool {
        self.records.is_stopped()
    }

    fn append_all(&mut self, batch: &[Addition<'_>]) -> Result<(), StoreFault> {
        self.records.append_all(batch)
    }

    fn load(&mut self) -> Result<Book, StoreFault> {
        self.records.load()
    }
}
