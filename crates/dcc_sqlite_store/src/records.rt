//! What a shard asks of its records, of the tables of a database.

ghost use Rattle.std.specs.Prelude.{◌≡◌, false, if◌then◌else◌};
ghost use Rattle.sqlite.specs.State.{HasCleanDisk};
ghost use Rattle.sqlite.specs.Held.{state};
ghost use Rattle.dcc_sqlite_store.specs.Content.{leaves};

use crate::loading::load_book;
use crate::sql_records::SqlRecords;
use crate::storing::store_batch;
use dcc_act::same_subscribers_are_equal;
use dcc_act_codec::records_differ;
use dcc_store::{
    Addition, Book, Records, StoreFault, batches_come_next, batches_stand_apart, new_acts_come_next,
};
use dcc_tariff::Terms;
use sqlite::Alter;

impl<S: Alter> Records for SqlRecords<S> {
    ghost terms = { λ r. r.terms };

    ghost may_leave = { λ r. leaves r.terms (state S.Store r.conn) };

    ghost is_honest = { λ r. HasCleanDisk (state S.Store r.conn) × (r.stopped ≡ false) };

    ghost is_stopped = { λ r. r.stopped };

    ghost faults = { λ r. if r.stopped then 1 else 0 };

    fn terms(&self) -> &Terms {
        &self.terms
    }

    fn faults(&self) -> u64 {
        u64::from(self.stopped)
    }

    fn is_stopped(&self) -> bool {
        self.stopped
    }

    fn append_all(&mut self, batch: &[Addition<'_>]) -> Result<(), StoreFault> {
        if self.stopped {
            return Err(StoreFault::Stopped);
        }
        records_differ();
        same_subscribers_are_equal();
        batches_stand_apart();
        batches_come_next();
        new_acts_come_next();
        match store_batch(self.alloc, &mut self.conn, &mut self.tallies, batch) {
            Ok(()) => Ok(()),
            Err(StoreFault::Memory) => Err(StoreFault::Memory),
            Err(_) => {
                self.stopped = true;
                Err(StoreFault::Device)
            }
        }
    }

    fn load(&mut self) -> Result<Book, StoreFault> {
        if self.is_stopped() {
            return Err(StoreFault::Stopped);
        }
        records_differ();
        match load_book(self.alloc, &mut self.conn, &self.terms, self.hasher) {
            Ok(book) => Ok(book),
            Err(StoreFault::Memory) => Err(StoreFault::Memory),
            Err(_) => {
                self.stopped = true;
                Err(StoreFault::Device)
            }
        }
    }
}
