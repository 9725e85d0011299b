//! Records in memory.

ghost use Rattle.std.specs.Prelude.{◌≡◌, false};
ghost use Rattle.dcc_store.specs.Books.{no_acts};
ghost use Rattle.dcc_store.specs.Contents.{IsContentOf};
ghost use Rattle.dcc_store.specs.Memory.{content_of, leaves_of};

use crate::addition::Addition;
use crate::book::Book;
use crate::fault::StoreFault;
use crate::laws::{batches_come_next, new_acts_come_next};
use crate::logged::{Logged, copies_of};
use crate::records::Records;
use crate::row::{pages, rows_of, sort};
use dcc_act::same_subscribers_are_equal;
use dcc_model::{funds_are_accounted_for, leaving_out_changes_nothing};
use dcc_tariff::Terms;
use std::alloc::Global;
use std::hash::RandomState;
use std::marker::Model;

/// Records in memory, which never fail. They end with their process. The contracts treat them as a store that stays: a stop leaves
/// what they keep at that moment.
///
/// They keep the acts, with their entries, in one list, in the order in which they were added; so a batch is added by one growth of the
/// list. `load` makes a row of each subscriber's acts. It finds a subscriber by a hash that nobody outside can know beforehand.
#[derive(Drop)]
pub struct MemoryRecords {
    alloc: Global,
    terms: Terms,
    hasher: RandomState,
    log: Vec<Logged>,
}

impl Model for MemoryRecords {
    ghost use Rattle.dcc_store.specs.Memory.{MemoryView};
    ghost use Rattle.dcc_store.specs.inner.Rows.{IsLog};

    ghost Value = { MemoryView };

    ghost view = { λ r. record { terms = r.terms; log = r.log.items } };

    ghost invariant = { λ r. IsLog r.terms r.log.items };
}

impl MemoryRecords {
    /// Records without acts, whose content is judged by these terms. A load finds subscribers by `hasher`. It takes no memory.
    pub fn new(alloc: Global, terms: &Terms, hasher: RandomState) -> MemoryRecords
        ensures terms { result.terms ≡ terms.now }
        ensures empty { IsContentOf terms.now no_acts (content_of result) }
    {
        leaving_out_changes_nothing();
        funds_are_accounted_for();
        MemoryRecords {
            alloc,
            terms: *terms,
            hasher,
            log: Vec::new(alloc),
        }
    }
}

impl Records for MemoryRecords {
    ghost terms = { λ r. r.terms };

    ghost may_leave = { leaves_of };

    ghost is_honest = { λ _. Unit {0} };

    ghost is_stopped = { λ _. false };

    ghost faults = { λ _. 0 };

    fn terms(&self) -> &Terms {
        &self.terms
    }

    fn faults(&self) -> u64 {
        0
    }

    fn is_stopped(&self) -> bool {
        false
    }

    fn append_all(&mut self, batch: &[Addition<'_>]) -> Result<(), StoreFault> {
        new_acts_come_next();
        batches_come_next();
        same_subscribers_are_equal();
        let mut parts = copies_of(self.alloc, batch)?;
        self.log.append(&mut parts)?;
        Ok(())
    }

    fn load(&mut self) -> Result<Book, StoreFault> {
        let mut rows = rows_of(self.alloc, &self.log, self.hasher)?;
        sort(&mut rows)?;
        let pages = pages(self.alloc, &rows)?;
        Ok(Book::of(pages))
    }
}
