//! A row of counters.

ghost use Rattle.std.specs.Prelude.{◌≡◌, IfOk, length};

use std::alloc::{AllocError, Global};
use std::marker::Model;
use std::sync::atomic::{AtomicU64, Ordering};

/// So many counters, which many threads may count by at once.
#[derive(Drop)]
pub(crate) struct Row {
    cells: Vec<AtomicU64>,
}

impl Model for Row {
    ghost use Rattle.std.specs.Prelude.{ℕ, vec_len};

    // The number of counters. What they have counted no contract says.
    ghost Value = { ℕ };

    ghost view = { λ row. vec_len row.cells };
}

impl Row {
    /// So many counters, each at 0. The only error is want of memory.
    pub fn new(alloc: Global, count: usize) -> Result<Row, AllocError>
        ensures { IfOk result (λ row. row ≡ count) }
    {
        let mut cells = Vec::new(alloc);
        for _made in 0..count {
            cells.push(AtomicU64::new(0))?;
        }
        Ok(Row { cells })
    }

    /// Counts so many more at an index. It does nothing at an index outside.
    pub fn add(&self, index: usize, count: u64) {
        if let Some(cell) = self.cells.get(index) {
            cell.fetch_add(count, Ordering::SeqCst);
        }
    }

    /// Sets the counter of an index. It does nothing at an index outside.
    pub fn set(&self, index: usize, count: u64) {
        if let Some(cell) = self.cells.get(index) {
            cell.store(count, Ordering::SeqCst);
        }
    }

    /// What the counter of an index has now; 0 at an index outside.
    pub fn at(&self, index: usize) -> u64 {
        match self.cells.get(index) {
            Some(cell) => cell.load(Ordering::SeqCst),
            None => 0,
        }
    }

    /// The first so many counters, as they are now; 0 for a counter outside. The only error is want of memory.
    pub fn read(&self, alloc: Global, count: usize) -> Result<Vec<u64>, AllocError>
        ensures { IfOk result (λ numbers. length numbers.items ≡ count) }
    {
        let mut numbers = Vec::new(alloc);
        for i in 0..count {
            numbers.push(self.at(i))?;
        }
        Ok(numbers)
    }
}
