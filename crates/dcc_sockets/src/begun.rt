//! The threads of a round, which begin together.

use std::sync::{Mutex, Wait};
use std::time::{Clock, Duration, Instant};

/// The threads of a round wait so many milliseconds at most for one another.
pub const BEGIN_MILLIS: u64 = 10_000;

/// The number of threads that have begun, in all rounds, and whether too few threads were reported.
#[derive(Clone, Copy)]
struct Count {
    begun: usize,
    is_told: bool,
}

/// Counts the threads that have begun. Each round has the same number of threads.
#[derive(Drop)]
pub(crate) struct Begun {
    count: Mutex<Count>,
}

impl Begun {
    /// No thread has begun.
    pub fn new() -> Begun {
        Begun {
            count: Mutex::new(Count {
                begun: 0,
                is_told: false,
            }),
        }
    }

    /// Counts one thread more, of so many of its round. It returns how many have begun once the last thread of the round has.
    pub fn enter<W: Wait>(&self, rt: &W, threads: usize) -> usize {
        let threads = threads.max(1);
        let mut count = self.count.lock(rt);
        let before = count.begun;
        count.begun = before.saturating_add(1);
        (before / threads).saturating_add(1).saturating_mul(threads)
    }

    /// Whether so many threads have begun.
    pub fn have<W: Wait>(&self, rt: &W, threads: usize) -> bool {
        self.count.lock(rt).begun >= threads
    }

    /// Whether too few threads are reported for the first time.
    pub fn is_first<W: Wait>(&self, rt: &W) -> bool {
        let mut count = self.count.lock(rt);
        let is_first = !count.is_told;
        count.is_told = true;
        is_first
    }
}

/// Whether threads that have waited since a moment have waited as long as they may; not known without a clock.
pub(crate) fn is_late<R: Clock>(rt: &R, since: Option<Instant>) -> bool {
    let Some(since) = since else {
        return false;
    };
    match since.elapsed(rt) {
        Ok(waited) => waited >= Duration::from_millis(BEGIN_MILLIS),
        Err(_) => false,
    }
}
