//! When a server that stays is to end.

use os::unlink;
use std::sync::atomic::{AtomicBool, Ordering};

/// Whether a server that stays is to end, and whether its listener failed: each is set once, and seen by all threads.
#[derive(Drop)]
pub struct Closing {
    is_told: AtomicBool,
    has_failed: AtomicBool,
}

impl Closing {
    /// The server goes on.
    pub fn new() -> Closing {
        Closing {
            is_told: AtomicBool::new(false),
            has_failed: AtomicBool::new(false),
        }
    }

    /// Stores that the server is to end.
    pub fn tell(&self) {
        self.is_told.store(true, Ordering::SeqCst);
    }

    /// Stores that the listener failed, and that the server is to end.
    pub fn fail(&self) {
        self.has_failed.store(true, Ordering::SeqCst);
        self.tell();
    }

    /// Whether the listener failed.
    pub fn has_failed(&self) -> bool {
        self.has_failed.load(Ordering::SeqCst)
    }

    /// Whether the server is to end.
    pub fn is_told(&self) -> bool {
        self.is_told.load(Ordering::SeqCst)
    }
}

/// The operator's settings of a server that stays.
#[derive(Clone, Copy)]
pub struct Staying<'r> {
    /// When it is to end.
    pub closing: &'r Closing,
    /// The server is to end if a file is at this path.
    pub stop: &'r str,
    /// So many seconds pass between two sweeps, or none is asked for with 0.
    pub sweep: u64,
}

/// Removes the file whose presence says that a server that stays is to end, and returns whether it was there. It uses the system's own
/// call, since a handle for files serves one thread alone.
pub fn remove_stop(path: &str) -> bool {
    unlink(path.as_bytes()) == 0
}
