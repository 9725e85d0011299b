//! Gates.

use std::hint::spin_loop;
use std::sync::atomic::{AtomicBool, Ordering};
use std::thread;

/// A gate, which is shut until it is opened, and which keeps whether an append has reached it.
#[derive(Drop)]
pub struct Gate {
    reached: AtomicBool,
    open: AtomicBool,
}

/// The number of times that an append looks at a shut gate.
const TURNS: u32 = 100_000;

/// The number of spins between two looks.
const SPINS: u32 = 64;

impl Gate {
    /// A gate that is shut.
    pub const fn new() -> Gate {
        Gate {
            reached: AtomicBool::new(false),
            open: AtomicBool::new(false),
        }
    }

    /// Opens the gate, for good.
    pub fn open(&self) {
        self.open.store(true, Ordering::SeqCst);
    }

    /// Whether an append has reached the gate.
    pub fn is_reached(&self) -> bool {
        self.reached.load(Ordering::SeqCst)
    }

    /// Waits until the gate is open, and returns whether it is: up to 100,000 turns, each of which is one look and a pause.
    pub(crate) fn lets_in(&self) -> bool {
        self.reached.store(true, Ordering::SeqCst);
        for _ in 0..TURNS {
            if self.open.load(Ordering::SeqCst) {
                return true;
            }
            pause();
        }
        false
    }
}

/// A pause between two looks: some microseconds, in which another thread may be at work.
fn pause() {
    for _ in 0..SPINS {
        spin_loop();
    }
    thread::yield_now();
}
