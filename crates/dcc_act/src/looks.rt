//! Looks.

ghost use Rattle.std.specs.Prelude.{◌≡◌, ◌+◌, ◌<◌, ◌^◌};

use std::marker::Model;

/// The number of live grants and stored acts that were read. It can't be copied, so that no count is undone.
#[derive(Debug, Drop)]
pub struct Looks {
    count: u64,
}

impl Model for Looks {
    ghost use Rattle.std.specs.Prelude.{ℕ};

    ghost Value = { ℕ };

    ghost view = { λ l. l.count };
}

impl Looks {
    /// No looks yet.
    pub fn new() -> Looks
        ensures { result ≡ 0 }
    {
        Looks { count: 0 }
    }

    /// The number of looks.
    pub fn count(&self) -> u64
        ensures { result ≡ self.now }
    {
        self.count
    }

    /// Counts so many looks more.
    pub fn add(&mut self, more: u64)
        requires { self.old + more < 2 ^ 64 }
        ensures { self.new ≡ self.old + more }
    {
        self.count += more;
    }
}
