//! Octets of answers that go out together, in one call of the writer.

ghost use Rattle.std.specs.Prelude.{◌≡◌, [], MatchBool};
ghost use Rattle.dcc_connect.specs.inner.Gathers.{within, Joins};

use std::alloc::Global;

/// At most so many octets are gathered. An answer with which they would be more goes out by itself, behind them.
const MOST_GATHERED: usize = 16_384;

/// The octets of items that were taken, and haven't gone out yet.
#[derive(Drop)]
pub(crate) struct Gathered {
    pub octets: Vec<u8>,
    /// The end of each item among the octets.
    pub ends: Vec<usize>,
}

impl Gathered {
    /// No octets. It takes no memory.
    pub fn new(alloc: Global) -> Gathered
        ensures octets { result.octets.items ≡ [] }
        ensures ends { result.ends.items ≡ [] }
    {
        Gathered {
            octets: Vec::new(alloc),
            ends: Vec::new(alloc),
        }
    }

    /// Adds an item's octets, and returns whether it did. It adds nothing if the item has no octets, if there would then be more octets than
    /// turns or than may be gathered, or if memory is refused.
    pub fn add(&mut self, octets: &[u8], turns: u32) -> bool
        ensures { MatchBool result (Joins turns octets.now self.old self.new) ((self.new.octets.items ≡ self.old.octets.items) × (self.new.ends.items ≡ self.old.ends.items)) }
    {
        let Some(end) = self.octets.len().checked_add(octets.len()) else {
            return false;
        };
        if octets.is_empty() || end > MOST_GATHERED || end > turns as usize {
            return false;
        }
        if self.ends.reserve(1).is_err() || self.octets.extend_from_slice(octets).is_err() {
            return false;
        }
        self.ends.push_reserved(end);
        true
    }

    /// The number of items that end within the first so many octets.
    pub fn whole(&self, count: u64) -> u64
        ensures { result ≡ within count self.now.ends.items }
    {
        let mut whole = 0usize;
        for end in &self.ends {
            if *end as u64 <= count {
                whole += 1;
            }
        }
        whole as u64
    }
}
