//! Limits of amounts, each once.

/// The most that one top-up may add, and the farthest that funds may be from 0, in minor units.
pub const MAX_AMOUNT: u64 = 1_000_000_000_000_000_000;

/// The most seconds that fit a CC-Time (RFC 8506, section 8.21).
pub const MAX_SECONDS: u64 = 0xffff_ffff;

/// The most sessions that a subscriber may have open at once by [`crate::SessionLimit::Few`].
pub const FEW_SESSIONS: usize = 64;

/// The most sessions that a subscriber may have open at once.
pub const MAX_SESSIONS: usize = 1_024;

/// The most services that an act of a store of layout 1 may have.
pub const FEW_SERVICES: usize = 16;

/// The most services that a request may have.
pub const MAX_SERVICES: usize = 32;

/// The most identifiers that a service may have, and all services of a request together.
pub const MAX_IDS: usize = 5_460;
