//! Limits, each once.

/// The most units that a block, a quantum, an asked amount, a report or a grant may have.
pub const MAX_UNITS: u64 = 1_000_000_000_000;

/// The highest price of a block, in minor units.
pub const MAX_BLOCK_PRICE: u32 = 1_000_000;

/// The highest price of units, in minor units: that of 10^12 blocks.
pub const MAX_PRICE: u64 = MAX_UNITS * MAX_BLOCK_PRICE as u64;

/// The most shards among which the subscribers may be divided.
pub const MAX_SHARDS: u8 = 8;

/// The most seconds for which a grant is valid, and for which a session is held.
pub const MAX_HOLD: u32 = 1_000_000;

/// The most tables of tariffs that a plan may have.
pub const MAX_TABLES: usize = 1_000;

/// The last moment, in seconds since 1970-01-01T00:00:00Z: 2099-12-31T23:59:59Z.
pub const LAST_SECOND: u64 = 4_102_444_799;
