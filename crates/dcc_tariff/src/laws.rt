//! The laws of prices, grants and limits. Each is the contract of a function that does nothing.

ghost use Rattle.std.specs.Prelude.{◌≡◌, ℕ, ◌≤◌, ◌<◌, ℤ, IsTrue, false};
ghost use Rattle.dcc_tariff.specs.Prices.{price, best, covers};
ghost use Rattle.dcc_tariff.specs.Terms.{TariffView};

use crate::limits::{
    LAST_SECOND, MAX_BLOCK_PRICE, MAX_HOLD, MAX_PRICE, MAX_SHARDS, MAX_TABLES, MAX_UNITS,
};

/// The limits that definitions cite by name: 10^12 units, 10^6 minor units for a block, 10^18 minor units for units, 8 shards, 10^6 seconds of validity and of
/// holding, 1,000 tables of tariffs, and 2099-12-31T23:59:59Z as the last moment.
pub fn numbers_are_given()
    ensures units { MAX_UNITS ≡ 1_000_000_000_000 }
    ensures block_price { MAX_BLOCK_PRICE ≡ 1_000_000 }
    ensures price { MAX_PRICE ≡ 1_000_000_000_000_000_000 }
    ensures shards { MAX_SHARDS ≡ 8 }
    ensures hold { MAX_HOLD ≡ 1_000_000 }
    ensures tables { MAX_TABLES ≡ 1_000 }
    ensures last_second { LAST_SECOND ≡ 4_102_444_799 }
{}

/// More units never cost less.
pub fn prices_never_fall()
    ensures { (tariff : TariffView) (fewer more : ℕ) → fewer ≤ more → price tariff fewer ≤ price tariff more }
{}

/// The best grant is at most the amount asked, the money covers it, and the money covers no greater amount up to the one asked.
pub fn best_grant_is_the_greatest_covered()
    ensures up_to_asked { (tariff : TariffView) (asked : ℕ) (free : ℤ) → best tariff asked free ≤ asked }
    ensures covered { (tariff : TariffView) (asked : ℕ) (free : ℤ) → IsTrue (covers free (price tariff (best tariff asked free))) }
    ensures greatest { (tariff : TariffView) (asked : ℕ) (free : ℤ) (more : ℕ) →
        best tariff asked free < more → more ≤ asked → covers free (price tariff more) ≡ false }
{}
