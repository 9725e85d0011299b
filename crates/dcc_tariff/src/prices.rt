//! The price of units, and the units that an amount of money affords.

ghost use Rattle.std.specs.Prelude.{◌≡◌, ℕ, ◌≤◌, ◌<◌, IsTrue, false, nat_le};
ghost use Rattle.dcc_tariff.specs.Prices.{price, best, covers};

use crate::limits::{MAX_PRICE, MAX_UNITS};
use crate::tariff::Tariff;

/// The price in minor units of so many units, at most 10^12: that of each block that they begin.
pub fn price_of(tariff: Tariff, units: u64) -> u64
    requires { units ≤ MAX_UNITS }
    ensures value { result ≡ price tariff units }
    ensures bound { result ≤ MAX_PRICE }
{
    units.div_ceil(tariff.block) * u64::from(tariff.price)
}

/// The greatest amount of units, up to the amount asked (at most 10^12), whose price is nothing or within `free` minor units.
pub fn most_units(tariff: Tariff, asked: u64, free: i128) -> u64
    requires { asked ≤ MAX_UNITS }
    ensures value { result ≡ best tariff asked free }
    ensures up_to_asked { result ≤ asked }
    ensures affordable { IsTrue (covers free (price tariff result)) }
    ensures greatest { (more : ℕ) → result < more → more ≤ asked → covers free (price tariff more) ≡ false }
{
    let money = money_for_prices(free);
    if price_of(tariff, asked) <= money {
        return asked;
    }
    money / u64::from(tariff.price) * tariff.block
}

/// As much of the free money as a price can be.
fn money_for_prices(free: i128) -> u64
    ensures { (cost : ℕ) → cost ≤ MAX_PRICE → covers free cost ≡ nat_le cost result }
{
    free.clamp(0, i128::from(MAX_PRICE)) as u64
}
