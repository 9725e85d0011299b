//! A tariff, and the unit that it counts.

use std::marker::Model;

/// The unit that a rating group counts (RFC 8506, sections 8.17 to 8.26).
#[derive(Clone, Copy, Debug, PartialEq, Eq)]
pub enum UnitKind {
    /// Octets in both directions together.
    Octets,
    /// Seconds.
    Time,
    /// Units that the service itself defines.
    Units,
}

/// The price of units: `price` minor units for each block of `block` units that is begun.
#[derive(Clone, Copy, Debug, PartialEq, Eq)]
pub struct Tariff {
    /// Minor units for a block, at most 1,000,000.
    pub price: u32,
    /// Units in a block, 1 to 10^12.
    pub block: u64,
}

impl Model for Tariff {
    ghost use Rattle.dcc_tariff.specs.Terms.{TariffView, IsTariff};

    ghost Value = { TariffView };

    ghost view = { λ t. record { price = t.price; block = t.block } };

    ghost invariant = { λ t. IsTariff (record { price = t.price; block = t.block }) };

    ghost inverse = { λ v. record { price = v.price; block = v.block } };
}
