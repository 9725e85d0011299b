//! Grants that a session holds.

ghost use Rattle.std.specs.Prelude.{◌≡◌, ◌≤◌};
ghost use Rattle.dcc_session.specs.Grants.{held_price};

use dcc_act::{Grant, ServiceKey};
use dcc_tariff::{MAX_PRICE, price_of};

/// A live grant of a session, with the service that it was made to.
#[derive(Clone, Copy, Debug)]
pub struct Held {
    pub key: ServiceKey,
    pub grant: Grant,
}

/// The price of a grant's units at its tariff, in minor units: the amount that its session holds of the pool for it.
pub fn price_held(held: &Held) -> u64
    ensures value { result ≡ held_price held.now }
    ensures bound { result ≤ MAX_PRICE }
{
    let grant = &held.grant;
    price_of(grant.tariff, grant.units)
}
