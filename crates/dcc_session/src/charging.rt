//! The charge of a report.

ghost use Rattle.std.specs.Prelude.{◌≡◌, ◌-◌, ◌≤◌, pos, ◌-ℤ◌, option_map, unwrap_or};
ghost use Rattle.std.specs.Option.{ForSome, option_map_or};
ghost use Rattle.dcc_escrow.specs.Pools.{IsOf, IsAboveFloor};
ghost use Rattle.dcc_session.specs.Grants.{price_of_grant, held_price, charge_at, charge_by, overrun_by};

use crate::charged::Charged;
use crate::held::Held;
use dcc_act::Service;
use dcc_escrow::{Parked, Pool};
use dcc_tariff::{MAX_PRICE, Tariff, price_of};

/// The price of the units that a service reports, if it reports any and there is a tariff.
fn charge_at(service: &Service, tariff: Option<Tariff>) -> Option<u64>
    ensures value { result ≡ charge_at tariff service.now }
    ensures bound { ForSome result (λ cost. cost ≤ MAX_PRICE) }
{
    let units = service.used?;
    let tariff = tariff?;
    Some(price_of(tariff, units))
}

/// Charges the units that a service reports, by the grant that was taken from its session with its hold, if it had any.
pub(crate) fn settle(pool: &mut Pool, taken: Option<(Held, Parked)>, service: &Service) -> Charged
    requires hold { ForSome taken (λ taken. IsOf pool.old taken.1) }
    requires amount { ForSome taken (λ taken. taken.1.amount ≡ held_price taken.0) }
    requires floor { IsAboveFloor (pool.old.committed -ℤ pos (unwrap_or (charge_by (option_map (λ taken. taken.0.grant) taken) service.now) 0)) }
    ensures charge { result.charge ≡ charge_by (option_map (λ taken. taken.0.grant) taken) service.now }
    ensures charge_bound { ForSome result.charge (λ cost. cost ≤ MAX_PRICE) }
    ensures overrun { result.overrun ≡ overrun_by (option_map (λ taken. taken.0.grant) taken) service.now }
    ensures overrun_bound { result.overrun ≤ MAX_PRICE }
    ensures pool { pool.new ≡ record {
      id = pool.old.id;
      committed = pool.old.committed -ℤ pos (unwrap_or (charge_by (option_map (λ taken. taken.0.grant) taken) service.now) 0);
      reserved = pool.old.reserved - option_map_or price_of_grant (option_map (λ taken. taken.0.grant) taken) 0;
    } }
{
    match taken {
        Some((held, parked)) => {
            let charge = charge_at(service, Some(held.grant.tariff));
            let hold = pool.unpark(parked);
            let settled = pool.settle(hold, charge.unwrap_or(0));
            Charged {
                charge,
                overrun: settled.overrun,
            }
        }
        None => {
            let charge = charge_at(service, service.tariff);
            let cost = charge.unwrap_or(0);
            pool.force(cost).unwrap();
            Charged {
                charge,
                overrun: cost,
            }
        }
    }
}
