//! Grants with their holds, in two lists of one order, so that the grants can be read as they lie.

ghost use Rattle.std.specs.Prelude.{◌≡◌, ◌≤◌, ◌-◌, ◌+◌, ◌++◌, ℕ, map, true, find, position, sum_by, length, vec_len, vec_capacity, option_map, IfSome};
ghost use Rattle.std.specs.List.{All};
ghost use Rattle.dcc_escrow.specs.Pools.{HoldView, IsCovered};
ghost use Rattle.dcc_act.specs.ServiceKeys.{same_service, are_apart};
ghost use Rattle.dcc_session.specs.Grants.{key_of_held, live_in, without, prices};
ghost use Rattle.dcc_session.specs.inner.Holds.{hold_of, amount_of};

use crate::held::{Held, price_held};
use dcc_act::ServiceKey;
use dcc_escrow::{Parked, Pool};

/// The index of a service's grant among these.
fn place(grants: &[Held], key: ServiceKey) -> Option<usize>
    ensures { result ≡ position (λ held. same_service held.key key) grants.now }
{
    grants.iter().position(|held| held.key.is_same(key))
}

/// Takes the grant of a service out with its hold, if it has any.
pub(crate) fn take_out(
    grants: &mut Vec<Held>,
    holds: &mut Vec<Parked>,
    key: ServiceKey,
) -> Option<(Held, Parked)>
    requires len { length holds.old.items ≡ length grants.old.items }
    requires apart { are_apart (map key_of_held grants.old.items) ≡ true }
    ensures taken { option_map (λ taken. taken.0.grant) result ≡ live_in grants.old.items key }
    ensures hold { (pool : ℕ) → holds.old.items ≡ map (hold_of pool) grants.old.items → IfSome result (λ taken. taken.1 ≡ hold_of pool taken.0) }
    ensures grants { grants.new.items ≡ without grants.old.items key }
    ensures holds { (pool : ℕ) → holds.old.items ≡ map (hold_of pool) grants.old.items → holds.new.items ≡ map (hold_of pool) grants.new.items }
{
    let Some(at) = place(grants, key) else {
        return None;
    };
    let held = grants.remove(at);
    let hold = holds.remove(at);
    Some((held, hold))
}

/// Releases all of these.
pub(crate) fn release_all(pool: &mut Pool, mut holds: Vec<Parked>)
    requires pool { All (λ (hold : HoldView). hold.pool ≡ pool.old.id) holds.items }
    requires reserved { sum_by amount_of holds.items ≤ pool.old.reserved }
    ensures { pool.new ≡ record pool.old { reserved = pool.old.reserved - sum_by amount_of holds.items } }
{
    while let Some(parked) = holds.pop() {
        let hold = pool.unpark(parked);
        pool.release(hold);
    }
}

/// Takes a hold of the pool for each grant, in order, and puts it behind the holds that are there.
pub(crate) fn take_all(pool: &mut Pool, grants: &[Held], holds: &mut Vec<Parked>)
    requires covered { IsCovered pool.old (prices grants.now) }
    requires room { vec_len holds.old + length grants.now ≤ vec_capacity holds.old }
    ensures holds { holds.new.items ≡ holds.old.items ++ map (hold_of pool.old.id) grants.now }
    ensures capacity { vec_capacity holds.new ≡ vec_capacity holds.old }
    ensures pool { pool.new ≡ record pool.old { reserved = pool.old.reserved + prices grants.now } }
{
    for held in grants {
        let hold = pool.take(price_held(held)).unwrap();
        holds.push_reserved(hold.park());
    }
}
