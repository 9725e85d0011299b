//! Open sessions.

ghost use Rattle.std.specs.Prelude.{◌≡◌, ◌+◌, ◌-◌, ◌*◌, ◌≤◌, ◌<◌, ◌^◌, ◌∷◌, ◌++◌, pos, ◌-ℤ◌, true, length, map, Err, OnOk, OnErr};
ghost use Rattle.std.specs.List.{All};
ghost use Rattle.std.specs.Option.{ForSome};
ghost use Rattle.dcc_escrow.specs.Pools.{IsCovered, IsAboveFloor};
ghost use Rattle.dcc_act.specs.ServiceKeys.{are_apart};
ghost use Rattle.dcc_act.specs.Services.{service_key};
ghost use Rattle.dcc_escrow.specs.declared.limits.TheConstants.{MOST_MONEY};
ghost use Rattle.dcc_session.specs.Grants.{key_of_held, live_in, held_price, prices, without, live_price_in, charge_in, cost_in, overrun_in, charges_in, overruns_in, given_by, left_by, given_back, left_of};
ghost use Rattle.dcc_session.specs.Sessions.{IsHeldOn};

use crate::charged::{Charged, Charges};
use crate::charging::settle;
use crate::fault::GrantFault;
use crate::granted::Granted;
use crate::held::{Held, price_held};
use crate::holds::{release_all, take_all, take_out};
use crate::idle::Closed;
use crate::parked::ParkedSession;
use dcc_act::{Looks, Service, Services};
use dcc_escrow::{Parked, Pool};
use dcc_tariff::MAX_PRICE;
use std::marker::Model;

/// An open session: its deadline, in seconds, and its live grants, each with a hold on the pool of exactly its price. It
/// can't be let go: the only ways out are [`Open::end`] and [`Open::park`], and the compiler rejects a program in which a
/// session is lost.
pub struct Open {
    pub(crate) pool: u64,
    pub(crate) deadline: u64,
    pub(crate) grants: Vec<Held>,
    pub(crate) holds: Vec<Parked>,
}

impl Model for Open {
    ghost use Rattle.dcc_session.specs.Sessions.{OpenView};
    ghost use Rattle.dcc_session.specs.inner.Holds.{AreHeld};

    ghost Value = { OpenView };

    ghost view = { λ s. record { pool = s.pool; deadline = s.deadline; grants = s.grants.items } };

    ghost invariant = { λ s. AreHeld s.pool s.grants.items s.holds.items };
}

impl Open {
    /// The moment until which the session is held, in seconds.
    pub fn deadline(&self) -> u64
        ensures { result ≡ self.now.deadline }
    {
        self.deadline
    }

    /// The number of its live grants.
    pub fn count(&self) -> usize
        ensures { result ≡ length self.now.grants }
    {
        self.grants.len()
    }

    /// Its live grants, those of the latest request first. Each grant is one look.
    pub fn grants(&self, looks: &mut Looks) -> &[Held]
        requires { looks.old + length self.now.grants < 2 ^ 64 }
        ensures value { result.now ≡ self.now.grants }
        ensures apart { are_apart (map key_of_held result.now) ≡ true }
        ensures looks { looks.new ≡ looks.old + length self.now.grants }
    {
        looks.add(self.grants.len() as u64);
        &self.grants
    }

    /// Gives back the service's hold, if the service reports units or asks for some, and charges the reported units, in minor
    /// units: at the tariff of its live grant, or without a live grant at the service's own. The charge may pass the hold,
    /// and the part beyond it is returned. The charge has to leave the pool's money at -10^18 or above. A service that
    /// neither reports nor asks keeps its hold. It takes no memory.
    pub fn report(&mut self, pool: &mut Pool, service: &Service) -> Charged
        requires held { IsHeldOn pool.old self.old }
        requires floor { IsAboveFloor (pool.old.committed -ℤ pos (cost_in self.old.grants service.now)) }
        ensures charge { result.charge ≡ charge_in self.old.grants service.now }
        ensures charge_bound { ForSome result.charge (λ cost. cost ≤ MAX_PRICE) }
        ensures overrun { result.overrun ≡ overrun_in self.old.grants service.now }
        ensures overrun_bound { result.overrun ≤ MAX_PRICE }
        ensures session { self.new ≡ record self.old { grants = left_by self.old.grants service.now } }
        ensures held { prices self.new.grants + given_by self.old.grants service.now ≡ prices self.old.grants }
        ensures pool { pool.new ≡ record {
          id = pool.old.id;
          committed = pool.old.committed -ℤ pos (cost_in self.old.grants service.now);
          reserved = pool.old.reserved - given_by self.old.grants service.now;
        } }
    {
        if service.asked.is_none() && service.used.is_none() {
            return Charged {
                charge: None,
                overrun: 0,
            };
        }
        self.give_back(pool, service)
    }

    /// Gives back the service's hold, and charges the reported units.
    fn give_back(&mut self, pool: &mut Pool, service: &Service) -> Charged
        requires held { IsHeldOn pool.old self.old }
        requires floor { IsAboveFloor (pool.old.committed -ℤ pos (cost_in self.old.grants service.now)) }
        ensures charge { result.charge ≡ charge_in self.old.grants service.now }
        ensures charge_bound { ForSome result.charge (λ cost. cost ≤ MAX_PRICE) }
        ensures overrun { result.overrun ≡ overrun_in self.old.grants service.now }
        ensures overrun_bound { result.overrun ≤ MAX_PRICE }
        ensures session { self.new ≡ record self.old { grants = without self.old.grants (service_key service.now) } }
        ensures held { prices self.new.grants + live_price_in self.old.grants (service_key service.now) ≡ prices self.old.grants }
        ensures pool { pool.new ≡ record {
          id = pool.old.id;
          committed = pool.old.committed -ℤ pos (cost_in self.old.grants service.now);
          reserved = pool.old.reserved - live_price_in self.old.grants (service_key service.now);
        } }
    {
        let taken = take_out(&mut self.grants, &mut self.holds, service.key());
        settle(pool, taken, service)
    }

    /// Gives back the holds of a request's services that report units or ask for some, and charges the reported units, each as
    /// [`Open::report`] does. It returns the sum of the charges, and the sum of their parts beyond the holds: at most 2 * 10^18
    /// minor units, since the floor bears them. It takes no memory.
    #[tactic(auto, using(crate::proofs::Reporting::apart_of))]
    pub fn report_all(&mut self, pool: &mut Pool, services: &Services) -> Charges
        requires held { IsHeldOn pool.old self.old }
        requires floor { IsAboveFloor (pool.old.committed -ℤ pos (charges_in self.old.grants services.now)) }
        ensures total { result.total ≡ charges_in self.old.grants services.now }
        ensures overrun { result.overrun ≡ overruns_in self.old.grants services.now }
        ensures overrun_bound { result.overrun ≤ 2 * MOST_MONEY }
        ensures session { self.new ≡ record self.old { grants = left_of self.old.grants services.now } }
        ensures held { prices self.new.grants + given_back self.old.grants services.now ≡ prices self.old.grants }
        ensures pool { pool.new ≡ record {
          id = pool.old.id;
          committed = pool.old.committed -ℤ pos (charges_in self.old.grants services.now);
          reserved = pool.old.reserved - given_back self.old.grants services.now;
        } }
    {
        self.report_each(pool, services.as_slice())
    }

    /// The same for services with keys of their own.
    fn report_each(&mut self, pool: &mut Pool, services: &[Service]) -> Charges
        requires held { IsHeldOn pool.old self.old }
        requires apart { are_apart (map service_key services.now) ≡ true }
        requires floor { IsAboveFloor (pool.old.committed -ℤ pos (charges_in self.old.grants services.now)) }
        ensures total { result.total ≡ charges_in self.old.grants services.now }
        ensures overrun { result.overrun ≡ overruns_in self.old.grants services.now }
        ensures overrun_bound { result.overrun ≤ 2 * MOST_MONEY }
        ensures session { self.new ≡ record self.old { grants = left_of self.old.grants services.now } }
        ensures held { prices self.new.grants + given_back self.old.grants services.now ≡ prices self.old.grants }
        ensures pool { pool.new ≡ record {
          id = pool.old.id;
          committed = pool.old.committed -ℤ pos (charges_in self.old.grants services.now);
          reserved = pool.old.reserved - given_back self.old.grants services.now;
        } }
    {
        // The call is made for its clause alone: the money is at most 10^18 before the charges, and at least -10^18 after them.
        pool.committed();
        let mut total = 0;
        let mut overrun = 0;
        for service in services {
            let charged = self.report(pool, service);
            total += charged.charge.unwrap_or(0);
            overrun += charged.overrun;
        }
        Charges { total, overrun }
    }

    /// Makes a grant to a service that has none, with a hold of the pool for its price. [`GrantFault::Short`] if the free
    /// money doesn't cover the price; [`GrantFault::Memory`] if it does and memory is refused. An error leaves session and
    /// pool as before.
    pub fn grant(&mut self, pool: &mut Pool, held: Held) -> Result<(), GrantFault>
        requires pool { self.old.pool ≡ pool.old.id }
        requires free { live_in self.old.grants held.key ≡ None }
        ensures covered { OnOk result (IsCovered pool.old (held_price held)) }
        ensures memory { result ≡ Err GrantFault.Memory → IsCovered pool.old (held_price held) }
        ensures short { result ≡ Err GrantFault.Short → ¬ IsCovered pool.old (held_price held) }
        ensures session { OnOk result (self.new ≡ record self.old { grants = held ∷ self.old.grants }) }
        ensures reserved { OnOk result (pool.new ≡ record pool.old { reserved = pool.old.reserved + held_price held }) }
        ensures same_session { OnErr result (self.new ≡ self.old) }
        ensures same_pool { OnErr result (pool.new ≡ pool.old) }
    {
        let Ok(hold) = pool.take(price_held(&held)) else {
            return Err(GrantFault::Short);
        };
        if self.grants.reserve(1).is_err() || self.holds.reserve(1).is_err() {
            pool.release(hold);
            return Err(GrantFault::Memory);
        }
        self.grants.insert(0, held).unwrap();
        self.holds.insert(0, hold.park()).unwrap();
        Ok(())
    }

    /// Makes all grants of a request, for which memory was taken before, each with a hold of the pool for its price. The free
    /// money has to cover their prices, and none of their services may have a live grant. It takes no memory.
    pub fn grant_all(&mut self, pool: &mut Pool, granted: Granted)
        requires pool { self.old.pool ≡ pool.old.id }
        requires apart { are_apart (map key_of_held granted.grants) ≡ true }
        requires free { All (λ (held : Held). live_in self.old.grants held.key ≡ None) granted.grants }
        requires room { length self.old.grants ≤ granted.room }
        requires covered { IsCovered pool.old (prices granted.grants) }
        ensures session { self.new ≡ record self.old { grants = granted.grants ++ self.old.grants } }
        ensures pool { pool.new ≡ record pool.old { reserved = pool.old.reserved + prices granted.grants } }
    {
        let Granted {
            mut grants,
            mut holds,
            room: _,
        } = granted;
        take_all(pool, &grants, &mut holds);
        grants.append(&mut self.grants).unwrap();
        holds.append(&mut self.holds).unwrap();
        self.grants = grants;
        self.holds = holds;
    }

    /// Holds the session until this moment, in seconds, which may be earlier or later than before.
    pub fn touch(&mut self, deadline: u64)
        ensures { self.new ≡ record self.old { deadline = deadline } }
    {
        self.deadline = deadline;
    }

    /// Ends the session, and gives back all its holds. It takes no memory.
    pub fn end(self, pool: &mut Pool) -> Closed
        requires { IsHeldOn pool.old self }
        ensures { pool.new ≡ record pool.old { reserved = pool.old.reserved - prices self.grants } }
    {
        let Open {
            pool: _,
            deadline: _,
            grants: _,
            holds,
        } = self;
        release_all(pool, holds);
        Closed::new()
    }

    /// Puts the session away as data. Its holds stay reserved.
    pub fn park(self) -> ParkedSession
        ensures { result ≡ self }
    {
        let Open {
            pool,
            deadline,
            grants,
            holds,
        } = self;
        ParkedSession {
            pool,
            deadline,
            grants,
            holds,
        }
    }
}
