//! Acts in short: of one session, each request under its place as its number.

ghost use Rattle.std.specs.Prelude.{◌≡◌, ◌≤◌, is_some, true};
ghost use Rattle.std.specs.Option.{ForSome};
ghost use Rattle.dcc_act.specs.declared.limits.TheConstants.{MAX_SECONDS};

use dcc_act::{
    Act, Action, Form, Kind, MAX_SECONDS, Moment, OneTimeEvent, RequestKey, Service, ServiceIds,
    Services, SessionId, SessionLimit, SessionRequest, TopUp,
};
use dcc_tariff::{Tariff, Terms, UnitKind};
use std::alloc::Global;
use std::test::Fail;

/// The terms of the plan of the rows.
pub(crate) const TERMS: Terms = Terms {
    validity: 600,
    hold: 1200,
    currency: 978,
    exponent: -2,
};

/// 5 for each 1,000 octets.
pub(crate) const OCTETS: Tariff = Tariff {
    price: 5,
    block: 1000,
};

/// 2025-06-01T00:00:00Z.
const MOMENT: u64 = 1_748_736_000;

/// 2 for each 60 seconds.
const SECONDS: Tariff = Tariff {
    price: 2,
    block: 60,
};

/// A service in short: its group, which is 10 or 20, what it reports and what it asks for, each 0 for nothing.
pub(crate) type Want = (u32, u64, u64);

/// An act in short.
#[derive(Clone, Copy)]
pub(crate) enum Ask {
    /// The amount; the ticket is 1.
    TopUp(u64),
    Initial(&'static [Want]),
    Update(&'static [Want]),
    Termination(&'static [Want]),
    /// A direct debit of 1,001 octets.
    Debit,
    Expiry,
}

/// The session of this name.
pub(crate) fn session(alloc: Global, name: &[u8]) -> Result<SessionId, Fail> {
    Ok(SessionId::from_slice(alloc, name)?.ok_or("a session's name")?)
}

/// The session of this octet alone.
pub(crate) fn name(alloc: Global, octet: u8) -> Result<SessionId, Fail> {
    session(alloc, &[octet])
}

/// The moment of these seconds. `Moment::new` of a literal, in its place, takes the prover minutes.
pub(crate) fn moment(seconds: u64) -> Result<Moment, Fail> {
    Ok(Moment::new(seconds).ok_or("a moment")?)
}

/// An amount within its limits; none for 0.
fn units(amount: u64) -> Option<u64>
    ensures least { ForSome result (λ units. 1 ≤ units) }
    ensures most { ForSome result (λ units. units ≤ MAX_SECONDS) }
{
    if amount == 0 {
        return None;
    }
    Some(amount.min(MAX_SECONDS))
}

/// The service in short.
fn service(alloc: Global, (group, used, asked): Want) -> Service {
    let (unit, tariff) = if group == 20 {
        (UnitKind::Time, SECONDS)
    } else {
        (UnitKind::Octets, OCTETS)
    };
    Service {
        group: Some(group),
        ids: ServiceIds::new(alloc),
        form: Form::Multi,
        asked: units(asked),
        used: units(used),
        unit: Some(unit),
        tariff: Some(tariff),
    }
}

/// A request of the session.
fn request(alloc: Global, place: u32, wants: &[Want]) -> Result<SessionRequest, Fail> {
    let mut services = Vec::new(alloc);
    for want in wants {
        services.push(service(alloc, *want))?;
    }
    Ok(SessionRequest {
        key: key(alloc, place)?,
        services: Services::from_vec(services).ok_or("services")?,
    })
}

/// 1,001 octets in single form.
fn debit(alloc: Global) -> Service
    ensures { is_some result.asked ≡ true }
{
    Service {
        group: None,
        ids: ServiceIds::new(alloc),
        form: Form::Single,
        asked: Some(1001),
        used: None,
        unit: Some(UnitKind::Octets),
        tariff: Some(OCTETS),
    }
}

/// The key of the request at this place.
fn key(alloc: Global, place: u32) -> Result<RequestKey, Fail> {
    Ok(RequestKey {
        sid: name(alloc, b's')?,
        number: place,
    })
}

/// What happens by an act in short.
fn kind(alloc: Global, place: u32, ask: Ask) -> Result<Kind, Fail> {
    Ok(match ask {
        Ask::TopUp(amount) => Kind::TopUp(TopUp::new(1, amount).ok_or("an amount")?),
        Ask::Initial(wants) => Kind::Initial {
            request: request(alloc, place, wants)?,
            limit: SessionLimit::Many,
            host: None,
        },
        Ask::Update(wants) => Kind::Update(request(alloc, place, wants)?),
        Ask::Termination(wants) => Kind::Termination(request(alloc, place, wants)?),
        Ask::Debit => Kind::Event(OneTimeEvent {
            key: key(alloc, place)?,
            action: Action::DirectDebiting,
            service: debit(alloc),
        }),
        Ask::Expiry => Kind::Expiry,
    })
}

/// An act in short.
pub(crate) fn act(alloc: Global, place: u32, ask: Ask) -> Result<Act, Fail> {
    Ok(Act {
        moment: moment(MOMENT)?,
        kind: kind(alloc, place, ask)?,
    })
}

/// Acts in short, by their places from 0.
pub(crate) fn acts(alloc: Global, asks: &[(Ask, bool)]) -> Result<Vec<Act>, Fail> {
    let mut acts = Vec::new(alloc);
    for (place, (ask, _)) in asks.iter().enumerate() {
        acts.push(act(alloc, (place & 0xff) as u32, *ask)?)?;
    }
    Ok(acts)
}
