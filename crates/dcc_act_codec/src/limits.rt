//! The limits of sessions, of tariffs and of a service's amounts, tested.

ghost use Rattle.std.specs.Prelude.{◌≡◌, true, Option, is_some};
ghost use Rattle.dcc_tariff.specs.Terms.{TariffView};
ghost use Rattle.dcc_act.specs.Services.{IsService};
ghost use Rattle.dcc_act_codec.specs.inner.Reading.{limit_from, is_tariff, tariff_from, is_nothing, is_used, most_asked, is_asked, is_service, service_from};

use dcc_act::{FEW_SESSIONS, Form, MAX_SECONDS, MAX_SESSIONS, Service, ServiceIds, SessionLimit};
use dcc_tariff::{MAX_BLOCK_PRICE, MAX_UNITS, Tariff, UnitKind};

/// The limit of so many sessions, if a limit has this number.
pub(crate) fn limit_from(sessions: u16) -> Option<SessionLimit>
    ensures { result ≡ limit_from sessions }
{
    match sessions as usize {
        FEW_SESSIONS => Some(SessionLimit::Few),
        MAX_SESSIONS => Some(SessionLimit::Many),
        _ => None,
    }
}

/// The tariff of a price and a block, if they are within their limits.
pub(crate) fn tariff_from(price: u32, block: u64) -> Option<Tariff>
    ensures { result ≡ tariff_from (price, block) }
{
    if price <= MAX_BLOCK_PRICE && 1 <= block && block <= MAX_UNITS {
        Some(Tariff { price, block })
    } else {
        None
    }
}

/// The service of these parts, if its amounts go with its unit.
pub(crate) fn service_from(
    form: Form,
    group: Option<u32>,
    ids: ServiceIds,
    asked: Option<u64>,
    used: Option<u64>,
    unit: Option<UnitKind>,
    tariff: Option<Tariff>,
) -> Option<Service>
    ensures { result ≡ service_from (((((form, group), ids), asked), used), (unit, tariff)) }
{
    if !is_service(asked, used, unit, tariff.is_some()) {
        return None;
    }
    Some(Service {
        group,
        ids,
        form,
        asked,
        used,
        unit,
        tariff,
    })
}

/// Whether a service of this unit, with a tariff or none, may ask for so much and report so much.
#[tactic(auto, unfolding(crate::specs::inner::Reading::is_service))]
fn is_service(asked: Option<u64>, used: Option<u64>, unit: Option<UnitKind>, rated: bool) -> bool
    ensures exact { result ≡ is_service asked used unit rated }
    ensures limits { (tariff : Option TariffView) → rated ≡ is_some tariff → result ≡ true → IsService asked used unit tariff }
{
    match unit {
        None => is_nothing(asked) && is_nothing(used) && !rated,
        Some(unit) => is_asked(unit, asked) && is_used(used),
    }
}

/// Whether the number of units is absent or 0.
fn is_nothing(units: Option<u64>) -> bool
    ensures { result ≡ is_nothing units }
{
    match units {
        None => true,
        Some(units) => units == 0,
    }
}

/// Whether so many units may be reported.
fn is_used(units: Option<u64>) -> bool
    ensures { result ≡ is_used units }
{
    match units {
        None => true,
        Some(units) => units <= MAX_UNITS,
    }
}

/// The most of a unit that may be asked for.
fn most_asked(unit: UnitKind) -> u64
    ensures { result ≡ most_asked unit }
{
    match unit {
        UnitKind::Octets | UnitKind::Units => MAX_UNITS,
        UnitKind::Time => MAX_SECONDS,
    }
}

/// Whether so much of a unit may be asked for.
fn is_asked(unit: UnitKind, units: Option<u64>) -> bool
    ensures { result ≡ is_asked unit units }
{
    match units {
        None => true,
        Some(units) => 1 <= units && units <= most_asked(unit),
    }
}
