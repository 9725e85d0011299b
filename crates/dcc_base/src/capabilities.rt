//! The values of a request to exchange capabilities (RFC 6733, section 5.3).

ghost use Rattle.std.specs.Prelude.{◌≡◌, true, option_map, IfOk};
ghost use Rattle.dcc_octets.specs.Names.{is_short};
ghost use Rattle.dcc_request.specs.Answers.{seen};
ghost use Rattle.dcc_request.specs.Refusals.{first_some};
ghost use Rattle.dcc_base.specs.Capabilities.{is_misshapen, tells, misshapen_in, is_shared, application_in, misshapen_inside, names_shared_inside, any_shared, any_shared_inside, shares_application, any_wants_none, shares_security, demand, host_of};

use dcc_avp::{Avp, codes};
use dcc_message::applications;
use dcc_request::{Cause, Group, Refused, clear, first, name_octets, required};

/// The Inband-Security-Id of a peer that wants no security on the connection (RFC 6733, section 6.10).
pub const NO_INBAND_SECURITY: u32 = 0;

/// Whether the data is no number of four octets.
fn is_misshapen(avp: &Avp<'_>) -> bool
    ensures { result ≡ is_misshapen avp.now }
{
    avp.as_u32().is_err()
}

/// Whether the data is this number.
fn tells(n: u32, avp: &Avp<'_>) -> bool
    ensures { result ≡ tells n avp.now }
{
    match avp.as_u32() {
        Ok(told) => told == n,
        Err(_) => false,
    }
}

/// The refusal of the first AVP of a code that is no number of four octets.
fn misshapen_in<'a>(code: u32, avps: &[Avp<'a>]) -> Option<Refused<'a>>
    ensures { result ≡ misshapen_in code avps.now }
{
    avps.iter()
        .find(|avp| avp.has_code(code) && is_misshapen(avp))
        .map(|avp| Refused::one(Cause::InvalidAvpLength, avp.copy()))
}

/// Whether the application is credit control or that of relays.
fn is_shared(avp: &Avp<'_>) -> bool
    ensures { result ≡ is_shared avp.now }
{
    tells(applications::CREDIT_CONTROL, avp) || tells(applications::RELAY, avp)
}

/// The first Auth-Application-Id inside a Vendor-Specific-Application-Id.
fn application_in<'m, 'a>(group: &'m Group<'a>) -> Option<&'m Avp<'a>>
    ensures { option_map (λ avp. avp.now) result ≡ application_in group.now }
{
    first(group.list().avps(), codes::AUTH_APPLICATION_ID)
}

/// The refusal of that AVP, if it is no number of four octets.
fn misshapen_inside<'a>(group: &Group<'a>) -> Option<Refused<'a>>
    ensures { result ≡ misshapen_inside group.now }
{
    match application_in(group) {
        Some(avp) if is_misshapen(avp) => {
            Some(Refused::one(Cause::InvalidAvpLength, avp.copy()))
        }
        _ => None,
    }
}

/// The first such refusal of several groups.
fn misshapen_in_groups<'a>(groups: &[Group<'a>]) -> Option<Refused<'a>>
    ensures { result ≡ first_some misshapen_inside groups.now }
{
    for group in groups {
        if let Some(refused) = misshapen_inside(group) {
            return Some(refused);
        }
    }
    None
}

/// Whether the first Auth-Application-Id inside a group is of a shared application.
fn names_shared_inside(group: &Group<'_>) -> bool
    ensures { result ≡ names_shared_inside group.now }
{
    match application_in(group) {
        Some(avp) => is_shared(avp),
        None => false,
    }
}

fn any_shared(avps: &[Avp<'_>]) -> bool
    ensures { result ≡ any_shared avps.now }
{
    avps.iter().any(|avp| avp.has_code(codes::AUTH_APPLICATION_ID) && is_shared(avp))
}

fn any_shared_inside(groups: &[Group<'_>]) -> bool
    ensures { result ≡ any_shared_inside groups.now }
{
    groups.iter().any(|group| names_shared_inside(group))
}

/// Whether an application that is named is shared.
fn shares_application(avps: &[Avp<'_>], groups: &[Group<'_>]) -> bool
    ensures { result ≡ shares_application avps.now groups.now }
{
    any_shared(avps) || any_shared_inside(groups)
}

fn any_wants_none(avps: &[Avp<'_>]) -> bool
    ensures { result ≡ any_wants_none avps.now }
{
    avps.iter().any(|avp| avp.has_code(codes::INBAND_SECURITY_ID) && tells(NO_INBAND_SECURITY, avp))
}

/// Whether no Inband-Security-Id is there, or an Inband-Security-Id wants no security.
fn shares_security(avps: &[Avp<'_>]) -> bool
    ensures { result ≡ shares_security avps.now }
{
    first(avps, codes::INBAND_SECURITY_ID).is_none() || any_wants_none(avps)
}

/// `Ok` if the demand holds, else the refusal with this cause.
fn demand(holds: bool, cause: Cause) -> Result<(), Refused<'static>>
    ensures { result ≡ demand holds cause }
{
    if holds {
        Ok(())
    } else {
        Err(Refused::bare(cause))
    }
}

/// The name of the peer's host, or the first refusal of a value.
#[tactic(auto, unfolding(crate::specs::Capabilities::host_of))]
pub(crate) fn host_of<'a>(avps: &[Avp<'a>], groups: &[Group<'a>]) -> Result<&'a [u8], Refused<'a>>
    ensures value { seen (λ host. host.now) result ≡ host_of avps.now groups.now }
    ensures limits { IfOk result (λ host. is_short host.now ≡ true) }
{
    let host = name_octets(required(avps, codes::ORIGIN_HOST)?)?;
    clear(misshapen_in(codes::AUTH_APPLICATION_ID, avps))?;
    clear(misshapen_in(codes::INBAND_SECURITY_ID, avps))?;
    clear(misshapen_in_groups(groups))?;
    demand(shares_application(avps, groups), Cause::NoCommonApplication)?;
    demand(shares_security(avps), Cause::NoCommonSecurity)?;
    Ok(host)
}
