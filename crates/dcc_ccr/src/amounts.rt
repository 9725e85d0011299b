//! Amounts of units, asked for and used.

ghost use Rattle.std.specs.Prelude.{◌≡◌, ◌+◌, ◌<◌, ◌≤◌, ◌^◌, true, filter, IfOk};
ghost use Rattle.dcc_request.specs.Answers.{Gives};
ghost use Rattle.dcc_tariff.specs.declared.limits.TheConstants.{MAX_UNITS as MOST};
ghost use Rattle.dcc_act.specs.declared.limits.TheConstants.{MAX_SECONDS};
ghost use Rattle.dcc_ccr.specs.Amounts.{AmountsView, units_in, or_0, octets_of, plus, nothing, is_within, limited, added, asked_in, or_nothing, counted, used_in};
ghost use Rattle.dcc_ccr.specs.Services.{FitsSeconds};

use crate::steps::{long_number_of, number_of};
use dcc_avp::{Avp, codes};
use dcc_request::{Cause, Refused, Stop, first, read_message_list};
use dcc_tariff::MAX_UNITS;
use std::alloc::Global;
use std::marker::Model;

/// An amount in each unit in which it may be counted: at most 10^12 in each. The plan says which unit counts.
#[derive(Clone, Copy, Debug, PartialEq, Eq)]
pub struct Amounts {
    octets: u64,
    time: u64,
    units: u64,
}

impl Model for Amounts {
    ghost use Rattle.std.specs.Prelude.{◌≡◌, true};
    ghost use Rattle.dcc_ccr.specs.Amounts.{AmountsView, is_within};

    ghost Value = { AmountsView };

    ghost view = { λ a. record { octets = a.octets; time = a.time; units = a.units } };

    ghost invariant = { λ a. is_within (record { octets = a.octets; time = a.time; units = a.units }) ≡ true };

    ghost inverse = { λ v. record { octets = v.octets; time = v.time; units = v.units } };
}

impl Amounts {
    /// In octets: CC-Total-Octets, or else CC-Input-Octets and CC-Output-Octets together.
    pub fn octets(&self) -> u64
        ensures value { result ≡ self.now.octets }
        ensures limit { result ≤ MOST }
    {
        self.octets
    }

    /// In seconds: CC-Time.
    pub fn time(&self) -> u64
        ensures value { result ≡ self.now.time }
        ensures limit { result ≤ MOST }
    {
        self.time
    }

    /// In units of the service's own: CC-Service-Specific-Units.
    pub fn units(&self) -> u64
        ensures value { result ≡ self.now.units }
        ensures limit { result ≤ MOST }
    {
        self.units
    }
}

/// The numbers in a Requested-Service-Unit or a Used-Service-Unit.
#[derive(Drop)]
struct Units {
    time: Option<u32>,
    total: Option<u64>,
    input: Option<u64>,
    output: Option<u64>,
    units: Option<u64>,
}

impl Model for Units {
    ghost use Rattle.dcc_ccr.specs.Amounts.{UnitsView};

    ghost Value = { UnitsView };

    ghost view = { λ u. record { time = u.time; total = u.total; input = u.input; output = u.output; units = u.units } };
}

/// No amounts, to which the first amounts are added.
const NOTHING: Amounts = Amounts {
    octets: 0,
    time: 0,
    units: 0,
};

/// The numbers of a list of units, in the order in which their sizes are checked.
#[tactic(auto, unfolding(crate::specs::Amounts::units_in))]
fn units_in<'a>(avps: &[Avp<'a>]) -> Result<Units, Refused<'a>>
    ensures { result ≡ units_in avps.now }
{
    Ok(Units {
        time: number_of(avps, codes::CC_TIME)?,
        total: long_number_of(avps, codes::CC_TOTAL_OCTETS)?,
        input: long_number_of(avps, codes::CC_INPUT_OCTETS)?,
        output: long_number_of(avps, codes::CC_OUTPUT_OCTETS)?,
        units: long_number_of(avps, codes::CC_SERVICE_SPECIFIC_UNITS)?,
    })
}

/// The octets in all. They may be more than eight octets can count, since they may be the sum of two numbers.
fn octets_of(said: &Units) -> u128
    ensures value { result ≡ octets_of said.now }
    ensures bound { result < 2 ^ 65 }
{
    match said.total {
        Some(total) => total as u128,
        None => said.input.unwrap_or(0) as u128 + said.output.unwrap_or(0) as u128,
    }
}

/// The sum of the amounts before and of the amounts of this AVP; `InvalidAvpValue` with the AVP if the sum in any unit
/// is over 10^12.
fn limited<'a>(sum: &Amounts, said: &Units, avp: &Avp<'a>) -> Result<Amounts, Refused<'a>>
    ensures value { result ≡ limited avp.now (plus sum.now said.now) }
    ensures seconds { IfOk result (λ amounts. amounts.time ≤ sum.now.time + MAX_SECONDS) }
{
    let octets = sum.octets() as u128 + octets_of(said);
    let time = sum.time() as u128 + said.time.unwrap_or(0) as u128;
    let units = sum.units() as u128 + said.units.unwrap_or(0) as u128;
    let most = MAX_UNITS as u128;
    if octets <= most && time <= most && units <= most {
        Ok(Amounts {
            octets: octets as u64,
            time: time as u64,
            units: units as u64,
        })
    } else {
        Err(Refused::one(Cause::InvalidAvpValue, avp.copy()))
    }
}

/// The amounts of a unit's AVP, added to the amounts before.
#[tactic(auto, unfolding(crate::specs::Amounts::added))]
fn added<'a>(alloc: Global, sum: &Amounts, avp: &Avp<'a>) -> Result<Amounts, Stop<'a>>
    ensures value { Gives (λ amounts. amounts) result (added sum.now avp.now) }
    ensures seconds { IfOk result (λ amounts. amounts.time ≤ sum.now.time + MAX_SECONDS) }
{
    let list = read_message_list(alloc, avp.value())?;
    let said = units_in(&list)?;
    Ok(limited(sum, &said, avp)?)
}

/// The amounts that a list asks for, if it has a Requested-Service-Unit.
#[tactic(auto, unfolding(crate::specs::Amounts::asked_in))]
pub(crate) fn asked_in<'a>(alloc: Global, avps: &[Avp<'a>]) -> Result<Option<Amounts>, Stop<'a>>
    ensures value { Gives (λ asked. asked) result (asked_in avps.now) }
    ensures seconds { IfOk result FitsSeconds }
{
    match first(avps, codes::REQUESTED_SERVICE_UNIT) {
        Some(avp) => Ok(Some(added(alloc, &NOTHING, avp)?)),
        None => Ok(None),
    }
}

/// The amounts that a list reports as used, if it has a Used-Service-Unit: the sum of all of them.
#[tactic(auto, unfolding(crate::specs::Amounts::used_in))]
pub(crate) fn used_in<'a>(alloc: Global, avps: &[Avp<'a>]) -> Result<Option<Amounts>, Stop<'a>>
    ensures { Gives (λ used. used) result (used_in avps.now) }
{
    let mut used = None;
    for avp in avps {
        if avp.has_code(codes::USED_SERVICE_UNIT) {
            used = Some(added(alloc, &used.unwrap_or(NOTHING), avp)?);
        }
    }
    Ok(used)
}
