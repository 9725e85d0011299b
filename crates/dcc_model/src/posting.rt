//! The entries of an act in the books.

ghost use Rattle.std.specs.Prelude.{◌≡◌, ◌++◌, ◌∷◌, [], ◌≤◌, if◌then◌else◌, reverse, option_map, IfOk, OnOk};
ghost use Rattle.std.specs.Option.{option_to_list, ForSome};
ghost use Rattle.dcc_tariff.specs.declared.limits.TheConstants.{MAX_PRICE};
ghost use Rattle.dcc_model.specs.Results.{is_added};
ghost use Rattle.dcc_model.specs.Money.{charged_event, refunded_event};
ghost use Rattle.dcc_model.specs.Entries.{top_up_entry, debit_entry, refund_entry, charge_entry, charge_entries, entries_by};

use crate::decide::price;
use crate::done::Done;
use crate::looked_at::services_looked_at;
use crate::money::{charge, charged_units, refunded_units};
use crate::sessions::accepted;
use dcc_act::{
    Entry, EntryKind, EntryName, Grant, Kind, Moment, OneTimeEvent, Outcome, Service, SessionId,
    TopUp,
};
use dcc_tariff::Terms;
use std::alloc::{AllocError, Global};

/// The entries of an act after these. The only error is want of memory.
pub(crate) fn entries_by(
    alloc: Global,
    terms: &Terms,
    past: &[Done],
    done: &Done,
) -> Result<Vec<Entry>, AllocError>
    ensures { IfOk result (λ entries. entries.items ≡ entries_by terms.now (reverse past.now) done.now) }
{
    let place = past.len() as u64 + 1;
    let moment = done.act.moment;
    match &done.act.kind {
        Kind::TopUp(top_up) => top_up_entries(alloc, place, moment, top_up, &done.outcome),
        Kind::Event(event) => event_entries(alloc, place, moment, event, &done.outcome),
        kind => match accepted(done) {
            None => Ok(Vec::new(alloc)),
            Some(sid) => {
                let services = services_looked_at(alloc, kind)?;
                charge_entries(alloc, terms, past, place, moment, sid, &services)
            }
        },
    }
}

/// The entries of a top-up at this place: an entry if it was added, else none. The only error is want of memory.
pub fn top_up_entries(
    alloc: Global,
    place: u64,
    moment: Moment,
    top_up: &TopUp,
    outcome: &Outcome,
) -> Result<Vec<Entry>, AllocError>
    ensures { IfOk result (λ entries. entries.items ≡ (if is_added outcome.now then top_up_entry place moment top_up.now ∷ [] else [])) }
{
    if !matches!(outcome, Outcome::Added) {
        return Ok(Vec::new(alloc));
    }
    Ok(vec![in alloc; top_up_entry(place, moment, top_up)]?)
}

/// The entries of an event at this place: of its charge, and of its refund. The only error is want of memory.
pub fn event_entries(
    alloc: Global,
    place: u64,
    moment: Moment,
    event: &OneTimeEvent,
    outcome: &Outcome,
) -> Result<Vec<Entry>, AllocError>
    ensures { IfOk result (λ entries. entries.items
        ≡ option_to_list (option_map (debit_entry place moment event.now) (charged_event event.now outcome.now)) ++
        option_to_list (option_map (refund_entry place moment event.now) (refunded_event event.now outcome.now))) }
{
    let mut entries = Vec::new(alloc);
    append(&mut entries, debit_entry(place, moment, event, outcome)?)?;
    append(&mut entries, refund_entry(place, moment, event, outcome)?)?;
    Ok(entries)
}

/// The entries of a request's reports that are charged, in the order of its services.
fn charge_entries(
    alloc: Global,
    terms: &Terms,
    past: &[Done],
    place: u64,
    moment: Moment,
    sid: &SessionId,
    services: &[Service],
) -> Result<Vec<Entry>, AllocError>
    ensures { IfOk result (λ entries. entries.items ≡ charge_entries terms.now (reverse past.now) place moment sid.now services.now) }
{
    let mut entries = Vec::new(alloc);
    for service in services {
        let cost = charge(terms, past, sid, service);
        append(
            &mut entries,
            charge_entry(place, moment, sid, service, cost)?,
        )?;
    }
    Ok(entries)
}

/// Appends an entry, if there is any.
fn append(entries: &mut Vec<Entry>, entry: Option<Entry>) -> Result<(), AllocError>
    ensures { OnOk result (entries.new.items ≡ entries.old.items ++ option_to_list entry) }
{
    match entry {
        None => Ok(()),
        Some(entry) => Ok(entries.push(entry)?),
    }
}

/// A top-up's entry.
fn top_up_entry(place: u64, moment: Moment, top_up: &TopUp) -> Entry
    ensures { result ≡ top_up_entry place moment top_up.now }
{
    Entry {
        place,
        moment,
        kind: EntryKind::TopUp,
        group: None,
        units: 0,
        amount: top_up.amount as i64,
        name: EntryName::Ticket(top_up.ticket),
    }
}

/// The entry of an event that charged units. None of another event.
fn debit_entry(
    place: u64,
    moment: Moment,
    event: &OneTimeEvent,
    outcome: &Outcome,
) -> Result<Option<Entry>, AllocError>
    ensures { IfOk result (λ entry. entry
        ≡ option_map (debit_entry place moment event.now) (charged_event event.now outcome.now)) }
{
    let Some(grant) = charged_units(event, outcome) else {
        return Ok(None);
    };
    Ok(Some(Entry {
        place,
        moment,
        kind: EntryKind::Debit,
        group: event.service.group,
        units: grant.units,
        amount: -(price(&grant) as i64),
        name: EntryName::Session(event.key.sid.copy()?),
    }))
}

/// The entry of an event that refunded units. None of another event.
fn refund_entry(
    place: u64,
    moment: Moment,
    event: &OneTimeEvent,
    outcome: &Outcome,
) -> Result<Option<Entry>, AllocError>
    ensures { IfOk result (λ entry. entry
        ≡ option_map (refund_entry place moment event.now) (refunded_event event.now outcome.now)) }
{
    let Some(grant) = refunded_units(event, outcome) else {
        return Ok(None);
    };
    Ok(Some(Entry {
        place,
        moment,
        kind: EntryKind::Refund,
        group: event.service.group,
        units: grant.units,
        amount: price(&grant) as i64,
        name: EntryName::Session(event.key.sid.copy()?),
    }))
}

/// The entry, at this place, of a report with this charge, in minor units, at most 10^18. None without a charge. The
/// only error is want of memory.
pub fn charge_entry(
    place: u64,
    moment: Moment,
    sid: &SessionId,
    service: &Service,
    cost: Option<u64>,
) -> Result<Option<Entry>, AllocError>
    requires { ForSome cost (λ cost. cost ≤ MAX_PRICE) }
    ensures { IfOk result (λ entry. entry ≡ option_map (charge_entry place moment sid.now service.now) cost) }
{
    let Some(cost) = cost else {
        return Ok(None);
    };
    Ok(Some(Entry {
        place,
        moment,
        kind: EntryKind::Charge,
        group: service.group,
        units: service.used.unwrap_or(0),
        amount: -(cost as i64),
        name: EntryName::Session(sid.copy()?),
    }))
}
