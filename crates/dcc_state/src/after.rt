//! The change of a new act: of the money, of the open sessions and in the books.

ghost use Rattle.std.specs.Prelude.{◌≡◌, filter_map, option_map, IfOk};
ghost use Rattle.dcc_model.specs.Sessions.{looked_at};
ghost use Rattle.dcc_state.specs.Backed.{held_by};
ghost use Rattle.dcc_state.specs.inner.Grants.{charge_entries_in};
ghost use Rattle.dcc_state.specs.inner.Judged.{entries_with, turn_with, change_with};

use crate::change::{Change, Turn};
use crate::grants::charge;
use dcc_act::{Entry, Kind, Moment, Outcome, Service, ServiceAnswer, Services, SessionId};
use dcc_model::{
    answers_of, charge_entry, credited, debited, event_entries, has_succeeded, is_refused,
    top_up_entries,
};
use dcc_session::{Granted, Held};
use dcc_tariff::Terms;
use std::alloc::{AllocError, Global};

/// The entries of a new act at this place. The only error is want of memory.
pub(crate) fn entries_by(
    alloc: Global,
    own: &[Held],
    place: u64,
    moment: Moment,
    kind: &Kind,
    services: &[Service],
    outcome: &Outcome,
) -> Result<Vec<Entry>, AllocError>
    requires looked { services.now ≡ looked_at kind.now }
    ensures { IfOk result (λ entries. entries.items ≡ entries_with own.now place moment kind.now outcome.now) }
{
    match kind {
        Kind::TopUp(top_up) => top_up_entries(alloc, place, moment, top_up, outcome),
        Kind::Event(event) => event_entries(alloc, place, moment, event, outcome),
        Kind::Update(report) | Kind::Termination(report) if !is_refused(outcome) => {
            charge_entries(alloc, own, place, moment, &report.key.sid, services)
        }
        _ => Ok(Vec::new(alloc)),
    }
}

/// The entries of a request's reports that are charged, in the order of its services.
fn charge_entries(
    alloc: Global,
    own: &[Held],
    place: u64,
    moment: Moment,
    sid: &SessionId,
    services: &[Service],
) -> Result<Vec<Entry>, AllocError>
    ensures { IfOk result (λ entries. entries.items ≡ charge_entries_in own.now place moment sid.now services.now) }
{
    let mut entries = Vec::new(alloc);
    for service in services {
        let cost = charge(own, service);
        if let Some(entry) = charge_entry(place, moment, sid, service, cost)? {
            entries.push(entry)?;
        }
    }
    Ok(entries)
}

/// A new act's change of the money and of the open sessions. The only error is want of memory.
pub(crate) fn change_of(
    alloc: Global,
    terms: &Terms,
    own: &[Held],
    moment: Moment,
    kind: &Kind,
    services: Services,
    outcome: &Outcome,
) -> Result<Change, AllocError>
    requires looked { services ≡ looked_at kind.now }
    ensures { IfOk result (λ change. change ≡ change_with terms.now own.now moment kind.now outcome.now) }
{
    let sid = match kind {
        Kind::TopUp(_) | Kind::Event(_) => {
            return Ok(Change::Post {
                credit: credited(kind, outcome),
                debit: debited(kind, outcome),
            });
        }
        Kind::Expiry => return Ok(Change::Expire(moment)),
        Kind::Initial { request, .. } if has_succeeded(outcome) => &request.key.sid,
        Kind::Update(request) if !is_refused(outcome) && has_succeeded(outcome) => &request.key.sid,
        Kind::Update(request) | Kind::Termination(request) if !is_refused(outcome) => {
            return Ok(Change::End {
                sid: request.key.sid.copy()?,
                services,
            });
        }
        Kind::Initial { .. } | Kind::Update(_) | Kind::Termination(_) => {
            return Ok(Change::Nothing);
        }
    };
    let turn = turn_with(alloc, terms, own, moment, sid, services, outcome)?;
    Ok(Change::Open(turn))
}

/// The turn of a session that goes on after its request, or begins with it.
fn turn_with(
    alloc: Global,
    terms: &Terms,
    own: &[Held],
    moment: Moment,
    sid: &SessionId,
    services: Services,
    outcome: &Outcome,
) -> Result<Turn, AllocError>
    ensures { IfOk result (λ turn. turn ≡ turn_with terms.now own.now moment sid.now services outcome.now) }
{
    let made = granted(alloc, answers_of(outcome))?;
    Ok(Turn {
        sid: sid.copy()?,
        name: sid.copy()?,
        deadline: moment.seconds() + u64::from(terms.hold),
        services,
        granted: Granted::new(alloc, made, own.len())?,
    })
}

/// The grants of answers, each with the key of its service.
fn granted(alloc: Global, answers: &[ServiceAnswer]) -> Result<Vec<Held>, AllocError>
    ensures { IfOk result (λ held. held.items ≡ filter_map held_by answers.now) }
{
    let mut granted = Vec::new(alloc);
    for answer in answers {
        if let Some(grant) = answer.grant {
            granted.push(Held {
                key: answer.key(),
                grant,
            })?;
        }
    }
    Ok(granted)
}
