//! The plain program: the definitions, step by step.

ghost use Rattle.std.specs.Prelude.{◌≡◌, ◌≤◌, ◌+◌, ◌∷◌, if◌then◌else◌, length, map, reverse, Some, IfOk};
ghost use Rattle.std.specs.Option.{option_copied, option_map_or};
ghost use Rattle.dcc_model.specs.declared.done.Done.{Done};
ghost use Rattle.dcc_model.specs.Outcomes.{has_account, counts, first_of, unknown_of, decided, settled, judged, is_made, with_act, history, act_made, place_of_key, place_of, standing_of, outcome, was_opened_from};
ghost use Rattle.dcc_model.specs.Entries.{entries_by, entries_with};

use crate::decide::{decide_event, decide_top_up};
use crate::done::Done;
use crate::judgement::{Judgement, Standing};
use crate::keys::{is_expiry, is_same_key, is_top_up, request_key};
use crate::looked_at::services_looked_at;
use crate::money::{free, funds, standing, standing_with};
use crate::outcomes::{begun, reported};
use crate::posting::entries_by;
use crate::sessions::{expired, was_opened_in};
use dcc_act::{Act, Entry, Kind, Moment, Outcome, RequestType, SessionId};
use dcc_octets::Host;
use dcc_tariff::Terms;
use std::alloc::{AllocError, Global};

/// The outcome of the act at this place of a subscriber's list, counted from 1. The only error is want of memory. It is
/// slow: it goes through all acts before, and at each of them through all acts that were made before.
pub fn plain_answer(
    alloc: Global,
    terms: &Terms,
    acts: &[Act],
    place: usize,
) -> Result<Outcome, AllocError>
    requires from_one { 1 ≤ place }
    requires in_list { place ≤ length acts.now }
    ensures { IfOk result (λ answer. outcome terms.now acts.now place ≡ Some answer) }
{
    let past = made(alloc, terms, &acts[..place - 1])?;
    judged(alloc, terms, &past, &acts[place - 1])
}

/// Whether these acts opened a session from a host. The session may be open or ended. The only error is want of memory.
/// It is slow, as [`plain_answer`] is.
pub fn was_opened_from(
    alloc: Global,
    terms: &Terms,
    acts: &[Act],
    host: &Host,
    sid: &SessionId,
) -> Result<bool, AllocError>
    ensures { IfOk result (λ opened. opened ≡ was_opened_from terms.now acts.now host.now sid.now) }
{
    let made = made(alloc, terms, acts)?;
    Ok(was_opened_in(&made, host, sid))
}

/// The outcome of one more act after these, which were made in this order, and the change that it makes. The only error
/// is want of memory. It is slow: it looks back over all of them.
pub fn judge(
    alloc: Global,
    terms: &Terms,
    past: &[Done],
    act: &Act,
) -> Result<Judgement, AllocError>
    ensures outcome { IfOk result (λ judgement. judgement.outcome ≡ judged terms.now (reverse past.now) act.now) }
    ensures is_new { IfOk result (λ judgement. judgement.is_new ≡ is_made terms.now (reverse past.now) act.now) }
    ensures place { IfOk result (λ judgement. judgement.place ≡ place_of terms.now (reverse past.now) act.now) }
    ensures entries { IfOk result (λ judgement. judgement.entries.items ≡ entries_with terms.now (reverse past.now) act.now) }
    ensures standing { IfOk result (λ judgement. judgement.standing
        ≡ standing_of terms.now (with_act terms.now (reverse past.now) act.now)) }
{
    let is_new = is_made(terms, past, act);
    let place = place_of(past, is_new, &act.kind);
    let outcome = judged(alloc, terms, past, act)?;
    // By calls, here and below: values that are let go in place are proved part by part.
    if !is_new {
        return match standing(alloc, terms, past) {
            Ok(standing) => Ok(Judgement {
                outcome,
                is_new,
                place,
                entries: Vec::new(alloc),
                standing,
            }),
            Err(error) => {
                drop(outcome);
                Err(error)
            }
        };
    }
    match change(alloc, terms, past, act, &outcome) {
        Ok((entries, standing)) => Ok(Judgement {
            outcome,
            is_new,
            place,
            entries,
            standing,
        }),
        Err(error) => {
            drop(outcome);
            Err(error)
        }
    }
}

/// The entries of an act that is made with this outcome, and the money after it. The only error is want of memory.
fn change(
    alloc: Global,
    terms: &Terms,
    past: &[Done],
    act: &Act,
    outcome: &Outcome,
) -> Result<(Vec<Entry>, Standing), AllocError>
    ensures entries { IfOk result (λ changed. changed.0.items
        ≡ entries_by terms.now (reverse past.now) (record { act = act.now; outcome = outcome.now })) }
    ensures standing { IfOk result (λ changed. changed.1
        ≡ standing_of terms.now (record { act = act.now; outcome = outcome.now } ∷ reverse past.now)) }
{
    let done = copied(act, outcome)?;
    let changed = change_by(alloc, terms, past, &done);
    drop(done);
    changed
}

/// The entries of a made act, and the money after it. The only error is want of memory.
fn change_by(
    alloc: Global,
    terms: &Terms,
    past: &[Done],
    done: &Done,
) -> Result<(Vec<Entry>, Standing), AllocError>
    ensures entries { IfOk result (λ changed. changed.0.items ≡ entries_by terms.now (reverse past.now) done.now) }
    ensures standing { IfOk result (λ changed. changed.1 ≡ standing_of terms.now (done.now ∷ reverse past.now)) }
{
    let standing = standing_with(alloc, terms, past, done)?;
    Ok((entries_by(alloc, terms, past, done)?, standing))
}

/// A copy of an act that is made, and of its outcome. The only error is want of memory.
fn copied(act: &Act, outcome: &Outcome) -> Result<Done, AllocError>
    ensures { IfOk result (λ done. done ≡ record { act = act.now; outcome = outcome.now }) }
{
    let act = act.copy()?;
    match outcome.copy() {
        Ok(outcome) => Ok(Done { act, outcome }),
        Err(error) => {
            drop(act);
            Err(error)
        }
    }
}

/// The acts that are made, in order.
fn made(alloc: Global, terms: &Terms, acts: &[Act]) -> Result<Vec<Done>, AllocError>
    ensures { IfOk result (λ made. reverse made.items ≡ history terms.now (reverse acts.now)) }
{
    let mut past = Vec::new(alloc);
    for act in acts {
        if is_made(terms, &past, act) {
            let outcome = judged(alloc, terms, &past, act)?;
            let act = act.copy()?;
            past.push(Done { act, outcome })?;
        }
    }
    Ok(past)
}

/// The outcome of an act after these.
fn judged(alloc: Global, terms: &Terms, past: &[Done], act: &Act) -> Result<Outcome, AllocError>
    ensures { IfOk result (λ outcome. outcome ≡ judged terms.now (reverse past.now) act.now) }
{
    if has_account(past) {
        return settled(alloc, terms, past, act);
    }
    match unknown(&act.kind)? {
        Some(outcome) => Ok(outcome),
        None => settled(alloc, terms, past, act),
    }
}

/// The outcome of a request without an account. None of a top-up and of an expiry, which need no account. The only
/// error is want of memory.
pub fn unknown(kind: &Kind) -> Result<Option<Outcome>, AllocError>
    ensures { IfOk result (λ outcome. outcome ≡ unknown_of kind.now) }
{
    let (request, key) = match kind {
        Kind::TopUp(_) | Kind::Expiry => return Ok(None),
        Kind::Initial { request, .. } => (RequestType::Initial, &request.key),
        Kind::Update(report) => (RequestType::Update, &report.key),
        Kind::Termination(report) => (RequestType::Termination, &report.key),
        Kind::Event(event) => (RequestType::Event, &event.key),
    };
    Ok(Some(Outcome::Unknown {
        request,
        key: key.copy()?,
    }))
}

/// The outcome of an act that has an account or needs none.
fn settled(alloc: Global, terms: &Terms, past: &[Done], act: &Act) -> Result<Outcome, AllocError>
    ensures { IfOk result (λ outcome. outcome ≡ settled terms.now (reverse past.now) act.now) }
{
    match first(past, &act.kind) {
        Some(done) => done.outcome.copy(),
        None => decide(alloc, terms, past, act.moment, &act.kind),
    }
}

/// Whether an act is made after these.
fn is_made(terms: &Terms, past: &[Done], act: &Act) -> bool
    ensures { result ≡ is_made terms.now (reverse past.now) act.now }
{
    if is_expiry(&act.kind) {
        expired(terms, past, act.moment) > 0
    } else {
        is_counted(past, &act.kind) && first(past, &act.kind).is_none()
    }
}

/// Whether an act counts: a request counts once there is an account, any other act always.
fn is_counted(past: &[Done], kind: &Kind) -> bool
    ensures { result ≡ counts (reverse past.now) kind.now }
{
    has_account(past) || request_key(kind).is_none()
}

/// Whether any of these acts opened the account.
pub fn has_account(past: &[Done]) -> bool
    ensures { result ≡ has_account (reverse past.now) }
{
    past.iter().rev().any(|done| is_top_up(&done.act.kind))
}

/// The latest of these acts that has the key of this kind.
pub fn first<'a>(past: &'a [Done], kind: &Kind) -> Option<&'a Done>
    ensures { option_copied result ≡ first_of (reverse past.now) kind.now }
{
    past.iter()
        .rev()
        .find(|done| is_same_key(kind, &done.act.kind))
}

/// The place of an act after these, from 1, or that of the act that was made with its key.
fn place_of(past: &[Done], is_new: bool, kind: &Kind) -> Option<u64>
    ensures { result ≡ (if is_new then Some (length (reverse past.now) + 1) else place_of_key (map act_made (reverse past.now)) kind.now) }
{
    if is_new {
        Some(past.len() as u64 + 1)
    } else {
        place_of_key(past, kind)
    }
}

/// The place among these, from 1, of the act that has the key of this kind.
pub fn place_of_key(past: &[Done], kind: &Kind) -> Option<u64>
    ensures { result ≡ place_of_key (map act_made (reverse past.now)) kind.now }
{
    let mut found = None;
    for (i, done) in past.iter().enumerate() {
        if is_same_key(kind, &done.act.kind) {
            found = Some(i as u64 + 1);
        }
    }
    found
}

/// The outcome of an act that is made.
fn decide(
    alloc: Global,
    terms: &Terms,
    past: &[Done],
    moment: Moment,
    kind: &Kind,
) -> Result<Outcome, AllocError>
    ensures { IfOk result (λ outcome. outcome ≡ decided terms.now (reverse past.now) moment kind.now) }
{
    match kind {
        Kind::TopUp(top_up) => Ok(decide_top_up(funds(terms, past), top_up)),
        Kind::Initial { request, limit, .. } => {
            let services = services_looked_at(alloc, kind)?;
            begun(alloc, terms, past, &request.key, *limit, &services)
        }
        Kind::Update(report) => {
            let services = services_looked_at(alloc, kind)?;
            reported(
                alloc,
                terms,
                past,
                RequestType::Update,
                &report.key,
                &services,
            )
        }
        Kind::Termination(report) => {
            let services = services_looked_at(alloc, kind)?;
            reported(
                alloc,
                terms,
                past,
                RequestType::Termination,
                &report.key,
                &services,
            )
        }
        Kind::Event(event) => {
            let free = free(alloc, terms, past)?;
            decide_event(alloc, funds(terms, past), free, event)
        }
        Kind::Expiry => Ok(Outcome::Expired {
            sessions: expired(terms, past, moment),
        }),
    }
}
