//! The outcome of one more act, and the change that it makes.

ghost use Rattle.std.specs.Prelude.{◌≡◌, ◌≤◌, ◌+◌, ◌<◌, ◌^◌, List, reverse, length, count_by, sum_by, neg_ℤ, ◌≤ℤ◌, if◌then◌else◌, unwrap_or, IfOk};
ghost use Rattle.std.specs.Option.{option_copied};
ghost use Rattle.dcc_act.specs.Services.{ServiceView};
ghost use Rattle.dcc_act.specs.declared.limits.TheConstants.{MAX_SERVICES, MAX_IDS};
ghost use Rattle.dcc_act.specs.declared.act.Act.{Act};
ghost use Rattle.dcc_model.specs.Entries.{entries_with};
ghost use Rattle.dcc_model.specs.Money.{funds_of, overrun_of};
ghost use Rattle.dcc_model.specs.Outcomes.{judged, is_made, place_of, with_act, history};
ghost use Rattle.dcc_model.specs.Sessions.{looked_at};
ghost use Rattle.dcc_state.specs.Backed.{IsBacked};
ghost use Rattle.dcc_state.specs.Known.{changed, funds_after, overrun_with, IsWithin, IsKnown};
ghost use Rattle.dcc_state.specs.Looks.{most_looks, least_looks};
ghost use Rattle.dcc_state.specs.OpenSessions.{own_by, is_over_at, AreApart, AreOpen, KeepsDeadlines};
ghost use Rattle.dcc_state.specs.inner.Judged.{expired_in, decided_in, settled_in, judged_in, is_made_in, place_in, entries_by_in, change_of, entries_after, change_after};

use crate::after::{change_of, entries_by};
use crate::change::Change;
use crate::facts::Facts;
use crate::judgement::Judgement;
use crate::limits::FARTHEST;
use crate::open_session::{OpenSession, is_over};
use crate::requests::{begun, own_of, reported};
use dcc_act::{Act, Kind, Looks, MAX_SERVICES, Moment, Outcome, RequestType, Service, Services};
use dcc_expiry::Due;
use dcc_model::{
    CEILING, acts_come_to_their_own, decide_event, decide_top_up, is_expiry, keys_are_apart,
    request_key, services_looked_at, sessions_open_once, unknown,
};
use dcc_session::Held;
use dcc_tariff::Terms;
use std::alloc::{AllocError, Global};

/// The outcome of one more act after those that were made, and the change that it makes, by the facts of these, the outcome of
/// the act that has its key, and the open sessions with their deadlines in order. It reads the grants of the act's own session
/// alone, each once, and counts them. An expiry reads at most the grants of the sessions that it ends. The only error is want of
/// memory.
pub fn judge(
    alloc: Global,
    terms: &Terms,
    facts: &Facts,
    first: Option<&Outcome>,
    sessions: &[OpenSession],
    due: &Due,
    act: &Act,
    looks: &mut Looks,
) -> Result<Judgement, AllocError>
    requires fresh { looks.old ≡ 0 }
    requires within { IsWithin facts.now.standing sessions.now }
    requires few { facts.now.count + 1 < 2 ^ 64 }
    requires apart { AreApart sessions.now }
    requires due { KeepsDeadlines due.now sessions.now }
    ensures outcome { (xs : List Act) → IsKnown terms.now xs act.now facts.now (option_copied first.entry) sessions.now
        → IfOk result (λ judgement. judgement.outcome ≡ judged terms.now (history terms.now (reverse xs)) act.now) }
    ensures is_new { (xs : List Act) → IsKnown terms.now xs act.now facts.now (option_copied first.entry) sessions.now
        → IfOk result (λ judgement. judgement.is_new ≡ is_made terms.now (history terms.now (reverse xs)) act.now) }
    ensures place { (xs : List Act) → IsKnown terms.now xs act.now facts.now (option_copied first.entry) sessions.now
        → IfOk result (λ judgement. judgement.place ≡ place_of terms.now (history terms.now (reverse xs)) act.now) }
    ensures entries { (xs : List Act) → IsKnown terms.now xs act.now facts.now (option_copied first.entry) sessions.now
        → IfOk result (λ judgement. judgement.entries.items ≡ entries_with terms.now (history terms.now (reverse xs)) act.now) }
    ensures sessions { (xs : List Act) → IsKnown terms.now xs act.now facts.now (option_copied first.entry) sessions.now
        → IfOk result (λ judgement. AreOpen terms.now (with_act terms.now (history terms.now (reverse xs)) act.now) (changed judgement.change sessions.now)) }
    ensures funds { (xs : List Act) → IsKnown terms.now xs act.now facts.now (option_copied first.entry) sessions.now
        → IfOk result (λ judgement. funds_of terms.now (with_act terms.now (history terms.now (reverse xs)) act.now)
        ≡ funds_after judgement.change facts.now.standing.funds sessions.now) }
    ensures overrun { (xs : List Act) → IsKnown terms.now xs act.now facts.now (option_copied first.entry) sessions.now
        → IfOk result (λ judgement. overrun_of terms.now (with_act terms.now (history terms.now (reverse xs)) act.now)
        ≡ overrun_of terms.now (history terms.now (reverse xs)) + overrun_with judgement.change sessions.now) }
    ensures backed { IfOk result (λ judgement. IsBacked facts.now.standing.funds facts.now.standing.free sessions.now judgement.change) }
    ensures looks { (xs : List Act) → IsKnown terms.now xs act.now facts.now (option_copied first.entry) sessions.now
        → looks.new ≤ most_looks terms.now (history terms.now (reverse xs)) act.now.moment act.now.kind }
    ensures counted { (xs : List Act) → IsKnown terms.now xs act.now facts.now (option_copied first.entry) sessions.now
        → least_looks terms.now (history terms.now (reverse xs)) act.now.kind ≤ looks.new }
{
    acts_come_to_their_own();
    sessions_open_once();
    judge_known(alloc, terms, facts, first, sessions, due, act, looks)
}

/// The outcome of one more act, and the change that it makes, by the known facts.
fn judge_known(
    alloc: Global,
    terms: &Terms,
    facts: &Facts,
    first: Option<&Outcome>,
    sessions: &[OpenSession],
    due: &Due,
    act: &Act,
    looks: &mut Looks,
) -> Result<Judgement, AllocError>
    requires fresh { looks.old ≡ 0 }
    requires within { IsWithin facts.now.standing sessions.now }
    requires few { facts.now.count + 1 < 2 ^ 64 }
    requires apart { AreApart sessions.now }
    requires due { KeepsDeadlines due.now sessions.now }
    ensures outcome { IfOk result (λ judgement. judgement.outcome ≡ judged_in facts.now (option_copied first.entry) sessions.now act.now) }
    ensures is_new { IfOk result (λ judgement. judgement.is_new ≡ is_made_in facts.now (option_copied first.entry) sessions.now act.now) }
    ensures place { IfOk result (λ judgement. judgement.place ≡ place_in facts.now judgement.is_new) }
    ensures entries { IfOk result (λ judgement. judgement.entries.items ≡ entries_after facts.now sessions.now act.now judgement.is_new judgement.outcome) }
    ensures change { IfOk result (λ judgement. judgement.change ≡ change_after terms.now sessions.now act.now judgement.is_new judgement.outcome) }
    ensures backed { IfOk result (λ judgement. IsBacked facts.now.standing.funds facts.now.standing.free sessions.now judgement.change) }
    ensures looks { looks.new ≡ length (own_by sessions.now act.now.kind) }
{
    keys_are_apart(act);
    let own = own_of(sessions, &act.kind, looks);
    let services = services_of(alloc, &act.kind)?;
    let looked = services.as_slice();
    let outcome = outcome(alloc, facts, first, sessions, due, own, act, looked)?;
    if !is_made(facts, first, sessions, due, act) {
        return Ok(Judgement {
            outcome,
            is_new: false,
            place: facts.place,
            entries: Vec::new(alloc),
            change: Change::Nothing,
        });
    }
    let place = facts.count + 1;
    let (moment, kind) = (act.moment, &act.kind);
    Ok(Judgement {
        is_new: true,
        place: Some(place),
        entries: entries_by(alloc, own, place, moment, kind, looked, &outcome)?,
        change: change_of(alloc, terms, own, moment, kind, services, &outcome)?,
        outcome,
    })
}

/// The services of an act, as the act counts them. The only error is want of memory.
fn services_of(alloc: Global, kind: &Kind) -> Result<Services, AllocError>
    ensures value { IfOk result (λ services. services ≡ looked_at kind.now) }
    ensures few { IfOk result (λ services. length services ≤ MAX_SERVICES) }
    ensures few_ids { IfOk result (λ services. sum_by (λ (service : ServiceView). length service.ids) services ≤ MAX_IDS) }
{
    Ok(Services::from_vec(services_looked_at(alloc, kind)?).unwrap())
}

/// The outcome of an act.
fn outcome(
    alloc: Global,
    facts: &Facts,
    first: Option<&Outcome>,
    sessions: &[OpenSession],
    due: &Due,
    own: &[Held],
    act: &Act,
    services: &[Service],
) -> Result<Outcome, AllocError>
    requires few { length services.now ≤ MAX_SERVICES }
    requires few_ids { sum_by (λ (service : ServiceView). length service.ids) services.now ≤ MAX_IDS }
    requires looked { services.now ≡ looked_at act.now.kind }
    requires own { own.now ≡ own_by sessions.now act.now.kind }
    requires funds_low { neg_ℤ CEILING ≤ℤ facts.now.standing.funds }
    requires free_low { neg_ℤ FARTHEST ≤ℤ facts.now.standing.free }
    requires free_high { facts.now.standing.free ≤ℤ CEILING }
    requires apart { AreApart sessions.now }
    requires due { KeepsDeadlines due.now sessions.now }
    ensures { IfOk result (λ outcome. outcome ≡ judged_in facts.now (option_copied first.entry) sessions.now act.now) }
{
    if facts.has_account {
        return settled(alloc, facts, first, sessions, due, own, act, services);
    }
    match unknown(&act.kind)? {
        Some(outcome) => Ok(outcome),
        None => settled(alloc, facts, first, sessions, due, own, act, services),
    }
}

/// The outcome of an act that has an account or needs none: a repeat has that of the first act.
fn settled(
    alloc: Global,
    facts: &Facts,
    first: Option<&Outcome>,
    sessions: &[OpenSession],
    due: &Due,
    own: &[Held],
    act: &Act,
    services: &[Service],
) -> Result<Outcome, AllocError>
    requires few { length services.now ≤ MAX_SERVICES }
    requires few_ids { sum_by (λ (service : ServiceView). length service.ids) services.now ≤ MAX_IDS }
    requires looked { services.now ≡ looked_at act.now.kind }
    requires own { own.now ≡ own_by sessions.now act.now.kind }
    requires funds_low { neg_ℤ CEILING ≤ℤ facts.now.standing.funds }
    requires free_low { neg_ℤ FARTHEST ≤ℤ facts.now.standing.free }
    requires free_high { facts.now.standing.free ≤ℤ CEILING }
    requires apart { AreApart sessions.now }
    requires due { KeepsDeadlines due.now sessions.now }
    ensures { IfOk result (λ outcome. outcome ≡ settled_in facts.now (option_copied first.entry) sessions.now act.now) }
{
    match first {
        Some(outcome) => outcome.copy(),
        None => decide(
            alloc, facts, sessions, due, own, act.moment, &act.kind, services,
        ),
    }
}

/// The outcome of an act that is made.
fn decide(
    alloc: Global,
    facts: &Facts,
    sessions: &[OpenSession],
    due: &Due,
    own: &[Held],
    moment: Moment,
    kind: &Kind,
    services: &[Service],
) -> Result<Outcome, AllocError>
    requires few { length services.now ≤ MAX_SERVICES }
    requires few_ids { sum_by (λ (service : ServiceView). length service.ids) services.now ≤ MAX_IDS }
    requires looked { services.now ≡ looked_at kind.now }
    requires own { own.now ≡ own_by sessions.now kind.now }
    requires funds_low { neg_ℤ CEILING ≤ℤ facts.now.standing.funds }
    requires free_low { neg_ℤ FARTHEST ≤ℤ facts.now.standing.free }
    requires free_high { facts.now.standing.free ≤ℤ CEILING }
    requires apart { AreApart sessions.now }
    requires due { KeepsDeadlines due.now sessions.now }
    ensures { IfOk result (λ outcome. outcome ≡ decided_in facts.now sessions.now moment kind.now) }
{
    let money = &facts.standing;
    let (request, report) = match kind {
        Kind::TopUp(top_up) => return Ok(decide_top_up(money.funds, top_up)),
        Kind::Event(event) => return decide_event(alloc, money.funds, money.free, event),
        Kind::Expiry => {
            return Ok(Outcome::Expired {
                sessions: expired(sessions, due, moment),
            });
        }
        Kind::Initial { request, limit, .. } => {
            return begun(alloc, facts, sessions, own, &request.key, *limit, services);
        }
        Kind::Update(report) => (RequestType::Update, report),
        Kind::Termination(report) => (RequestType::Termination, report),
    };
    reported(alloc, facts, sessions, own, request, &report.key, services)
}

/// The number of these sessions that an expiry at this moment ends. If none is due, it reads one deadline and no session.
fn expired(sessions: &[OpenSession], due: &Due, moment: Moment) -> u64
    requires apart { AreApart sessions.now }
    requires due { KeepsDeadlines due.now sessions.now }
    ensures { result ≡ expired_in sessions.now moment }
{
    match due.first_due(moment) {
        Some(_) => count_over(sessions, moment),
        None => 0,
    }
}

/// The number of these sessions that are due at this moment.
fn count_over(sessions: &[OpenSession], moment: Moment) -> u64
    ensures { result ≡ expired_in sessions.now moment }
{
    let mut count = 0;
    for session in sessions {
        if is_over(session, moment) {
            count += 1;
        }
    }
    count
}

/// Whether an act is made.
fn is_made(
    facts: &Facts,
    first: Option<&Outcome>,
    sessions: &[OpenSession],
    due: &Due,
    act: &Act,
) -> bool
    requires apart { AreApart sessions.now }
    requires due { KeepsDeadlines due.now sessions.now }
    ensures { result ≡ is_made_in facts.now (option_copied first.entry) sessions.now act.now }
{
    if is_expiry(&act.kind) {
        expired(sessions, due, act.moment) > 0
    } else {
        (facts.has_account || request_key(&act.kind).is_none()) && first.is_none()
    }
}
