//! Making a change: of the money in the pool, and of the sessions with their holds.

ghost use Rattle.std.specs.Prelude.{◌≡◌, ℕ, List, Some, None, if◌then◌else◌, ◌≤◌, ◌<◌, ◌+◌, ◌*◌, ◌∷◌, [], ◌++◌, filter, not, pos, ◌+ℤ◌, ◌-ℤ◌, sum_by, vec_len, vec_capacity};
ghost use Rattle.dcc_escrow.specs.Pools.{free};
ghost use Rattle.dcc_escrow.specs.declared.limits.TheConstants.{MOST_MONEY};
ghost use Rattle.dcc_expiry.specs.Deadlines.{deadline_of, later_than, same_session};
ghost use Rattle.dcc_session.specs.Grants.{prices, charges_in, overruns_in};
ghost use Rattle.dcc_state.specs.Backed.{IsBorne, IsPosted, GoesOn, IsBacked};
ghost use Rattle.dcc_state.specs.Known.{after_turn, changed, funds_after, overrun_with, prices_of, HoldsAll};
ghost use Rattle.dcc_state.specs.OpenSessions.{is_session, is_over_at, own_in, AreApart, KeepsDeadlines};
ghost use Rattle.dcc_state.specs.declared.limits.TheConstants.{POOL};

use crate::change::{Change, Turn};
use crate::open_session::{OpenSession, gather_open, take_out};
use dcc_act::{Moment, Services, SessionId};
use dcc_escrow::Pool;
use dcc_expiry::Due;
use dcc_session::{Idle, Open};

impl Change {
    /// Makes the change, and returns its overrun, in minor units: at most 2 * 10^18, since the floor bears its charges. It
    /// takes no memory. Sessions, deadlines and pool have to agree with one another, with room for one more session and one
    /// more deadline, and the money has to back the change.
    pub fn apply(self, sessions: &mut Vec<OpenSession>, due: &mut Due, pool: &mut Pool) -> u64
        requires room { vec_len sessions.old < vec_capacity sessions.old }
        requires room_due { 1 ≤ due.old.room }
        requires apart { AreApart sessions.old.items }
        requires due { KeepsDeadlines due.old sessions.old.items }
        requires holds { HoldsAll pool.old sessions.old.items }
        requires backed { IsBacked pool.old.committed (free pool.old) sessions.old.items self }
        ensures sessions { sessions.new.items ≡ changed self sessions.old.items }
        ensures due { KeepsDeadlines due.new sessions.new.items }
        ensures holds { HoldsAll pool.new sessions.new.items }
        ensures funds { pool.new.committed ≡ funds_after self pool.old.committed sessions.old.items }
        ensures overrun { result ≡ overrun_with self sessions.old.items }
        ensures bound { result ≤ 2 * MOST_MONEY }
    {
        match self {
            Change::Nothing => 0,
            Change::Post { credit, debit } => {
                post(pool, credit, debit);
                0
            }
            Change::Open(turn) => go_on(sessions, due, pool, turn),
            Change::End { sid, services } => end(sessions, due, pool, &sid, &services),
            Change::Expire(moment) => {
                end_over(sessions, due, pool, moment);
                0
            }
        }
    }
}

/// Takes and adds money at once, in minor units.
fn post(pool: &mut Pool, credit: u64, debit: u64)
    requires { IsPosted pool.old.committed (free pool.old) credit debit }
    ensures { pool.new ≡ record pool.old { committed = (pool.old.committed -ℤ pos debit) +ℤ pos credit } }
{
    pool.debit(debit).unwrap();
    pool.credit(credit).unwrap();
}

/// Resumes the session of this name, or begins it if it isn't open.
fn resume(sessions: &mut Vec<OpenSession>, pool: &Pool, sid: &SessionId) -> Open
    requires apart { AreApart sessions.old.items }
    requires id { pool.now.id ≡ POOL }
    ensures pool { result.pool ≡ POOL }
    ensures grants { result.grants ≡ own_in sessions.old.items sid.now }
    ensures items { sessions.new.items ≡ filter (λ other. not (is_session sid.now other)) sessions.old.items }
    ensures held { sum_by prices_of sessions.new.items + prices result.grants ≡ sum_by prices_of sessions.old.items }
    ensures len { vec_len sessions.new ≤ vec_len sessions.old }
    ensures capacity { vec_capacity sessions.new ≡ vec_capacity sessions.old }
{
    let alloc = *sessions.allocator();
    match take_out(sessions, sid) {
        Some(parked) => parked.resume(),
        None => Idle::new(alloc, pool).open(0),
    }
}

/// A session has its turn: the reports of its services are charged, their grants are held, and the session is held until
/// its deadline, which is kept. It returns the overrun, in minor units.
fn go_on(sessions: &mut Vec<OpenSession>, due: &mut Due, pool: &mut Pool, turn: Turn) -> u64
    requires room { vec_len sessions.old < vec_capacity sessions.old }
    requires room_due { 1 ≤ due.old.room }
    requires apart { AreApart sessions.old.items }
    requires holds { HoldsAll pool.old sessions.old.items }
    requires goes_on { GoesOn pool.old.committed (free pool.old) (own_in sessions.old.items turn.sid) turn }
    ensures sessions { sessions.new.items ≡ filter (λ other. not (is_session turn.sid other)) sessions.old.items ++ after_turn turn sessions.old.items ∷ [] }
    ensures due { (other : List ℕ) → deadline_of due.new other
        ≡ (if same_session turn.sid other then Some turn.deadline else deadline_of due.old other) }
    ensures holds { HoldsAll pool.new sessions.new.items }
    ensures funds { pool.new.committed ≡ pool.old.committed -ℤ pos (charges_in (own_in sessions.old.items turn.sid) turn.services) }
    ensures overrun { result ≡ overruns_in (own_in sessions.old.items turn.sid) turn.services }
    ensures bound { result ≤ 2 * MOST_MONEY }
{
    let Turn {
        sid,
        name,
        deadline,
        services,
        granted,
    } = turn;
    due.set_reserved(name, deadline);
    let mut open = resume(sessions, pool, &sid);
    let charges = open.report_all(pool, &services);
    open.grant_all(pool, granted);
    open.touch(deadline);
    sessions.push_reserved(OpenSession {
        sid,
        session: open.park(),
    });
    charges.overrun
}

/// A session ends: the reports of its services are charged, all its holds are given back, and its deadline is taken away.
/// It returns the overrun, in minor units.
fn end(
    sessions: &mut Vec<OpenSession>,
    due: &mut Due,
    pool: &mut Pool,
    sid: &SessionId,
    services: &Services,
) -> u64
    requires apart { AreApart sessions.old.items }
    requires holds { HoldsAll pool.old sessions.old.items }
    requires borne { IsBorne pool.old.committed (own_in sessions.old.items sid.now) services.now }
    ensures sessions { sessions.new.items ≡ filter (λ other. not (is_session sid.now other)) sessions.old.items }
    ensures due { (other : List ℕ) → deadline_of due.new other
        ≡ (if same_session sid.now other then None else deadline_of due.old other) }
    ensures holds { HoldsAll pool.new sessions.new.items }
    ensures funds { pool.new.committed ≡ pool.old.committed -ℤ pos (charges_in (own_in sessions.old.items sid.now) services.now) }
    ensures overrun { result ≡ overruns_in (own_in sessions.old.items sid.now) services.now }
    ensures bound { result ≤ 2 * MOST_MONEY }
{
    due.clear(sid);
    let mut open = resume(sessions, pool, sid);
    let charges = open.report_all(pool, services);
    open.end(pool);
    charges.overrun
}

/// The sessions that are due at this moment end: all their holds are given back, and their deadlines are taken away.
fn end_over(sessions: &mut Vec<OpenSession>, due: &mut Due, pool: &mut Pool, moment: Moment)
    requires { HoldsAll pool.old sessions.old.items }
    ensures sessions { sessions.new.items ≡ filter (λ other. not (is_over_at moment other)) sessions.old.items }
    ensures due { (sid : List ℕ) → deadline_of due.new sid ≡ later_than moment (deadline_of due.old sid) }
    ensures holds { HoldsAll pool.new sessions.new.items }
    ensures funds { pool.new.committed ≡ pool.old.committed }
{
    due.clear_due(moment);
    let kept = gather_open(sessions, moment);
    while sessions.len() > kept {
        let over = sessions.pop().unwrap();
        over.session.resume().end(pool);
    }
}
