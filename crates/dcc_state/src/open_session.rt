//! Sessions that are open.

ghost use Rattle.std.specs.Prelude.{◌≡◌, ◌≤◌, ◌+◌, [], length, filter, not, position, sum_by, take, vec_len, vec_capacity, option_map};
ghost use Rattle.std.specs.Option.{ForSome, option_map_or};
ghost use Rattle.dcc_session.specs.Grants.{prices};
ghost use Rattle.dcc_session.specs.Sessions.{OpenView};
ghost use Rattle.dcc_state.specs.Known.{prices_of};
ghost use Rattle.dcc_state.specs.OpenSessions.{is_session, own_in, AreApart, is_over_at};
ghost use Rattle.dcc_state.specs.declared.limits.TheConstants.{POOL};

use dcc_act::{Looks, Moment, SessionId};
use dcc_session::{Held, ParkedSession};
use std::marker::Model;

/// An open session with its holds, put away under its name between requests.
#[derive(Drop)]
pub struct OpenSession {
    pub(crate) sid: SessionId,
    pub(crate) session: ParkedSession,
}

impl Model for OpenSession {
    ghost use Rattle.std.specs.Prelude.{◌≡◌};
    ghost use Rattle.dcc_state.specs.OpenSessions.{SessionView};
    ghost use Rattle.dcc_state.specs.declared.limits.TheConstants.{POOL};

    ghost Value = { SessionView };

    ghost view = { λ s. record { sid = s.sid; deadline = s.session.deadline; grants = s.session.grants } };

    ghost invariant = { λ s. s.session.pool ≡ POOL };
}

impl OpenSession {
    /// Its name.
    pub fn sid(&self) -> &SessionId
        ensures { result.now ≡ self.now.sid }
    {
        &self.sid
    }

    /// The moment until which it is held, in seconds.
    pub fn deadline(&self) -> u64
        ensures { result ≡ self.now.deadline }
    {
        self.session.deadline()
    }

    /// Its live grants. Each is one look.
    pub fn grants(&self, looks: &mut Looks) -> &[Held]
        requires { looks.old ≡ 0 }
        ensures value { result.now ≡ self.now.grants }
        ensures looks { looks.new ≡ length self.now.grants }
    {
        let _few = self.session.count();
        self.session.grants(looks)
    }
}

/// Whether a session is due at this moment.
pub(crate) fn is_over(session: &OpenSession, moment: Moment) -> bool
    ensures { result ≡ is_over_at moment session.now }
{
    session.session.deadline() <= moment.seconds()
}

/// The index of the session of this name.
fn place(sessions: &[OpenSession], sid: &SessionId) -> Option<usize>
    ensures { result ≡ position (is_session sid.now) sessions.now }
{
    sessions.iter().position(|session| session.sid == *sid)
}

/// Moves the sessions that aren't due at this moment to the front, in their order, and returns their number. The others
/// stand behind them, in any order. It takes no memory, and reads each session once.
pub(crate) fn gather_open(sessions: &mut [OpenSession], moment: Moment) -> usize
    ensures kept { take result sessions.new ≡ filter (λ other. not (is_over_at moment other)) sessions.old }
    ensures within { result ≤ length sessions.new }
    ensures held { sum_by prices_of sessions.new ≡ sum_by prices_of sessions.old }
{
    let mut kept = 0;
    for at in 0..sessions.len() {
        if !is_over(&sessions[at], moment) {
            sessions.swap(kept, at);
            kept += 1;
        }
    }
    kept
}

/// Takes the session of this name out, if it is in. It takes no memory.
pub(crate) fn take_out(sessions: &mut Vec<OpenSession>, sid: &SessionId) -> Option<ParkedSession>
    requires { AreApart sessions.old.items }
    ensures grants { option_map_or (λ (session : OpenView). session.grants) result [] ≡ own_in sessions.old.items sid.now }
    ensures pool { ForSome result (λ (session : OpenView). session.pool ≡ POOL) }
    ensures items { sessions.new.items ≡ filter (λ other. not (is_session sid.now other)) sessions.old.items }
    ensures len { vec_len sessions.new ≤ vec_len sessions.old }
    ensures capacity { vec_capacity sessions.new ≡ vec_capacity sessions.old }
{
    let at = place(sessions, sid)?;
    Some(sessions.remove(at).session)
}
