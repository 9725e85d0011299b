//! The deadlines of one subscriber's open sessions.

ghost use Rattle.std.specs.Prelude.{◌≡◌, ◌<◌, ◌≤◌, ◌+◌, ℕ, List, Some, None, if◌then◌else◌, IfOk, OnOk, OnErr, IfSome, IfNone, MatchOption};
ghost use Rattle.std.specs.Option.{ForSome};
ghost use Rattle.dcc_expiry.specs.Deadlines.{deadline_of, count_of, later_than, same_session, IsFirstDue};

use crate::row::{Row, copied, put_in, take_due, take_out};
use dcc_act::{Moment, SessionId};
use std::alloc::{AllocError, Global};
use std::marker::Model;

/// The deadlines of one subscriber's open sessions: each session has one at most, in seconds since 1970-01-01T00:00:00Z.
///
/// A deadline may be any number of seconds, so a hold that begins at the last [`Moment`] may end after it.
#[derive(Drop)]
pub struct Due {
    rows: Vec<Row>,
}

impl Model for Due {
    ghost use Rattle.std.specs.Prelude.{◌-◌, vec_len, vec_capacity};
    ghost use Rattle.dcc_expiry.specs.Deadlines.{DueView};
    ghost use Rattle.dcc_expiry.specs.inner.Rows.{AreRows};

    ghost Value = { DueView };

    ghost view = { λ d. record { rows = d.rows.items; room = vec_capacity d.rows - vec_len d.rows } };

    ghost invariant = { λ d. AreRows d.rows.items };
}

impl Due {
    /// No deadlines. It takes no memory.
    #[tactic(auto, unfolding(crate::specs::Deadlines::deadline_of))]
    pub fn new(alloc: Global) -> Due
        ensures { (sid : List ℕ) → deadline_of result sid ≡ None }
    {
        Due {
            rows: Vec::new(alloc),
        }
    }

    /// The deadline of a session, if it has any. It takes no memory, and reads each row up to the session's.
    #[tactic(auto, unfolding(crate::specs::Deadlines::deadline_of))]
    pub fn deadline_of(&self, sid: &SessionId) -> Option<u64>
        ensures { result ≡ deadline_of self.now sid.now }
    {
        for row in &self.rows {
            if row.session == *sid {
                return Some(row.deadline);
            }
        }
        None
    }

    /// Gives a session this deadline, whatever it had before: a later one, an earlier one or none. The only error is want of memory; then
    /// nothing has changed. It reads each row up to the session's, and finds the new place by halving. It takes memory for the session's name
    /// and, if there is no room, for rows.
    #[tactic(auto, unfolding(crate::specs::Deadlines::deadline_of))]
    pub fn set(&mut self, sid: &SessionId, deadline: u64) -> Result<(), AllocError>
        ensures set { OnOk result ((other : List ℕ) → deadline_of self.new other
            ≡ (if same_session sid.now other then Some deadline else deadline_of self.old other)) }
        ensures refused { OnErr result (self.new ≡ self.old) }
    {
        let session = sid.copy()?;
        self.rows.reserve(1)?;
        self.set_reserved(session, deadline);
        Ok(())
    }

    /// The same with a name that is handed in, if there is room for one more. It takes no memory.
    #[tactic(auto, unfolding(crate::specs::Deadlines::deadline_of))]
    pub fn set_reserved(&mut self, sid: SessionId, deadline: u64)
        requires { 1 ≤ self.old.room }
        ensures { (other : List ℕ) → deadline_of self.new other
            ≡ (if same_session sid other then Some deadline else deadline_of self.old other) }
    {
        take_out(&mut self.rows, &sid);
        put_in(
            &mut self.rows,
            Row {
                session: sid,
                deadline,
            },
        );
    }

    /// Takes away a session's deadline, if it has any. It takes no memory, and reads each row up to the session's.
    #[tactic(auto, unfolding(crate::specs::Deadlines::deadline_of))]
    pub fn clear(&mut self, sid: &SessionId)
        ensures { (other : List ℕ) → deadline_of self.new other ≡ (if same_session sid.now other then None else deadline_of self.old other) }
    {
        take_out(&mut self.rows, sid);
    }

    /// Takes away each deadline that is the moment or before it. It takes no memory, finds the number of these by halving,
    /// and moves the others.
    #[tactic(auto, unfolding(crate::specs::Deadlines::deadline_of))]
    pub fn clear_due(&mut self, moment: Moment)
        ensures { (sid : List ℕ) → deadline_of self.new sid ≡ later_than moment (deadline_of self.old sid) }
    {
        take_due(&mut self.rows, moment.seconds());
    }

    /// A session that is due: a session with the least deadline, if that is the moment or before it. It takes no memory, and
    /// reads one row.
    #[tactic(auto, unfolding(crate::specs::Deadlines::deadline_of))]
    pub fn first_due(&self, moment: Moment) -> Option<&SessionId>
        ensures due { IfSome result (λ sid. IsFirstDue self.now moment sid.now) }
        ensures none { IfNone result ((sid : List ℕ) → IfSome (deadline_of self.now sid) (λ deadline. moment < deadline)) }
    {
        let row = self.rows.first()?;
        if row.deadline > moment.seconds() {
            return None;
        }
        Some(&row.session)
    }

    /// Larger rows, without deadlines yet, if these have no room for `more` deadlines, 0 or 1. None if they have room. The
    /// only error is want of memory.
    pub fn larger(&self, more: usize) -> Result<Option<Due>, AllocError>
        requires { more ≤ 1 }
        ensures empty { IfOk result (λ larger. ForSome larger (λ larger. count_of larger ≡ 0)) }
        ensures room { IfOk result (λ larger. MatchOption larger (more ≤ self.now.room)
            (λ larger. count_of self.now + more ≤ larger.room)) }
    {
        let count = self.rows.len();
        if count + more <= self.rows.capacity() {
            return Ok(None);
        }
        let wanted = count.saturating_mul(2).max(count + more);
        Ok(Some(Due {
            rows: Vec::with_capacity(*self.rows.allocator(), wanted)?,
        }))
    }

    /// Moves all deadlines into the larger rows, if there are any. It takes no memory.
    #[tactic(auto, unfolding(crate::specs::Deadlines::deadline_of))]
    pub fn grow(&mut self, larger: Option<Due>)
        requires empty { ForSome larger (λ larger. count_of larger ≡ 0) }
        requires room { MatchOption larger (1 ≤ self.old.room) (λ larger. count_of self.old + 1 ≤ larger.room) }
        ensures deadlines { (sid : List ℕ) → deadline_of self.new sid ≡ deadline_of self.old sid }
        ensures room { 1 ≤ self.new.room }
    {
        if let Some(mut larger) = larger {
            larger.rows.append(&mut self.rows).unwrap();
            *self = larger;
        }
    }

    /// Equal deadlines. The only error is want of memory. It takes memory for the rows at once, and for the name of
    /// each session.
    pub fn copy(&self) -> Result<Due, AllocError>
        ensures { IfOk result (λ copy. copy.rows ≡ self.now.rows) }
    {
        Ok(Due {
            rows: copied(*self.rows.allocator(), &self.rows)?,
        })
    }
}
