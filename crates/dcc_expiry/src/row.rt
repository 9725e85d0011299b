//! A session with its deadline, and rows of these in the order of their deadlines.

ghost use Rattle.std.specs.Prelude.{◌≡◌, ◌<◌, ◌≤◌, ℕ, List, Some, None, if◌then◌else◌, drop, position, vec_len, vec_capacity, IfOk};
ghost use Rattle.dcc_expiry.specs.Deadlines.{deadline_in, later_than, same_session};
ghost use Rattle.dcc_expiry.specs.declared.row.Row.{Row};
ghost use Rattle.dcc_expiry.specs.inner.Rows.{AreRows};

use dcc_act::SessionId;
use std::alloc::{AllocError, Global};

/// A session with its deadline.
#[derive(Drop)]
pub struct Row {
    pub(crate) session: SessionId,
    pub(crate) deadline: u64,
}

/// The index of the session of this name. It reads each row up to the session's. If sessions take turns, the session whose turn
/// it is has the earliest deadline and stands in front.
fn place(rows: &[Row], sid: &SessionId) -> Option<usize>
    ensures { result ≡ position (λ (row : Row). same_session row.session sid.now) rows.now }
{
    rows.iter().position(|row| row.session == *sid)
}

/// Takes a session out, if it is in. It takes no memory.
pub(crate) fn take_out(rows: &mut Vec<Row>, sid: &SessionId)
    requires { AreRows rows.old.items }
    ensures rows { AreRows rows.new.items }
    ensures deadlines { (other : List ℕ) → deadline_in rows.new.items other
        ≡ (if same_session sid.now other then None else deadline_in rows.old.items other) }
    ensures len { vec_len rows.new ≤ vec_len rows.old }
    ensures capacity { vec_capacity rows.new ≡ vec_capacity rows.old }
{
    if let Some(at) = place(rows, sid) {
        rows.remove(at);
    }
}

/// Takes out the sessions whose deadline is the moment or before it. It takes no memory, finds their number by halving, and
/// moves the rows behind them.
pub(crate) fn take_due(rows: &mut Vec<Row>, moment: u64)
    requires { AreRows rows.old.items }
    ensures rows { AreRows rows.new.items }
    ensures deadlines { (other : List ℕ) → deadline_in rows.new.items other ≡ later_than moment (deadline_in rows.old.items other) }
{
    let many = rows
        .as_slice()
        .partition_point(|row| row.deadline <= moment);
    take_front(rows, many);
}

/// Takes out so many of the first rows.
fn take_front(rows: &mut Vec<Row>, many: usize)
    requires { many ≤ vec_len rows.old }
    ensures { rows.new.items ≡ drop many rows.old.items }
{
    rows.drain(..many);
}

/// Puts a session that isn't in behind those with its deadline or an earlier one. It takes no memory, finds the place by
/// halving, and moves the rows behind it.
pub(crate) fn put_in(rows: &mut Vec<Row>, row: Row)
    requires rows { AreRows rows.old.items }
    requires absent { deadline_in rows.old.items row.session ≡ None }
    requires room { vec_len rows.old < vec_capacity rows.old }
    ensures rows { AreRows rows.new.items }
    ensures deadlines { (other : List ℕ) → deadline_in rows.new.items other
        ≡ (if same_session row.session other then Some row.deadline else deadline_in rows.old.items other) }
{
    let deadline = row.deadline;
    let at = rows
        .as_slice()
        .partition_point(|other| other.deadline <= deadline);
    rows.insert(at, row).unwrap();
}

/// A copy of each row.
pub(crate) fn copied(alloc: Global, rows: &[Row]) -> Result<Vec<Row>, AllocError>
    ensures { IfOk result (λ copies. copies.items ≡ rows.now) }
{
    let mut copies = Vec::with_capacity(alloc, rows.len())?;
    for row in rows {
        let session = row.session.copy()?;
        copies.push(Row {
            session,
            deadline: row.deadline,
        })?;
    }
    Ok(copies)
}
