//! Deadlines as only tests set and copy them: the program sets them in room that it brought, and copies none.

use crate::acts::name;
use dcc_act::SessionId;
use dcc_expiry::Due;
use std::test::Fail;

/// The deadline that a session is given, as a copy of all has it.
fn set(due: &mut Due, sid: &SessionId, deadline: u64) -> Result<Option<u64>, Fail> {
    due.set(sid, deadline)?;
    Ok(due.copy()?.deadline_of(sid))
}

#[test]
fn deadlines(rt: HostRuntime) -> Result<(), Fail> {
    let sid = name(rt.alloc(), b's')?;
    let mut due = Due::new(rt.alloc());
    assert_eq!(rt; set(&mut due, &sid, 30)?, Some(30));
    Ok(())
}
