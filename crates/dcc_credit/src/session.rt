//! The session of a request, lent for an answer.

ghost use Rattle.std.specs.Prelude.{◌≡◌};

use dcc_act::SessionId;
use dcc_answer::Session;

/// The name of a stored session, lent.
pub fn lend_session(sid: &SessionId) -> Session<'_>
    ensures { result ≡ sid.now }
{
    Session::new(sid.as_slice()).unwrap()
}
