//! The keys that an act adds to the indexes.

ghost use Rattle.std.specs.Prelude.{◌≡◌, IfOk, option_map};
ghost use Rattle.dcc_model.specs.Keys.{ticket};
ghost use Rattle.dcc_model.specs.Sessions.{opens_by};
ghost use Rattle.dcc_account.specs.inner.Indexed.{AreKeysOf};

use dcc_act::{Kind, Outcome, RequestKey, SessionId};
use dcc_model::{has_succeeded, request_key};
use std::alloc::AllocError;

/// The keys that an act adds to the indexes: its own, and the name of the session that it opens.
#[derive(Drop)]
pub(crate) struct NewKeys {
    pub(crate) request: Option<RequestKey>,
    pub(crate) ticket: Option<u64>,
    pub(crate) opened: Option<SessionId>,
}

impl NewKeys {
    /// Copies of the keys of an act with this outcome. The only error is want of memory.
    pub(crate) fn of(kind: &Kind, outcome: &Outcome) -> Result<NewKeys, AllocError>
        ensures { IfOk result (λ keys. AreKeysOf kind.now outcome.now keys) }
    {
        let request = match request_key(kind) {
            Some(key) => Some(key.copy()?),
            None => None,
        };
        let opened = match opened_by(kind, outcome) {
            Some(sid) => Some(sid.copy()?),
            None => None,
        };
        Ok(NewKeys {
            request,
            ticket: ticket(kind),
            opened,
        })
    }
}

/// The ticket of a top-up.
fn ticket(kind: &Kind) -> Option<u64>
    ensures { result ≡ ticket kind.now }
{
    match kind {
        Kind::TopUp(top_up) => Some(top_up.ticket),
        _ => None,
    }
}

/// The session that an act with this outcome opens.
fn opened_by<'a>(kind: &'a Kind, outcome: &Outcome) -> Option<&'a SessionId>
    ensures { option_map (λ sid. sid.now) result ≡ opens_by kind.now outcome.now }
{
    let Kind::Initial { request, .. } = kind else {
        return None;
    };
    if !has_succeeded(outcome) {
        return None;
    }
    Some(&request.key.sid)
}
