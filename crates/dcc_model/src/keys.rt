//! The keys of the acts of one subscriber.

ghost use Rattle.std.specs.Prelude.{◌≡◌, option_map};
ghost use Rattle.dcc_model.specs.Keys.{request_key, same_key, is_top_up, is_expiry};

use dcc_act::{Kind, RequestKey};

/// The key of a request. None of a top-up and of an expiry.
pub fn request_key(kind: &Kind) -> Option<&RequestKey>
    ensures { option_map (λ key. key.now) result ≡ request_key kind.now }
{
    match kind {
        Kind::TopUp(_) | Kind::Expiry => None,
        Kind::Initial { request, .. } | Kind::Update(request) | Kind::Termination(request) => {
            Some(&request.key)
        }
        Kind::Event(event) => Some(&event.key),
    }
}

/// Whether two acts have one key: requests their session and number, top-ups their ticket.
pub(crate) fn is_same_key(a: &Kind, b: &Kind) -> bool
    ensures { result ≡ same_key a.now b.now }
{
    match (a, b) {
        (Kind::TopUp(a), Kind::TopUp(b)) => a.ticket == b.ticket,
        _ => match (request_key(a), request_key(b)) {
            (Some(a), Some(b)) => *a == *b,
            _ => false,
        },
    }
}

/// Whether the act is a top-up.
pub(crate) fn is_top_up(kind: &Kind) -> bool
    ensures { result ≡ is_top_up kind.now }
{
    matches!(kind, Kind::TopUp(_))
}

/// Whether the act is an expiry.
pub fn is_expiry(kind: &Kind) -> bool
    ensures { result ≡ is_expiry kind.now }
{
    matches!(kind, Kind::Expiry)
}
