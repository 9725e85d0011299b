//! The key of a service.

ghost use Rattle.std.specs.Prelude.{◌≡◌};
ghost use Rattle.dcc_act.specs.ServiceKeys.{same_number, same_service};

/// The key of a service among those of its session: its Rating-Group and its first Service-Identifier, as sent, each or
/// none (RFC 8506, section 8.16).
#[derive(Clone, Copy, Debug)]
pub struct ServiceKey {
    pub group: Option<u32>,
    pub id: Option<u32>,
}

impl ServiceKey {
    /// Whether both keys are of one service.
    pub fn is_same(self, other: ServiceKey) -> bool
        ensures { result ≡ same_service self other }
    {
        is_same_number(self.group, other.group) && is_same_number(self.id, other.id)
    }
}

/// Whether both are the same number, or both are none.
fn is_same_number(a: Option<u32>, b: Option<u32>) -> bool
    ensures { result ≡ same_number a b }
{
    match (a, b) {
        (None, None) => true,
        (Some(a), Some(b)) => a == b,
        _ => false,
    }
}
