//! A credit-control request.

ghost use Rattle.std.specs.Prelude.{◌≡◌, ◌≤◌, true, length};
ghost use Rattle.dcc_octets.specs.Names.{is_short};
ghost use Rattle.dcc_act.specs.declared.limits.TheConstants.{MAX_IDS};
ghost use Rattle.dcc_ccr.specs.Types.{is_event};
ghost use Rattle.dcc_ccr.specs.Requests.{RequestView, are_services, stand_right, count_ids};

use crate::request_type::RequestType;
use crate::service::Service;
use dcc_act::Sub;
use std::marker::Model;

/// A credit-control request (RFC 8506, section 3.1). It borrows its Session-Id from its message. Contracts see it as a
/// `RequestView`.
#[derive(Debug, Drop)]
pub struct Request<'a> {
    pub(crate) sub: Option<Sub>,
    pub(crate) session: &'a [u8],
    pub(crate) number: u32,
    pub(crate) kind: RequestType,
    pub(crate) services: Vec<Service>,
}

impl<'a> Model for Request<'a> {
    ghost use Rattle.std.specs.Prelude.{◌≡◌, ◌≤◌, true, length};
    ghost use Rattle.dcc_octets.specs.Names.{is_short};
    ghost use Rattle.dcc_act.specs.declared.limits.TheConstants.{MAX_IDS};
    ghost use Rattle.dcc_ccr.specs.Types.{is_event};
    ghost use Rattle.dcc_ccr.specs.Requests.{RequestView, are_services, stand_right, count_ids};

    ghost Value = { RequestView };

    ghost view = { λ r. record {
      sub = r.sub;
      session = r.session.now;
      number = r.number;
      type = r.kind;
      services = r.services.items;
    } };

    ghost invariant = { λ r. (is_short r.session.now ≡ true) × (are_services r.services.items ≡ true) × (count_ids r.services.items ≤ MAX_IDS)
        × (stand_right r.services.items ≡ true) × (is_event r.kind ≡ true → length r.services.items ≡ 1) };
}

/// The subscriber whose account the request is for: the type and the data of its first Subscription-Id of type E164, or
/// else of its first (RFC 8506, section 8.46). An update or a termination may have none, and then names nobody.
pub fn subscriber(request: &Request<'_>) -> Option<Sub>
    ensures { result ≡ request.now.sub }
{
    request.sub
}

impl<'a> Request<'a> {
    /// The Session-Id, 1 to 255 octets of any value (RFC 6733, section 8.8).
    pub fn session(&self) -> &'a [u8]
        ensures value { result.now ≡ self.now.session }
        ensures limit { is_short self.now.session ≡ true }
    {
        self.session
    }

    /// The CC-Request-Number (RFC 8506, section 8.2).
    pub fn number(&self) -> u32
        ensures { result ≡ self.now.number }
    {
        self.number
    }

    /// The CC-Request-Type, and of an event also the Requested-Action.
    pub fn request_type(&self) -> RequestType
        ensures { result ≡ self.now.type }
    {
        self.kind
    }

    /// The services, in their order: at most 32, each with a key of its own (`same_key`), and with at most 5,460
    /// Service-Identifiers together. A service in single form is the only service, and an event has exactly one
    /// service.
    pub fn services(&self) -> &[Service]
        ensures value { result.now ≡ self.now.services }
        ensures limits { are_services self.now.services ≡ true }
        ensures few_ids { count_ids self.now.services ≤ MAX_IDS }
        ensures alone { stand_right self.now.services ≡ true }
        ensures event { is_event self.now.type ≡ true → length self.now.services ≡ 1 }
    {
        &self.services
    }

    /// The services, moved out.
    pub fn into_services(self) -> Vec<Service>
        ensures value { result.items ≡ self.entry.services }
        ensures limits { are_services self.entry.services ≡ true }
        ensures few_ids { count_ids self.entry.services ≤ MAX_IDS }
        ensures alone { stand_right self.entry.services ≡ true }
        ensures event { is_event self.entry.type ≡ true → length self.entry.services ≡ 1 }
    {
        self.services
    }
}
