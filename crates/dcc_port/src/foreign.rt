//! Requests from pages of browsers.

ghost use Rattle.std.specs.Prelude.{◌≡◌, option_copied};
ghost use Rattle.std.specs.List.{list_all};
ghost use Rattle.dcc_port.specs.Requests.{foreign_flaw, is_at_address, is_foreign, is_of_address};

use crate::call::Flaw;
use http::{HeaderMap, HeaderValue};

/// Whether a request may come from a page of a browser: it has an `Origin`, as a page's request to another server has (RFC 6454, section 7), or its
/// `Host` is no address in numbers. So a page reaches no account under a name of its own that leads to this machine.
#[tactic(auto, unfolding(crate::specs::Requests::is_foreign))]
pub(crate) fn is_foreign(fields: &HeaderMap<HeaderValue>) -> bool
    ensures { result ≡ is_foreign fields.now }
{
    fields.get("origin").is_some() || !is_at_address(fields.get("host"))
}

/// What such a request has: an origin, or else a host by name.
pub(crate) fn foreign_flaw(fields: &HeaderMap<HeaderValue>) -> Flaw
    ensures { result ≡ foreign_flaw fields.now }
{
    if fields.get("origin").is_some() {
        Flaw::Origin
    } else {
        Flaw::Host
    }
}

/// Whether a host is an address in numbers, with its port or without, or missing.
fn is_at_address(host: Option<&HeaderValue>) -> bool
    ensures { result ≡ is_at_address (option_copied host.entry) }
{
    match host {
        Some(value) => is_in_numbers(value.as_bytes()),
        None => true,
    }
}

/// Whether a text has nothing but the octets of an address in numbers and of its port.
fn is_in_numbers(text: &[u8]) -> bool
    ensures { result ≡ list_all is_of_address text.now }
{
    text.iter().all(|octet| is_of_address(*octet))
}

/// Whether an octet is a digit, a dot or a colon.
fn is_of_address(octet: u8) -> bool
    ensures { result ≡ is_of_address octet }
{
    (48 <= octet && octet <= 57) || octet == 46 || octet == 58
}
