//! Subscribers.

ghost use Rattle.std.specs.Prelude.{◌≡◌, ◌≤◌, true, if◌then◌else◌, length, Some, None};
ghost use Rattle.dcc_act.specs.Subs.{is_sub};
ghost use Rattle.dcc_act.specs.inner.Stored.{padded};

use dcc_octets::are_visible;
use std::marker::Model;

/// The owner of an account: the type and the data of a Subscription-Id (RFC 8506, section 8.46).
#[derive(Clone, Copy, Debug)]
pub struct Sub {
    kind: u8,
    len: u8,
    octets: [u8; 64],
}

impl Model for Sub {
    ghost use Rattle.std.specs.Prelude.{◌≡◌, ◌≤◌, true, length, take};
    ghost use Rattle.dcc_act.specs.Subs.{SubView, is_sub};
    ghost use Rattle.dcc_act.specs.inner.Stored.{padded, unpadded, length_kept};

    ghost Value = { SubView };

    ghost view = { λ s. record { kind = s.kind; name = take s.len s.octets } };

    ghost invariant = { λ s. (is_sub s.kind (take s.len s.octets) ≡ true)
        × (s.len ≤ 64) × (length s.octets ≡ 64) × (s.octets ≡ padded (take s.len s.octets)) };

    ghost inverse = { λ v. record { kind = v.kind; len = length v.name; octets = padded v.name } };

    ghost inverse_ok = { λ s h i. record {
      kind = s.kind;
      len = length_kept s.len s.octets h.1 h.2 i;
      octets = unpadded s.len s.octets h.3 i;
    } };
}

impl Sub {
    /// The subscriber of this type (0 to 4, RFC 8506, section 8.47) and this data. None if the type is another, or if
    /// the data isn't 1 to 64 octets of visible ASCII (0x21 to 0x7E).
    pub fn new(kind: u8, name: &[u8]) -> Option<Sub>
        ensures { result ≡ (if is_sub kind name.now then Some (record { kind = kind; name = name.now }) else None) }
    {
        if !is_sub(kind, name) {
            return None;
        }
        Some(Sub {
            kind,
            len: name.len() as u8,
            octets: with_zeros(name),
        })
    }

    /// The type: 0 a telephone number (E.164), 1 an IMSI, 2 a SIP URI, 3 an NAI, 4 private (RFC 8506, section 8.47).
    pub fn kind(&self) -> u8
        ensures value { result ≡ self.now.kind }
        ensures limits { is_sub self.now.kind self.now.name ≡ true }
    {
        self.kind
    }

    /// The data, 1 to 64 octets of visible ASCII.
    pub fn name(&self) -> &[u8]
        ensures value { result.now ≡ self.now.name }
        ensures limits { is_sub self.now.kind self.now.name ≡ true }
    {
        &self.octets[..self.len as usize]
    }
}

/// Whether a subscriber may have this type and this data.
fn is_sub(kind: u8, name: &[u8]) -> bool
    ensures { result ≡ is_sub kind name.now }
{
    kind <= 4 && 1 <= name.len() && name.len() <= 64 && are_visible(name)
}

/// The octets, and zeros behind them up to 64.
fn with_zeros(name: &[u8]) -> [u8; 64]
    requires { length name.now ≤ 64 }
    ensures { result ≡ padded name.now }
{
    let mut octets = [0; 64];
    octets[..name.len()].copy_from_slice(name);
    octets
}
