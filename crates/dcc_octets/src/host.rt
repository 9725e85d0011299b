//! The name of a peer's host.

ghost use Rattle.std.specs.Prelude.{◌≡◌, true, if◌then◌else◌, Some, None, IfOk, nat_eq, ◌∷◌, []};
ghost use Rattle.std.specs.Cmp.{on_equiv, on_per, partial_equiv_from_equiv};
ghost use Rattle.std.specs.Cmp.Lexicographic.{pointwise, nat_list_eq_equiv};
ghost use Rattle.std.specs.Cmp.Rules.{hashing};
ghost use Rattle.std.proofs.Common.{rules};
ghost use Rattle.dcc_octets.specs.Names.{is_short};

use crate::names::is_short;
use crate::octet_string::OctetString;
use std::alloc::{AllocError, Global};
use std::hash::{Hash, Hasher};
use std::marker::Model;

/// The name of a peer's host, as its Origin-Host has it (RFC 6733, section 6.3): 1 to 255 octets, of any value.
#[derive(Debug, Drop)]
pub struct Host {
    octets: OctetString,
}

impl Model for Host {
    ghost use Rattle.std.specs.Prelude.{◌≡◌, List, ℕ, true};
    ghost use Rattle.dcc_octets.specs.Names.{is_short};

    ghost Value = { List ℕ };

    ghost view = { λ h. h.octets };

    ghost invariant = { λ h. is_short h.octets ≡ true };
}

impl Host {
    /// The host of this name. None if the name hasn't 1 to 255 octets. It takes no memory.
    pub fn from_octets(octets: OctetString) -> Option<Host>
        ensures { result ≡ (if is_short octets then Some octets else None) }
    {
        if !is_short(octets.as_slice()) {
            return None;
        }
        Some(Host { octets })
    }

    /// The host of a name that has 1 to 255 octets. The only error is want of memory.
    pub fn of(alloc: Global, name: &[u8]) -> Result<Host, AllocError>
        requires { is_short name.now ≡ true }
        ensures { IfOk result (λ host. host ≡ name.now) }
    {
        Ok(Host {
            octets: OctetString::from_vec(Vec::from_slice(alloc, name)?),
        })
    }

    /// The octets of the name.
    pub fn as_slice(&self) -> &[u8]
        ensures value { result.now ≡ self.now }
        ensures limits { is_short self.now ≡ true }
    {
        self.octets.as_slice()
    }

    /// An equal name. The only error is want of memory.
    pub fn copy(&self) -> Result<Host, AllocError>
        ensures { IfOk result (λ copy. copy ≡ self.now) }
    {
        Ok(Host {
            octets: self.octets.copy()?,
        })
    }
}

impl PartialEq for Host {
    ghost eq = { λ s t. pointwise nat_eq s t };

    ghost laws = { on_per (λ s. s) (partial_equiv_from_equiv nat_list_eq_equiv) };

    fn eq(&self, other: &Host) -> bool {
        self.as_slice() == other.as_slice()
    }
}

impl Eq for Host {
    ghost laws = { on_equiv (λ s. s) nat_list_eq_equiv };
}

impl Hash for Host {
    // All octets are written at once, since a hasher then takes them as whole words. If the slice itself were hashed, it
    // would take them one by one.
    ghost hash_input = { λ s. s ∷ [] };

    ghost respects_eq = { Prim.search (hashing, rules) };

    fn hash<H: Hasher>(&self, state: &mut H) {
        state.write(self.as_slice());
    }
}
