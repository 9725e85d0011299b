//! Names of sessions.

ghost use Rattle.std.specs.Prelude.{◌≡◌, ◌↔◌, true, IsSome, IfSome, IfOk, nat_eq, ◌∷◌, []};
ghost use Rattle.std.specs.Arc.{arc_value};
ghost use Rattle.std.specs.Cmp.{on_equiv, on_per, partial_equiv_from_equiv};
ghost use Rattle.std.specs.Cmp.Lexicographic.{pointwise, nat_list_eq_equiv};
ghost use Rattle.std.specs.Cmp.Rules.{hashing};
ghost use Rattle.std.proofs.Common.{rules};
ghost use Rattle.dcc_octets.specs.Names.{is_short};

use dcc_octets::is_short;
use std::alloc::{AllocError, Global};
use std::hash::{Hash, Hasher};
use std::marker::Model;
use std::sync::Arc;

/// The name of a session: 1 to 255 octets of any value (Session-Id, RFC 6733, section 8.8). All copies share the octets, since an act, its outcome,
/// its entries and its indexes each have the name.
#[derive(Debug, Drop)]
pub struct SessionId {
    octets: Arc<Vec<u8>, Global>,
}

impl Model for SessionId {
    ghost use Rattle.std.specs.Prelude.{◌≡◌, true, List, ℕ};
    ghost use Rattle.std.specs.Arc.{arc_value};
    ghost use Rattle.dcc_octets.specs.Names.{is_short};

    ghost Value = { List ℕ };

    ghost view = { λ s. (arc_value s.octets).items };

    ghost invariant = { λ s. is_short (arc_value s.octets).items ≡ true };
}

impl SessionId {
    /// The name of these octets. None if they aren't 1 to 255. The only error is want of memory.
    pub fn from_slice(alloc: Global, octets: &[u8]) -> Result<Option<SessionId>, AllocError>
        ensures limit { IfOk result (λ sid. IsSome sid ↔ (is_short octets.now ≡ true)) }
        ensures value { IfOk result (λ sid. IfSome sid (λ sid. sid ≡ octets.now)) }
    {
        if !is_short(octets) {
            return Ok(None);
        }
        let octets = Arc::new(alloc, Vec::from_slice(alloc, octets)?)?;
        Ok(Some(SessionId { octets }))
    }

    /// The octets.
    pub fn as_slice(&self) -> &[u8]
        ensures value { result.now ≡ self.now }
        ensures limit { is_short self.now ≡ true }
    {
        &self.octets
    }

    /// An equal name, with the same octets in memory. The only error is that there are 2^63 copies.
    pub fn copy(&self) -> Result<SessionId, AllocError>
        ensures { IfOk result (λ copy. copy ≡ self.now) }
    {
        Ok(SessionId {
            octets: Arc::try_clone(&self.octets)?,
        })
    }
}

impl PartialEq for SessionId {
    ghost eq = { λ s t. pointwise nat_eq s t };

    ghost laws = { on_per (λ s. s) (partial_equiv_from_equiv nat_list_eq_equiv) };

    fn eq(&self, other: &SessionId) -> bool {
        self.as_slice() == other.as_slice()
    }
}

impl Eq for SessionId {
    ghost laws = { on_equiv (λ s. s) nat_list_eq_equiv };
}

impl Hash for SessionId {
    // All octets are written at once, since a hasher then takes them as whole words. If the slice itself were hashed, it
    // would take them one by one.
    ghost hash_input = { λ s. s ∷ [] };

    ghost respects_eq = { Prim.search (hashing, rules) };

    fn hash<H: Hasher>(&self, state: &mut H) {
        state.write(self.as_slice());
    }
}
