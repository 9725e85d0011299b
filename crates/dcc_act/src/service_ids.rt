//! Identifiers of services.

ghost use Rattle.std.specs.Prelude.{◌≡◌, ◌≤◌, ◌↔◌, [], length, IsSome, IfSome, IfOk, nat_eq};
ghost use Rattle.std.specs.Cmp.{on_equiv, on_per, partial_equiv_from_equiv};
ghost use Rattle.std.specs.Cmp.Lexicographic.{pointwise, nat_list_eq_equiv};

use crate::limits::MAX_IDS;
use std::alloc::{AllocError, Global};
use std::marker::Model;

/// The Service-Identifiers of a service (RFC 8506, section 8.28), in the order in which they were sent: at most 5,460.
#[derive(Debug, Drop)]
pub struct ServiceIds {
    items: Vec<u32>,
}

impl Model for ServiceIds {
    ghost use Rattle.std.specs.Prelude.{List, ℕ, ◌≤◌, length};
    ghost use Rattle.dcc_act.specs.declared.limits.TheConstants.{MAX_IDS};

    ghost Value = { List ℕ };

    ghost view = { λ s. s.items.items };

    ghost invariant = { λ s. length s.items.items ≤ MAX_IDS };
}

impl ServiceIds {
    /// No identifiers. It takes no memory.
    pub fn new(alloc: Global) -> ServiceIds
        ensures { result ≡ [] }
    {
        ServiceIds {
            items: Vec::new(alloc),
        }
    }

    /// These identifiers. None if they are more than 5,460.
    pub fn from_vec(items: Vec<u32>) -> Option<ServiceIds>
        ensures limit { IsSome result ↔ (length items.items ≤ MAX_IDS) }
        ensures value { IfSome result (λ ids. ids ≡ items.items) }
    {
        if items.len() > MAX_IDS {
            return None;
        }
        Some(ServiceIds { items })
    }

    /// The identifiers, moved out.
    pub fn into_vec(self) -> Vec<u32>
        ensures value { result.items ≡ self }
        ensures limit { length self ≤ MAX_IDS }
    {
        self.items
    }

    /// The identifiers.
    pub fn as_slice(&self) -> &[u32]
        ensures value { result.now ≡ self.now }
        ensures limit { length self.now ≤ MAX_IDS }
    {
        &self.items
    }

    /// Equal identifiers. The only error is want of memory.
    pub fn copy(&self) -> Result<ServiceIds, AllocError>
        ensures { IfOk result (λ copy. copy ≡ self.now) }
    {
        Ok(ServiceIds {
            items: self.items.clone()?,
        })
    }
}

impl PartialEq for ServiceIds {
    ghost eq = { λ s t. pointwise nat_eq s t };

    ghost laws = { on_per (λ s. s) (partial_equiv_from_equiv nat_list_eq_equiv) };

    fn eq(&self, other: &ServiceIds) -> bool {
        self.as_slice() == other.as_slice()
    }
}

impl Eq for ServiceIds {
    ghost laws = { on_equiv (λ s. s) nat_list_eq_equiv };
}
