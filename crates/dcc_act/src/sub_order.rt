//! How subscribers compare: by type, and then by the data, octet by octet.

ghost use Rattle.std.specs.Prelude.{◌∷◌};
ghost use Rattle.std.proofs.Common.{rules};
ghost use Rattle.std.specs.Cmp.{partial_order_from_own_ties, and_per, and_equiv, on_per, on_equiv, partial_equiv_from_equiv, nat_eq_equiv};
ghost use Rattle.std.specs.Cmp.Rules.{comparing, hashing};
ghost use Rattle.std.specs.Cmp.Lexicographic.{nat_list_eq_equiv, slice_cmp};
ghost use Rattle.std.specs.Ordering.{nat_cmp, on, then_cmp, as_partial_cmp};
ghost use Rattle.dcc_act.specs.Subs.{same_sub};
ghost use Rattle.std.specs.Hash as fed;

use crate::sub::Sub;
use std::cmp::Ordering;
use std::hash::{Hash, Hasher};

impl PartialEq for Sub {
    ghost eq = { same_sub };

    ghost laws = { and_per (on_per (λ s. s.kind) (partial_equiv_from_equiv nat_eq_equiv)) (on_per (λ s. s.name) (partial_equiv_from_equiv nat_list_eq_equiv)) };

    fn eq(&self, other: &Sub) -> bool {
        self.kind() == other.kind() && self.name() == other.name()
    }
}

impl Eq for Sub {
    ghost laws = { and_equiv (on_equiv (λ s. s.kind) nat_eq_equiv) (on_equiv (λ s. s.name) nat_list_eq_equiv) };
}

impl Ord for Sub {
    ghost cmp = { then_cmp (on (λ s. s.kind) nat_cmp) (on (λ s. s.name) (slice_cmp nat_cmp)) };

    ghost total = { Prim.search (comparing, rules) };

    ghost matches_partial_cmp = { Prim.search (comparing, rules) };

    ghost matches_eq = { Prim.search (comparing, rules) };

    fn cmp(&self, other: &Sub) -> Ordering {
        self.kind()
            .cmp(&other.kind())
            .then(self.name().cmp(other.name()))
    }
}

impl PartialOrd for Sub {
    ghost partial_cmp = { as_partial_cmp (then_cmp (on (λ s. s.kind) nat_cmp) (on (λ s. s.name) (slice_cmp nat_cmp))) };

    ghost laws = { partial_order_from_own_ties (Prim.search (comparing, rules)) (Prim.search (comparing, rules)) };

    fn partial_cmp(&self, other: &Sub) -> Option<Ordering> {
        Some(self.cmp(other))
    }
}

impl Hash for Sub {
    // The data is written at once and first, since a hasher then takes it as whole words. If the slice itself were
    // hashed, it would take octets one by one.
    ghost hash_input = { λ s. s.name ∷ fed.u8 s.kind };

    ghost respects_eq = { Prim.search (hashing, rules) };

    fn hash<H: Hasher>(&self, state: &mut H) {
        state.write(self.name());
        state.write_u8(self.kind());
    }
}
