//! Steps.

ghost use Rattle.std.specs.Prelude.{◌≡◌};

use crate::larger::Larger;
use crate::new_keys::NewKeys;
use dcc_act::{Act, Entry, Outcome};
use dcc_state::Change;
use std::marker::Model;

/// A step of an account that is prepared and not yet installed: an act, its outcome, the entries that it adds, its change of
/// the money and of the open sessions, the keys that it adds, and all the memory that its installation takes.
#[derive(Drop)]
pub struct Step {
    pub(crate) act: Act,
    pub(crate) outcome: Outcome,
    pub(crate) is_new: bool,
    pub(crate) place: Option<u64>,
    pub(crate) entries: Vec<Entry>,
    pub(crate) change: Change,
    pub(crate) looks: u64,
    pub(crate) keys: NewKeys,
    pub(crate) larger: Larger,
}

impl Model for Step {
    ghost use Rattle.dcc_account.specs.Prepared.{StepView};
    ghost use Rattle.dcc_account.specs.inner.Indexed.{AreKeysOf};
    ghost use Rattle.dcc_account.specs.inner.Brought.{IsEmpty, space_of};

    ghost Value = { StepView };

    ghost view = { λ s. record {
      act = s.act;
      outcome = s.outcome;
      is_new = s.is_new;
      place = s.place;
      entries = s.entries.items;
      change = s.change;
      looks = s.looks;
      space = space_of s.larger;
    } };

    ghost invariant = { λ s. IsEmpty s.larger × AreKeysOf s.act.kind s.outcome s.keys };
}

impl Step {
    /// The outcome of the act.
    pub fn outcome(&self) -> &Outcome
        ensures { result.now ≡ self.now.outcome }
    {
        &self.outcome
    }

    /// The entries that the act adds, in order.
    pub fn entries(&self) -> &[Entry]
        ensures { result.now ≡ self.now.entries }
    {
        &self.entries
    }

    /// The act.
    pub fn act(&self) -> &Act
        ensures { result.now ≡ self.now.act }
    {
        &self.act
    }

    /// Whether the act is made: it is neither a repeat, nor a request without an account, nor an expiry that ends nothing.
    pub fn is_new(&self) -> bool
        ensures { result ≡ self.now.is_new }
    {
        self.is_new
    }

    /// The act's place among the made acts of its subscriber, from 1, or that of the act that was made with its key. None
    /// for a request without an account, and for an expiry that ends nothing.
    pub fn place(&self) -> Option<u64>
        ensures { result ≡ self.now.place }
    {
        self.place
    }

    /// The number of live grants that were read to prepare it.
    pub fn looks(&self) -> u64
        ensures { result ≡ self.now.looks }
    {
        self.looks
    }
}
