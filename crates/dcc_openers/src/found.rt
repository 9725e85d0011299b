//! Findings: who opened a session.

ghost use Rattle.std.specs.Prelude.{◌≡◌};
ghost use Rattle.dcc_openers.specs.Found.{noted, joined, one_of};

use dcc_act::Sub;

/// The subscribers who opened a session of one name from one host.
#[derive(Clone, Copy)]
pub enum Found {
    /// Nobody.
    None,
    /// This subscriber, and nobody else.
    One(Sub),
    /// Two subscribers at least.
    Several,
}

impl Found {
    /// The finding of all subscribers, by the findings of two parts of them that have no subscriber in common.
    pub fn join(self, other: Found) -> Found
        ensures { result ≡ joined self other }
    {
        match self {
            Found::None => other,
            Found::One(_) | Found::Several => match other {
                Found::None => self,
                Found::One(_) | Found::Several => Found::Several,
            },
        }
    }

    /// The subscriber, if there is exactly one.
    pub fn one(self) -> Option<Sub>
        ensures { result ≡ one_of self }
    {
        match self {
            Found::One(sub) => Some(sub),
            Found::None | Found::Several => None,
        }
    }

    /// The finding after this subscriber opened the session too.
    pub(crate) fn noted(self, sub: Sub) -> Found
        ensures { result ≡ noted self sub }
    {
        match self {
            Found::None => Found::One(sub),
            Found::One(first) => {
                if first == sub {
                    Found::One(sub)
                } else {
                    Found::Several
                }
            }
            Found::Several => Found::Several,
        }
    }
}
