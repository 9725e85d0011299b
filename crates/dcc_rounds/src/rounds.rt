//! How many rounds, and of what size.

ghost use Rattle.std.specs.Prelude.{◌≡◌, if◌then◌else◌, Some, None, true, false};
ghost use Rattle.dcc_rounds.specs.Rounds.{are_places, are_rounds};

use std::marker::Model;

/// How many rounds are served, with how many places for gateways each, and how often a sweep is asked for.
#[derive(Drop)]
pub struct Rounds {
    pub(crate) gates: usize,
    pub(crate) rounds: u32,
    pub(crate) every: u32,
    /// Whether a place is taken again once its gateway has gone. Else a round begins when its last gateway has come.
    pub(crate) stays: bool,
    /// The number of a round's attendants.
    pub(crate) attendants: usize,
}

impl Model for Rounds {
    ghost use Rattle.std.specs.Prelude.{◌≤◌};
    ghost use Rattle.dcc_rounds.specs.Rounds.{RoundsView};

    ghost Value = { RoundsView };

    ghost view = { λ r. record { gates = r.gates; rounds = r.rounds; every = r.every; stays = r.stays; attendants = r.attendants } };

    ghost invariant = { λ r. (1 ≤ r.gates) × (r.gates ≤ 256) };
}

impl Rounds {
    /// So many rounds, 1 to 1,000,000, of so many gateways at once, 1 to 16. Each gateway asks for a sweep after each `every` of its
    /// messages, 0 to 1,000,000; with 0 no gateway asks. A round has no attendants. None outside these limits.
    pub fn new(gates: usize, rounds: u32, every: u32) -> Option<Rounds>
        ensures { result ≡ (if are_rounds gates rounds every then Some (record { gates = gates; rounds = rounds; every = every; stays = false; attendants = 0 })
            else None) }
    {
        if !are_rounds(gates, rounds, every) {
            return None;
        }
        Some(Rounds {
            gates,
            rounds,
            every,
            stays: false,
            attendants: 0,
        })
    }

    /// One round with so many places, 1 to 256, each of which is taken again once its gateway has gone. It ends when the listener takes no
    /// more connections in. The listener itself reports when a sweep is due. Each gateway asks for a sweep after each `every` of its
    /// messages too, 0 to 1,000,000; with 0 no gateway asks. So many attendants serve operators beside the gateways, 0 to 8. None
    /// outside these limits.
    pub fn staying(places: usize, every: u32, attendants: usize) -> Option<Rounds>
        ensures { result ≡ (if are_places places every attendants
            then Some (record { gates = places; rounds = 1; every = every; stays = true; attendants = attendants }) else None) }
    {
        if !are_places(places, every, attendants) {
            return None;
        }
        Some(Rounds {
            gates: places,
            rounds: 1,
            every,
            stays: true,
            attendants,
        })
    }

    /// The number of places of a round.
    pub fn gates(&self) -> usize
        ensures { result ≡ self.now.gates }
    {
        self.gates
    }
}

/// Whether these are within the limits.
fn are_rounds(gates: usize, rounds: u32, every: u32) -> bool
    ensures { result ≡ are_rounds gates rounds every }
{
    1 <= gates && gates <= 16 && 1 <= rounds && rounds <= 1_000_000 && every <= 1_000_000
}

/// Whether these are within the limits of places that are taken again.
fn are_places(places: usize, every: u32, attendants: usize) -> bool
    ensures { result ≡ are_places places every attendants }
{
    1 <= places && places <= 256 && every <= 1_000_000 && attendants <= 8
}
