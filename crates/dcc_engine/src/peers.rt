//! The peers that are connected.

ghost use Rattle.std.specs.Prelude.{◌≡◌, ◌==◌, ◌+◌, ◌<◌, ◌≤◌, ℕ, [], OnOk, IfSome, IfNone, option_map, if◌then◌else◌};
ghost use Rattle.dcc_engine.specs.Engines.{peer_in};
ghost use Rattle.dcc_engine.specs.inner.Rows.{IsAt};
ghost use Rattle.dcc_engine.specs.inner.Turns.{IsHeard, host_on};

use dcc_act::Moment;
use dcc_base::{Host, Peer};
use dcc_dispatch::{Dispatched, dispatch};
use dcc_message::Identity;
use dcc_tariff::Plan;
use std::alloc::{AllocError, Global};
use std::marker::Model;

/// A peer by its number.
#[derive(Debug, Drop)]
pub struct PeerRow {
    pub id: u32,
    pub peer: Peer,
}

/// The peers by their numbers, each once.
#[derive(Drop)]
pub struct Peers {
    rows: Vec<PeerRow>,
}

impl Model for Peers {
    ghost use Rattle.std.specs.Prelude.{◌-◌, vec_len, vec_capacity};
    ghost use Rattle.dcc_engine.specs.Engines.{PeersView};

    ghost Value = { PeersView };

    ghost view = { λ p. record { rows = p.rows.items; room = vec_capacity p.rows - vec_len p.rows } };
}

impl Peers {
    /// No peers. It takes no memory.
    pub fn new(alloc: Global) -> Self
        ensures { result.rows ≡ [] }
    {
        Peers {
            rows: Vec::new(alloc),
        }
    }

    /// Makes room for so many more peers. The only error is want of memory. The peers stay, also after the error.
    pub fn reserve(&mut self, more: usize) -> Result<(), AllocError>
        ensures rows { self.new.rows ≡ self.old.rows }
        ensures room { OnOk result (more ≤ self.new.room) }
    {
        self.rows.reserve(more)
    }

    /// Adds a peer, or replaces the peer that has this number. The condition: there is room for a peer.
    pub fn set(&mut self, id: u32, peer: Peer)
        requires { 0 < self.old.room }
        ensures rows { (q : ℕ) → peer_in self.new.rows q ≡ (if id == q then Some peer else peer_in self.old.rows q) }
        ensures room { self.old.room ≤ self.new.room + 1 }
    {
        self.remove(id);
        self.rows.push_reserved(PeerRow { id, peer });
    }

    /// Removes a peer, if it is there.
    pub fn remove(&mut self, id: u32)
        ensures rows { (q : ℕ) → peer_in self.new.rows q ≡ (if id == q then None else peer_in self.old.rows q) }
        ensures room { self.old.room ≤ self.new.room }
    {
        self.rows.retain(|row| row.id != id);
    }

    /// Dispatches a whole message of a peer; none if the peer is not connected.
    pub(crate) fn hear(
        &mut self,
        alloc: Global,
        plan: &Plan,
        identity: &Identity,
        id: u32,
        moment: Moment,
        octets: &[u8],
    ) -> Option<Dispatched>
        ensures heard { IfSome result (λ made. IsHeard (record { plan = plan.now; identity = identity.now })
            self.old.rows self.new.rows id moment octets.now made) }
        ensures none { IfNone result (peer_in self.old.rows id ≡ None) }
        ensures stay { IfNone result (self.new.rows ≡ self.old.rows) }
        ensures room { self.new.room ≡ self.old.room }
    {
        let i = find(&self.rows, id)?;
        let row = &mut self.rows[i];
        Some(dispatch(alloc, plan, identity, &mut row.peer, moment, octets))
    }

    /// The name of a peer's host, if the peer is connected and open.
    pub(crate) fn host(&self, id: u32) -> Option<&Host>
        ensures { option_map (λ host. host.now) result ≡ host_on (peer_in self.now.rows id) }
    {
        let i = find(&self.rows, id)?;
        self.rows[i].peer.name()
    }
}

/// The index of a peer's row, if the peer is connected.
fn find(rows: &[PeerRow], id: u32) -> Option<usize>
    ensures found { IfSome result (λ i. IsAt rows.now id i) }
    ensures none { IfNone result (peer_in rows.now id ≡ None) }
{
    for (i, row) in rows.iter().enumerate() {
        if row.id == id {
            return Some(i);
        }
    }
    None
}
