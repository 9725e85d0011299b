//! The index: the sessions of each host, and the subscribers who opened each session.

ghost use Rattle.std.specs.Prelude.{◌≡◌, ℕ, ◌<◌, ◌&&◌, List, bytes_eq, if◌then◌else◌, Some, OnOk};
ghost use Rattle.indexmap.specs.IndexMap.{spare};
ghost use Rattle.dcc_openers.specs.Found.{noted};
ghost use Rattle.dcc_openers.specs.declared.found.Found.TheVariants as found;
ghost use Rattle.dcc_openers.specs.Openers.{names_of, found_at, HasRoomFor, KeepsRoom, UsesOneRoom};

use crate::found::Found;
use crate::names::Names;
use dcc_act::{SessionId, Sub};
use dcc_octets::Host;
use indexmap::IndexMap;
use std::alloc::{AllocError, Global};
use std::hash::RandomState;
use std::marker::Model;

/// The index of who opened which session from which host. Hosts and sessions are found by a hash that nobody outside can know
/// beforehand. Each host is kept once, and each session once for each of its hosts.
#[derive(Drop)]
pub struct Openers {
    hosts: IndexMap<Host, Names, RandomState>,
}

impl Model for Openers {
    ghost use Rattle.dcc_openers.specs.Openers.{OpenersView};

    ghost Value = { OpenersView };

    ghost view = { λ o. o.hosts.entries };
}

impl Openers {
    /// An index in which nobody is found. It takes no memory.
    pub fn new(alloc: Global, hasher: RandomState) -> Openers
        ensures { (h s : List ℕ) → found_at result h s ≡ found.None }
    {
        Openers {
            hosts: IndexMap::with_hasher(alloc, hasher),
        }
    }

    /// Who opened the session from the host. It takes no memory.
    pub fn find(&self, host: &Host, sid: &SessionId) -> Found
        ensures { result ≡ found_at self.now host.now sid.now }
    {
        match self.hosts.get(host) {
            Some(names) => names.find(sid),
            None => Found::None,
        }
    }

    /// Takes the memory for this number of further sessions of the host. The only error is want of memory. Every finding stays, and so does
    /// the room of each host, also after the error.
    pub fn make_room(&mut self, alloc: Global, host: &Host, number: usize) -> Result<(), AllocError>
        ensures same { (h s : List ℕ) → found_at self.new h s ≡ found_at self.old h s }
        ensures room { OnOk result (HasRoomFor self.new host.now number) }
        ensures kept { KeepsRoom self.old self.new }
    {
        if let Some(names) = self.hosts.get_mut(host) {
            return names.make_room(number);
        }
        self.hosts.reserve(1)?;
        let names = Names::with_room(alloc, *self.hosts.hasher(), number)?;
        let host = host.copy()?;
        add(&mut self.hosts, host, names);
        Ok(())
    }

    /// Notes that the subscriber opened the session from the host. It takes no memory, and uses the room for one session of the host at
    /// most. The condition: [`Openers::make_room`] has made room for a session of the host.
    pub fn note(&mut self, host: &Host, sid: SessionId, sub: Sub)
        requires { HasRoomFor self.old host.now 1 }
        ensures noted { (h s : List ℕ) → found_at self.new h s
            ≡ (if bytes_eq host.now h && bytes_eq sid s then noted (found_at self.old host.now sid) sub else found_at self.old h s) }
        ensures room { UsesOneRoom self.old self.new }
    {
        let names = self.hosts.get_mut(host).unwrap();
        names.note(sid, sub);
    }
}

/// Adds a host without sessions, for which there is room.
fn add(hosts: &mut IndexMap<Host, Names, RandomState>, host: Host, names: Names)
    requires { 0 < spare hosts.old }
    ensures { (h : List ℕ) → names_of hosts.new.entries h ≡ (if bytes_eq host h then Some names else names_of hosts.old.entries h) }
{
    hosts.insert(host, names).unwrap();
}
