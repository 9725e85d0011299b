//! Indexes that find an act by its key, and an opened session by its name, however many acts there are.

ghost use Rattle.std.specs.Prelude.{◌≡◌, ℕ, ◌+◌, ◌≤◌, ◌||◌, List, ◌∷◌, length, map, nat_eq, bytes_eq, Some, if◌then◌else◌, IfOk, option_map};
ghost use Rattle.indexmap.specs.IndexMap.{get, spare, IsEmpty};
ghost use Rattle.indexmap.specs.IndexSet as set;
ghost use Rattle.dcc_act.specs.declared.request_key.RequestKey.{RequestKey};
ghost use Rattle.dcc_model.specs.declared.done.Done.{Done};
ghost use Rattle.dcc_model.specs.Keys.{request_key, same_request, same_ticket};
ghost use Rattle.dcc_model.specs.Outcomes.{act_made, place_of_key};
ghost use Rattle.dcc_model.specs.Sessions.{Sid, is_sid};
ghost use Rattle.dcc_state.specs.Known.{was_opened_by};
ghost use Rattle.dcc_account.specs.inner.Indexed.{place_by, is_request, is_top_up_of, same_name, IsIndexed, AreKeysOf, HasRoom, AreEmpty, CanGrow};

use crate::growth::{grow_map, grow_set, larger_map, larger_set};
use crate::new_keys::NewKeys;
use dcc_act::{Kind, RequestKey, SessionId};
use dcc_model::request_key;
use indexmap::{IndexMap, IndexSet};
use std::alloc::{AllocError, Global};
use std::hash::RandomState;

/// The places of requests, by session and number, counted from 1.
pub(crate) type Requests = IndexMap<RequestKey, u64, RandomState>;

/// The places of top-ups, by ticket, counted from 1.
pub(crate) type Tickets = IndexMap<u64, u64, RandomState>;

/// The sessions that were opened; each may be open or ended.
pub(crate) type Opened = IndexSet<SessionId, RandomState>;

/// The indexes of the acts that were made.
#[derive(Drop)]
pub(crate) struct Indexes {
    pub(crate) requests: Requests,
    pub(crate) tickets: Tickets,
    pub(crate) opened: Opened,
}

/// Larger indexes, without keys yet, for each index that has no room for more.
#[derive(Drop)]
pub(crate) struct LargerIndexes {
    pub(crate) requests: Option<Requests>,
    pub(crate) tickets: Option<Tickets>,
    pub(crate) opened: Option<Opened>,
}

impl Indexes {
    /// Indexes of no acts. It takes no memory.
    pub(crate) fn new(alloc: Global, hasher: RandomState) -> Indexes
        ensures requests { IsEmpty result.requests }
        ensures tickets { IsEmpty result.tickets }
        ensures opened { set.IsEmpty result.opened }
    {
        Indexes {
            requests: IndexMap::with_hasher(alloc, hasher),
            tickets: IndexMap::with_hasher(alloc, hasher),
            opened: IndexSet::with_hasher(alloc, hasher),
        }
    }

    /// The place of the act that has the key of this kind.
    pub(crate) fn place(&self, kind: &Kind) -> Option<u64>
        ensures { (past : List Done) → IsIndexed past self.now → result ≡ place_of_key (map act_made past) kind.now }
    {
        match kind {
            Kind::TopUp(top_up) => self.place_of_top_up(top_up.ticket),
            Kind::Initial { request, .. } | Kind::Update(request) | Kind::Termination(request) => {
                self.place_of_request(&request.key)
            }
            Kind::Event(event) => self.place_of_request(&event.key),
            Kind::Expiry => None,
        }
    }

    /// The place of the top-up of this ticket.
    fn place_of_top_up(&self, ticket: u64) -> Option<u64>
        ensures { (past : List Done) → IsIndexed past self.now → result ≡ place_by (is_top_up_of ticket) past }
    {
        self.tickets.get(&ticket).copied()
    }

    /// The place of the request of this key.
    pub(crate) fn place_of_request(&self, key: &RequestKey) -> Option<u64>
        ensures { (past : List Done) → IsIndexed past self.now → result ≡ place_by (is_request key.now) past }
    {
        self.requests.get(key).copied()
    }

    /// Whether the session of a request was opened.
    pub(crate) fn was_opened(&self, kind: &Kind) -> bool
        ensures { (past : List Done) → IsIndexed past self.now → result ≡ was_opened_by past (request_key kind.now) }
    {
        match request_key(kind) {
            Some(key) => self.opened.contains(&key.sid),
            None => false,
        }
    }

    /// Larger indexes for those that have no room for so many more keys, 0 or 1. The only error is want of memory.
    pub(crate) fn larger(&self, alloc: Global, more: usize) -> Result<LargerIndexes, AllocError>
        requires { more ≤ 1 }
        ensures empty { IfOk result AreEmpty }
        ensures room { IfOk result (CanGrow self.now more) }
    {
        Ok(LargerIndexes {
            requests: larger_map(alloc, &self.requests, more)?,
            tickets: larger_map(alloc, &self.tickets, more)?,
            opened: larger_set(alloc, &self.opened, more)?,
        })
    }

    /// Moves the keys into the larger indexes, if there are any.
    pub(crate) fn grow(&mut self, larger: LargerIndexes)
        requires empty { AreEmpty larger }
        requires room { CanGrow self.old 1 larger }
        ensures indexed { (past : List Done) → IsIndexed past self.old → IsIndexed past self.new }
        ensures room { HasRoom self.new }
    {
        grow_map(&mut self.requests, larger.requests);
        grow_map(&mut self.tickets, larger.tickets);
        grow_set(&mut self.opened, larger.opened);
    }

    /// Adds the keys of one more act, for which there is room.
    pub(crate) fn add(&mut self, keys: NewKeys, place: u64)
        requires { HasRoom self.old }
        ensures { (past : List Done) (done : Done) → IsIndexed past self.old → AreKeysOf done.act.kind done.outcome keys
            → place ≡ length past + 1 → IsIndexed (done ∷ past) self.new }
    {
        add_request(&mut self.requests, keys.request, place);
        add_ticket(&mut self.tickets, keys.ticket, place);
        add_opened(&mut self.opened, keys.opened);
    }
}

fn add_request(requests: &mut Requests, key: Option<RequestKey>, place: u64)
    requires { 1 ≤ spare requests.old }
    ensures { (q : RequestKey) → get same_name requests.new q ≡ (if same_request key (Some q) then Some place else get same_name requests.old q) }
{
    if let Some(key) = key {
        requests.insert(key, place).unwrap();
    }
}

fn add_ticket(tickets: &mut Tickets, ticket: Option<u64>, place: u64)
    requires { 1 ≤ spare tickets.old }
    ensures { (q : ℕ) → get nat_eq tickets.new q ≡ (if same_ticket (Some q) ticket then Some place else get nat_eq tickets.old q) }
{
    if let Some(ticket) = ticket {
        tickets.insert(ticket, place).unwrap();
    }
}

fn add_opened(opened: &mut Opened, sid: Option<SessionId>)
    requires { 1 ≤ set.spare opened.old }
    ensures { (q : Sid) → set.contains bytes_eq opened.new q ≡ (is_sid sid q || set.contains bytes_eq opened.old q) }
{
    if let Some(sid) = sid {
        opened.insert(sid).unwrap();
    }
}
