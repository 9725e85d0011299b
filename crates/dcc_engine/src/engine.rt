//! The engine.

ghost use Rattle.std.specs.Prelude.{◌≡◌, ◌≢◌, ◌+◌, ◌<◌, ◌≤◌, ℕ, [], List, map, length, Some, None, All, true, is_some};
ghost use Rattle.std.specs.List.Sorted.{IsStrictlySortedBy};
ghost use Rattle.dcc_shard.specs.Routes.{route_order};
ghost use Rattle.std.specs.Prelude.{IfOk, IfSome, IfNone, OnErr};
ghost use Rattle.dcc_act.specs.declared.sub.Sub.{Sub};
ghost use Rattle.dcc_model.specs.Keys.{request_key};
ghost use Rattle.dcc_model.specs.Outcomes.{acts, funds, free, overrun};
ghost use Rattle.dcc_shard.specs.Shards.{held, AreOwn};
ghost use Rattle.dcc_dispatch.specs.Dispatches.{IsSought, IsSettled};
ghost use Rattle.dcc_dispatch.specs.Messages.{MessageView};
ghost use Rattle.dcc_dispatch.specs.Verdicts.{settled};
ghost use Rattle.dcc_dispatch.specs.declared.verdict.Verdict.{Verdict};
ghost use Rattle.dcc_engine.specs.Engines.{held_of, peer_of, IsUnchanged};
ghost use Rattle.dcc_engine.specs.Openers.{opener_of};
ghost use Rattle.dcc_engine.specs.Asks.{connected};
ghost use Rattle.dcc_engine.specs.inner.Hosts.{host_of as host_in};
ghost use Rattle.dcc_engine.specs.Isolation.{turns, own, peers, IsRun};
ghost use Rattle.dcc_engine.specs.inner.Turns.{IsTurnDone, IsHandedOn, host_on, now_of};
ghost use Rattle.dcc_engine.specs.declared.event.Event.TheVariants.{Message};

use crate::event::{Event, Out};
use crate::outs::{octets_of, quiet, replying, sending, telling};
use crate::peers::Peers;
use dcc_account::Account;
use dcc_act::{Moment, Sub, same_subscribers_are_equal};
use dcc_base::{Host, Peer};
use dcc_dispatch::{Asked, Dispatched, Settled, Sought};
use dcc_message::Identity;
use dcc_model::{
    acts_come_to_their_own, later_acts_change_no_outcome, leaving_out_changes_nothing,
    one_more_act_opens,
};
use dcc_octets::OctetString;
use dcc_shard::Shards;
use dcc_store::Records;
use dcc_tariff::Plan;
use std::alloc::{AllocError, Global};
use std::marker::Model;

/// The peers, and the shards with the accounts, under one plan.
#[derive(Drop)]
pub struct Engine<R: Records> {
    pub(crate) plan: Plan,
    pub(crate) identity: Identity,
    peers: Peers,
    pub(crate) shards: Shards<R>,
}

impl<R: Records> Model for Engine<R> {
    ghost use Rattle.std.specs.Prelude.{◌≡◌, length};
    ghost use Rattle.dcc_shard.specs.Shards.{AreOwn};
    ghost use Rattle.dcc_engine.specs.Engines.{EngineView};

    ghost Value = { EngineView };

    ghost view = { λ e. record { setting = record { plan = e.plan; identity = e.identity }; peers = e.peers; shard = e.shards.shard; shards = length e.shards.parts } };

    ghost invariant = { λ e. (e.shards.shard.terms ≡ e.plan.terms) × (e.shards.shard.identity ≡ e.identity) × AreOwn e.shards.shard };
}

impl<R: Records> Engine<R> {
    /// An engine without peers over these shards. It answers under their identity. The number of shards changes no answer. The
    /// condition: the accounts are judged by the plan's terms. The only error is want of memory.
    pub fn open(alloc: Global, plan: Plan, shards: Shards<R>) -> Result<Engine<R>, AllocError>
    where
        R: Drop,
        requires { shards.shard.terms ≡ plan.terms }
        ensures setting { IfOk result (λ engine. engine.setting ≡ record { plan = plan; identity = shards.shard.identity }) }
        ensures peers { IfOk result (λ engine. (id : ℕ) → peer_of engine id ≡ None) }
        ensures accounts { IfOk result (λ engine. (sub : Sub) → held_of engine sub ≡ held shards.shard sub) }
        ensures shards { IfOk result (λ engine. engine.shards ≡ length shards.parts) }
    {
        shards.acts_are_own();
        let identity = match shards.identity().copy() {
            Ok(identity) => identity,
            Err(error) => {
                // By calls: shards and a plan that are let go in place are proved part by part.
                drop(shards);
                drop(plan);
                return Err(error);
            }
        };
        Ok(Engine {
            plan,
            identity,
            peers: Peers::new(alloc),
            shards,
        })
    }

    /// The shards, moved out, with all that they hold.
    pub fn into_shards(self) -> Shards<R>
        ensures shard { result.shard ≡ self.shard }
        ensures count { length result.parts ≡ self.shards }
        ensures terms { result.shard.terms ≡ self.setting.plan.terms }
        ensures identity { result.shard.identity ≡ self.setting.identity }
    {
        let Engine {
            plan,
            identity,
            peers,
            shards,
        } = self;
        // By calls: a plan and peers that are let go in place are proved part by part.
        drop(plan);
        drop(identity);
        drop(peers);
        shards
    }

    /// The account of a subscriber, if there is one.
    pub fn account(&self, sub: Sub) -> Option<&Account>
        ensures terms { IfSome result (λ account. account.now.terms ≡ self.now.setting.plan.terms) }
        ensures acts { IfSome result (λ account. account.now.acts ≡ held_of self.now sub) }
        ensures some { IfSome result (λ account. account.now.acts ≢ []) }
        ensures none { IfNone result (held_of self.now sub ≡ []) }
    {
        self.shards.account(sub)
    }

    /// Answers events in order, each by one out.
    ///
    /// An `Err` is want of memory for the outs and for the new peers with their hosts, and changes nothing. Want of memory inside an event,
    /// and records that fail or are stopped, are no `Err`: a message is answered busy, or not at all if memory is short for the busy answer
    /// too; a top-up is answered as refused; a sweep reports the subscribers whose expiry was refused. What is refused changes no held act.
    pub fn run(&mut self, alloc: Global, events: &[Event]) -> Result<Vec<Out>, AllocError>
        // One out for each event.
        ensures count { IfOk result (λ outs. length outs.items ≡ length events.now) }
        // A subscriber's event is answered by its outcome at its place in that subscriber's own entries, or is refused. The subscriber of a
        // request that names nobody follows from who opened its session. An event of nobody is answered by its peer's own events.
        ensures answers { IfOk result (λ outs. IsRun self.old (turns events.now outs.items)) }
        // The held acts and the money of each subscriber are those of its own entries.
        ensures acts { IfOk result (λ outs. (sub : Sub) →
            held_of self.new sub ≡ acts self.old.setting.plan.terms (own self.old (turns events.now outs.items) sub)) }
        ensures funds { IfOk result (λ outs. (sub : Sub) → funds self.old.setting.plan.terms (held_of self.new sub)
            ≡ funds self.old.setting.plan.terms (own self.old (turns events.now outs.items) sub)) }
        ensures free { IfOk result (λ outs. (sub : Sub) → free self.old.setting.plan.terms (held_of self.new sub)
            ≡ free self.old.setting.plan.terms (own self.old (turns events.now outs.items) sub)) }
        ensures overrun { IfOk result (λ outs. (sub : Sub) → overrun self.old.setting.plan.terms (held_of self.new sub)
            ≡ overrun self.old.setting.plan.terms (own self.old (turns events.now outs.items) sub)) }
        // Each peer is in the state to which its own events brought it.
        ensures peers { IfOk result (λ outs. (id : ℕ) → peer_of self.new id ≡ peers self.old (turns events.now outs.items) id) }
        // A sweep reports the refused subscribers by shard, and then by type and data.
        ensures order { IfOk result (λ outs. All (λ out. IsStrictlySortedBy (route_order self.old.shards) out.refused) outs.items) }
        ensures setting { self.new.setting ≡ self.old.setting }
        ensures shards { self.new.shards ≡ self.old.shards }
        ensures err { OnErr result (IsUnchanged self.old self.new) }
    {
        leaving_out_changes_nothing();
        one_more_act_opens();
        same_subscribers_are_equal();
        acts_come_to_their_own();
        later_acts_change_no_outcome();
        let mut outs = Vec::with_capacity(alloc, events.len())?;
        let mut hosts = hosts_of(alloc, events)?;
        self.peers.reserve(events.len())?;
        for (i, event) in events.iter().enumerate() {
            let host = hosts[i].take();
            let out = self.step(alloc, event, host);
            outs.push_reserved(out);
        }
        Ok(outs)
    }

    /// Answers one event. The conditions: there is room for a new peer, and `host` is the host of the event.
    fn step(&mut self, alloc: Global, event: &Event, host: Option<Host>) -> Out
        requires room { 0 < self.old.peers.room }
        requires host { host ≡ host_in event.now }
        ensures done { IsTurnDone self.old self.new (record { event = event.now; out = result }) }
        ensures order { IsStrictlySortedBy (route_order self.old.shards) result.refused }
        ensures shards { self.new.shards ≡ self.old.shards }
        ensures room { self.old.peers.room ≤ self.new.peers.room + 1 }
    {
        same_subscribers_are_equal();
        match event {
            Event::Connect { peer, .. } => {
                self.peers.set(*peer, connected(host));
                quiet(alloc, *peer)
            }
            Event::Disconnect { peer } => {
                self.peers.remove(*peer);
                quiet(alloc, *peer)
            }
            Event::TopUp {
                moment,
                sub,
                ticket,
                amount,
            } => {
                let answer = self.shards.top_up(alloc, *sub, *moment, *ticket, *amount);
                telling(alloc, answer)
            }
            Event::Sweep { moment } => self.sweep(alloc, *moment),
            Event::Message {
                peer,
                moment,
                octets,
            } => self.hear(alloc, *peer, *moment, octets),
        }
    }

    /// Answers a message of a peer.
    fn hear(&mut self, alloc: Global, peer: u32, moment: Moment, octets: &OctetString) -> Out
        ensures done { IsTurnDone self.old self.new (record { event = Message peer moment octets.now; out = result }) }
        ensures quiet { result.refused ≡ [] }
        ensures shards { self.new.shards ≡ self.old.shards }
        ensures room { self.new.peers.room ≡ self.old.peers.room }
    {
        same_subscribers_are_equal();
        let (peers, plan, identity) = (&mut self.peers, &self.plan, &self.identity);
        let Some(made) = peers.hear(alloc, plan, identity, peer, moment, octets.as_slice()) else {
            return quiet(alloc, peer);
        };
        match made {
            Dispatched::Replied(reply) => replying(alloc, peer, reply),
            Dispatched::Asked(asked) => sending(alloc, peer, ask(&mut self.shards, alloc, asked)),
            Dispatched::Sought(sought) => match self.settle(alloc, peer, sought) {
                Settled::Replied(reply) => replying(alloc, peer, reply),
                Settled::Asked(asked) => sending(alloc, peer, ask(&mut self.shards, alloc, asked)),
            },
        }
    }

    /// Settles a message of an open peer that names nobody: all shards are asked who opened its session from the peer's host.
    fn settle(&self, alloc: Global, peer: u32, sought: Sought) -> Settled
        requires { is_some (host_on (peer_of self.now peer)) ≡ true }
        ensures { (host : List ℕ) (message : MessageView) (verdict : Verdict) → host_on (peer_of self.now peer) ≡ Some host
            → IsSought message verdict sought → IsSettled self.now.setting.identity message
            (settled self.now.setting.identity message (opener_of self.now.setting.plan.terms (now_of self.now) host) verdict) result }
    {
        same_subscribers_are_equal();
        let Some(host) = self.peers.host(peer) else {
            unreachable!()
        };
        let found = self.shards.find(host, sought.session());
        sought.settle(alloc, &self.identity, found.one())
    }
}

/// Asks a subscriber's account for an act, and returns the octets of the answer; no octets if there is no answer.
fn ask<R: Records>(shards: &mut Shards<R>, alloc: Global, asked: Asked) -> OctetString
    requires { is_some (request_key asked.act.kind) ≡ true }
    ensures handed { IsHandedOn shards.old.shard shards.new.shard asked result }
    ensures own { AreOwn shards.new.shard }
    ensures count { length shards.new.parts ≡ length shards.old.parts }
{
    let Asked {
        sub,
        act,
        header,
        proxies,
    } = asked;
    let answer = shards.step(alloc, sub, act, &header, &proxies);
    octets_of(alloc, answer)
}

/// A peer whose connection is made.
fn connected(host: Option<Host>) -> Peer
    ensures { result ≡ connected host }
{
    match host {
        Some(host) => Peer::Open(host),
        None => Peer::Wait,
    }
}

/// The host of each event, if it has a host. The only error is want of memory.
fn hosts_of(alloc: Global, events: &[Event]) -> Result<Vec<Option<Host>>, AllocError>
    ensures { IfOk result (λ hosts. hosts.items ≡ map host_in events.now) }
{
    let mut hosts = Vec::with_capacity(alloc, events.len())?;
    for event in events {
        hosts.push_reserved(host_of(event)?);
    }
    Ok(hosts)
}

fn host_of(event: &Event) -> Result<Option<Host>, AllocError>
    ensures { IfOk result (λ host. host ≡ host_in event.now) }
{
    match event {
        Event::Connect {
            host: Some(host),
            ..
        } => Ok(Some(host.copy()?)),
        _ => Ok(None),
    }
}
