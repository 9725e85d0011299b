//! The reader of a gateway.

ghost use Rattle.std.specs.Prelude.{◌≡◌, ℕ, ◌++◌, List, Some, true, is_some, length};
ghost use Rattle.dcc_base.specs.Peers.{host_of_peer};
ghost use Rattle.dcc_dispatch.specs.Dispatches.{IfAsked, IfCharging, IfSought, IsAsked, IsSought};
ghost use Rattle.dcc_dispatch.specs.Messages.{MessageView, host_name, message_view};
ghost use Rattle.dcc_dispatch.specs.Settings.{Setting};
ghost use Rattle.dcc_dispatch.specs.declared.settled.Settled.TheVariants.{Replied};
ghost use Rattle.dcc_dispatch.specs.declared.verdict.Verdict.{Verdict};
ghost use Rattle.dcc_lane.specs.Ends.{lane_of_sender, put_of};
ghost use Rattle.dcc_model.specs.Keys.{request_key};
ghost use Rattle.dcc_rounds.specs.Handing.{AsksSweep, Ends, IfSettled, IsSameReader, IsSettledBy, Passes, ReadsOut, reading_of, replies, one_more, is_due, since_then};
ghost use Rattle.dcc_rounds.specs.Lanes.{all_put, put_into};
ghost use Rattle.dcc_rounds.specs.declared.work.Work.TheVariants as work;
ghost use Rattle.dcc_shard.specs.Routes.{shard_of};

use crate::face::{Event, Notice, Notices, Sign};
use crate::lanes::{ask_all_to_sweep, end_all, put_into};
use crate::work::{Request, Work};
use dcc_act::Moment;
use dcc_base::{Peer, Reply};
use dcc_connect::{Clock, ConnectionEnd, Handed, Item, Submitter, read_side};
use dcc_dispatch::{Asked, Dispatched, Settled, dispatch};
use dcc_lane::Sender;
use dcc_message::Identity;
use dcc_octets::OctetString;
use dcc_running::{Job, Naming, Shards};
use dcc_shard::shard_of;
use dcc_store::Records;
use dcc_tariff::Plan;
use std::alloc::Global;
use std::io::Read;
use std::sync::Wait;

/// The bound on turns of each side of a connection.
pub(crate) const TURNS: u32 = u32::MAX;

/// A reader's ends of lanes, and what it counts.
#[derive(Drop)]
pub(crate) struct Reader {
    /// The index of its place.
    pub gate: usize,
    pub peer: Peer,
    /// One for each shard's worker, by its index.
    pub workers: Vec<Sender<Work>>,
    pub writer: Sender<Item>,
    pub sweeps: Sweeps,
    /// So many requests were handed to shards.
    pub requests: u64,
}

/// When sweeps are asked for.
#[derive(Drop)]
pub(crate) struct Sweeps {
    /// After so many messages, or never with 0.
    pub every: u32,
    /// So many came since.
    pub since: u32,
}

impl Sweeps {
    /// Counts a message, and returns whether a sweep is due behind it.
    fn is_due(&mut self) -> bool
        ensures due { result ≡ is_due self.old }
        ensures every { self.new.every ≡ self.old.every }
        ensures since { self.new.since ≡ since_then self.old }
    {
        if self.every == 0 {
            return false;
        }
        if self.since >= self.every - 1 {
            self.since = 0;
            return true;
        }
        self.since += 1;
        false
    }
}

/// Who judges a gateway's messages.
#[derive(Drop)]
pub(crate) struct Judge<'a, R: Records, J: Naming, N> {
    pub alloc: Global,
    pub plan: &'a Plan,
    pub identity: &'a Identity,
    pub shards: &'a Shards<R, J>,
    pub notices: &'a N,
    pub reader: &'a mut Reader,
}

impl<'a, R: Records, J: Naming, N: Notices> Submitter for Judge<'a, R, J, N> {
    ghost use Rattle.std.specs.Prelude.{◌≡◌};
    ghost use Rattle.dcc_rounds.specs.Handing.{Hands};

    ghost hands = { λ old moment message handed new. Hands (record { plan = old.plan.now; identity = old.identity.now }) old.shards.now.count
        moment message handed old.reader.now new.reader.now × (new.plan ≡ old.plan) × (new.identity ≡ old.identity) × (new.shards ≡ old.shards)
        × (new.reader.ghost_name ≡ old.reader.ghost_name) };

    fn hand<W: Wait>(&mut self, rt: &W, moment: Moment, message: &[u8]) -> Handed {
        let ticks = self.notices.ticks();
        self.notices.count(Event::Read { message });
        let was_open = self.reader.peer.host().is_some();
        let dispatched = dispatch(
            self.alloc,
            self.plan,
            self.identity,
            &mut self.reader.peer,
            moment,
            message,
        );
        if !was_open {
            self.tell_host(rt);
        }
        let settled = settle(
            rt,
            self.alloc,
            self.identity,
            self.shards,
            &self.reader.peer,
            dispatched,
        );
        let handed = self.reader.pass_on(rt, self.notices, settled, ticks);
        self.reader.sweep(rt, moment);
        // Behind the message, since the moment of the next one is taken before it is handed on.
        self.notices.wait_for_room(rt, self.reader.gate);
        handed
    }
}

impl<'a, R: Records, J: Naming, N: Notices> Judge<'a, R, J, N> {
    /// Reports the name of the peer's host, if the peer is open.
    fn tell_host<W: Wait>(&self, rt: &W) {
        if let Some(host) = self.reader.peer.host() {
            let gate = self.reader.gate.saturating_add(1);
            self.notices.tell(rt, Notice::Host { gate, host });
        }
    }
}

/// The outcome of a message once nobody is sought any more. For a request that names nobody, it asks each shard in turn who opened the
/// session of the request from the host of the request's peer.
fn settle<W: Wait, R: Records, J: Naming>(
    rt: &W,
    alloc: Global,
    identity: &Identity,
    shards: &Shards<R, J>,
    peer: &Peer,
    word: Dispatched,
) -> Settled
    requires { IfCharging word (λ header. host_of_peer peer.now ≡ Some (host_name peer.now)) }
    ensures settled { (setting : Setting) (message : List ℕ) (verdict : MessageView → Verdict) → setting.identity ≡ identity.now
        → IfSought word (λ sought. IsSought (message_view sought.header message) (verdict (message_view sought.header message)) sought)
        → IsSettledBy setting shards.now.count (host_name peer.now) message word result }
    ensures request { (message : List ℕ) (verdict : MessageView → Verdict)
        → IfAsked word (λ asked. IsAsked (message_view asked.header message) (verdict (message_view asked.header message)) asked)
        → IfSought word (λ sought. IsSought (message_view sought.header message) (verdict (message_view sought.header message)) sought)
        → IfSettled result (λ asked. is_some (request_key asked.act.kind) ≡ true) }
{
    match word {
        Dispatched::Replied(reply) => Settled::Replied(reply),
        Dispatched::Asked(asked) => Settled::Asked(asked),
        Dispatched::Sought(sought) => {
            let Some(host) = peer.name() else {
                unreachable!()
            };
            let found = shards.resolve(rt, host, sought.session());
            sought.settle(alloc, identity, found.one())
        }
    }
}

impl Reader {
    /// Passes on what a message comes to that was read at this tick.
    fn pass_on<W: Wait, N: Notices>(
        &mut self,
        rt: &W,
        notices: &N,
        word: Settled,
        ticks: u64,
    ) -> Handed
        requires { IfSettled word (λ asked. is_some (request_key asked.act.kind) ≡ true) }
        ensures passed { Passes self.old.gate word result (reading_of self.old) (reading_of self.new) }
        ensures peer { self.new.peer ≡ self.old.peer }
        ensures same { IsSameReader self.old self.new }
    {
        match word {
            Settled::Replied(reply) => self.reply(rt, notices, reply),
            Settled::Asked(asked) => {
                let Asked {
                    sub,
                    act,
                    header,
                    proxies,
                } = asked;
                let job = Job {
                    sub,
                    act,
                    header,
                    proxies,
                };
                let gate = self.gate;
                notices.sign(gate, Sign::Asked);
                self.ask(rt, Request { gate, job, ticks });
                Handed::Stays
            }
        }
    }

    /// Puts what is replied at once into the writer's lane.
    fn reply<W: Wait, N: Notices>(&mut self, rt: &W, notices: &N, reply: Reply) -> Handed
        ensures passed { Passes self.old.gate (Replied reply) result (reading_of self.old) (reading_of self.new) }
        ensures peer { self.new.peer ≡ self.old.peer }
        ensures same { IsSameReader self.old self.new }
    {
        let Reply { octets, close } = reply;
        count_reply(notices, octets.as_slice());
        let gate = self.gate;
        put_reply(rt, notices, gate, &mut self.writer, octets);
        if close { Handed::Closes } else { Handed::Stays }
    }

    /// Puts a request into the lane of its subscriber's shard.
    fn ask<W: Wait>(&mut self, rt: &W, request: Request)
        ensures asked { all_put self.new.workers.items ≡ put_into (shard_of request.job.sub (length self.old.workers.items))
            (work.Request request) (all_put self.old.workers.items) }
        ensures requests { self.new.requests ≡ one_more self.old.requests }
        ensures writer { self.new.writer ≡ self.old.writer }
        ensures sweeps { self.new.sweeps ≡ self.old.sweeps }
        ensures peer { self.new.peer ≡ self.old.peer }
        ensures same { IsSameReader self.old self.new }
    {
        self.requests = self.requests.saturating_add(1);
        if self.workers.is_empty() {
            return;
        }
        let shard = shard_of(&request.job.sub, self.workers.len());
        put_into(rt, &mut self.workers, shard, Work::Request(request));
    }

    /// Counts a message, and asks each shard for a sweep if a sweep is due.
    fn sweep<W: Wait>(&mut self, rt: &W, moment: Moment)
        ensures asked { AsksSweep moment (reading_of self.old) (reading_of self.new) }
        ensures peer { self.new.peer ≡ self.old.peer }
        ensures same { IsSameReader self.old self.new }
    {
        if !self.sweeps.is_due() {
            return;
        }
        ask_all_to_sweep(rt, &mut self.workers, moment);
    }

    /// Says to all that take from it that it ends.
    fn end<W: Wait>(&mut self, rt: &W)
        ensures ends { Ends self.old.gate (reading_of self.old) (reading_of self.new) }
        ensures same { IsSameReader self.old self.new }
    {
        end_all(rt, &mut self.workers, self.gate);
        self.writer.put(rt, Item::End);
    }
}

/// Puts the octets of a reply into the lane to the writer of this place, if the reply has any.
fn put_reply<W: Wait, N: Notices>(
    rt: &W,
    notices: &N,
    gate: usize,
    writer: &mut Sender<Item>,
    octets: OctetString,
)
    ensures put { put_of writer.new ≡ put_of writer.old ++ replies octets }
    ensures lane { lane_of_sender writer.new ≡ lane_of_sender writer.old }
{
    if octets.as_slice().is_empty() {
        return;
    }
    writer.put(rt, Item::Octets(octets));
    notices.sign(gate, Sign::Put);
}

/// Counts a reply, if it has any octets.
fn count_reply<N: Notices>(notices: &N, octets: &[u8]) {
    if !octets.is_empty() {
        notices.count(Event::Replied { octets });
    }
}

/// Reads a gateway's messages and hands each on, until it ends, and says so.
pub(crate) fn read_gate<W: Wait, R: Records, J: Naming, I: Read, C: Clock + Copy, N: Notices>(
    rt: &W,
    alloc: Global,
    plan: &Plan,
    identity: &Identity,
    shards: &Shards<R, J>,
    clock: &C,
    notices: &N,
    input: &mut I,
    reader: &mut Reader,
) -> ConnectionEnd
    ensures { ReadsOut C.tells clock.now (record { plan = plan.now; identity = identity.now }) shards.now.count result (I.remaining input.old) (I.remaining input.new)
        reader.old reader.new }
{
    let gate = reader.gate.saturating_add(1);
    let mut judge = Judge {
        alloc,
        plan,
        identity,
        shards,
        notices,
        reader,
    };
    let mut clock = *clock;
    let end = read_side(rt, alloc, input, &mut clock, &mut judge, TURNS);
    judge.reader.end(rt);
    notices.tell(rt, Notice::Read { gate, end });
    end
}
