//! All rounds of a server.

ghost use Rattle.std.specs.Prelude.{◌≡◌, ◌≤◌, List, length, IfErr, OnOk};
ghost use Rattle.dcc_running.specs.Books.{AreShards};
ghost use Rattle.dcc_rounds.specs.Lines.{AreTold, EndsWith};
ghost use Rattle.dcc_rounds.specs.Served.{AreServed, EndsServing, IsGoodRound, is_any_stopped};
ghost use Rattle.dcc_shard.specs.Stored.{StoredView};

use crate::face::{Listener, Notices, Shut};
use crate::fault::ServeFault;
use crate::line::write_line;
use crate::round::serve_round;
use crate::rounds::Rounds;
use dcc_connect::Clock;
use dcc_message::Identity;
use dcc_shard::Shard;
use dcc_store::Records;
use dcc_tariff::Plan;
use std::alloc::Global;
use std::hash::RandomState;
use std::io::{Read, Write};
use std::sync::Wait;
use std::thread::Threads;

/// The means by which a server answers, and its notices.
#[derive(Drop)]
pub struct Service<'a, C, N> {
    pub plan: &'a Plan,
    pub identity: &'a Identity,
    pub clock: &'a C,
    pub notices: &'a N,
    /// By which subscribers are found.
    pub hasher: RandomState,
}

/// Serves round after round over these shards, and writes the line of each, `round R requests Q answers A acts T`: so many
/// credit-control requests were handed to shards, so many answers went out whole, and so many acts were made in it. The conditions are
/// those of [`dcc_running::Shards::new`]: 1 to 8 shards, under these terms and for this server, each of which holds only subscribers
/// that [`dcc_shard::shard_of`] gives it.
///
/// A round accepts its gateways, serves them until all have ended, and compares the receipts of their answers with the books of the shards.
/// If its places are taken again ([`Rounds::staying`]), it begins without gateways. It ends when the listener takes no more connections in, all
/// gateways have gone, and all attendants have returned ([`Listener::attend`]); the receipts of the attendants are compared too. A fault of a
/// connection ends that connection alone. A shard whose records fail answers busy from then on, and the others go on. `serve_run` waits for
/// gateways, and for threads of its own.
///
/// Faults: [`ServeFault::Memory`], memory was short for a round; [`ServeFault::Io`], the output or the listener failed, behind the line of
/// the round if its places are taken again and the listener failed; [`ServeFault::Close`], receipts and books disagree, and no line is
/// written; [`ServeFault::Store`], 51, behind the line of the round in which the records of a shard failed.
pub fn serve_run<
    W: Threads + Wait + Sync,
    R: Records + Send + Sync + Drop,
    I: Read + Send + Drop,
    O: Shut + Send + Drop,
    L: Listener<I, O> + Sync,
    C: Clock + Copy + Sync,
    N: Notices + Sync,
    P: Write,
>(
    rt: &W,
    alloc: Global,
    service: &Service<'_, C, N>,
    shards: Vec<Shard<R>>,
    listener: &mut L,
    output: &mut P,
    rounds: &Rounds,
) -> Result<(), ServeFault>
    requires shards { AreShards service.now.plan.now.terms service.now.identity.now shards.items }
    requires some { 1 ≤ length shards.items }
    requires most { length shards.items ≤ 8 }
    ensures served { OnOk result ((last : List (StoredView R)) × AreServed (IsGoodRound I.remaining O.contents C.tells L.is_closed L.attends service.now.clock.now
        (record { plan = service.now.plan.now; identity = service.now.identity.now }) R.is_stopped R.may_leave rounds.now)
        rounds.now.rounds shards.items last (P.contents output.old) (P.contents output.new)) }
    ensures whole { OnOk result (AreTold rounds.now.rounds (P.contents output.old) (P.contents output.new)) }
    ensures part { IfErr result (λ fault. EndsWith fault rounds.now.rounds (P.contents output.old) (P.contents output.new)) }
    ensures cause { IfErr result (λ fault. EndsServing I.remaining O.contents C.tells L.is_closed L.attends service.now.clock.now
        (record { plan = service.now.plan.now; identity = service.now.identity.now }) R.is_stopped R.may_leave rounds.now fault shards.items
        (P.contents output.old) (P.contents output.new)) }
{
    let mut shards = shards;
    for round in 0..rounds.rounds {
        let (counts, next) = serve_round::<W, R, I, O, L, C, N>(
            rt, alloc, service, shards, listener, rounds,
        )?;
        match write_line(alloc, round.saturating_add(1), counts, output) {
            Ok(()) => {}
            Err(fault) => {
                // By a call, here and below: shards that are let go in place are proved part by part.
                drop(next);
                return Err(fault);
            }
        }
        if tell_stopped(rt, service.notices, next.as_slice()) {
            drop(next);
            return Err(ServeFault::Store(51));
        }
        if listener.has_failed() {
            drop(next);
            return Err(ServeFault::Io);
        }
        shards = next;
    }
    drop(shards);
    Ok(())
}

/// Whether a shard is stopped. It reports each stopped shard, also if the round's timer has reported it before.
fn tell_stopped<W: Wait, R: Records, N: Notices>(rt: &W, notices: &N, shards: &[Shard<R>]) -> bool
    ensures { result ≡ is_any_stopped R.is_stopped shards.now }
{
    let mut stopped = false;
    for shard in 0..shards.len() {
        if shards[shard].records().is_stopped() {
            notices.tell_stop(rt, shard);
            stopped = true;
        }
    }
    stopped
}
