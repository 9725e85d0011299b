//! Sweeps.

ghost use Rattle.std.specs.Prelude.{◌≡◌, ◌≤◌, ◌<◌, OnErr, IfOk, length};
ghost use Rattle.dcc_port.specs.Answers.{AreAllSubs, ArePiecesSwept, IsSwept};
ghost use Rattle.dcc_running.specs.Batches.{CountsEach};

use crate::port::{Port, Server};
use dcc_act::{Moment, Sub};
use dcc_connect::Clock;
use dcc_running::{Naming, Seat, Tally};
use dcc_store::Records;
use std::alloc::{AllocError, Global};
use std::sync::Wait;

/// Of at most so many subscribers of a shard the due sessions are ended together, under one lock and by one append.
pub(crate) const MOST_AT_ONCE: usize = 64;

/// What a sweep came to.
#[derive(Clone, Copy)]
pub(crate) struct Swept {
    pub tally: Tally,
    /// Whether no subscriber was left out.
    pub whole: bool,
}

/// Ends the due sessions of each subscriber of each shard, at the clock's moment, piece by piece. It ends early if the server is to end. It waits for the
/// shards' locks. The only error is want of memory: then nothing was done.
pub(crate) fn sweep<W: Wait, R: Records, J: Naming, C: Clock, S: Server>(
    rt: &W,
    alloc: Global,
    port: &Port<'_, R, J>,
    clock: &mut C,
    server: &S,
    seat: &mut Seat,
) -> Result<Swept, AllocError>
    ensures swept { IfOk result (λ swept. IsSwept C.tells S.rules port.now.count server.now (clock.old, seat.old) swept (clock.new, seat.new)) }
    ensures clock { OnErr result (clock.new ≡ clock.old) }
    ensures seat { OnErr result (seat.new ≡ seat.old) }
{
    let subs = all_subs(rt, alloc, port)?;
    let moment = clock.moment();
    Ok(end_pieces(rt, alloc, port, server, seat, subs.as_slice(), moment))
}

/// The subscribers of each shard. The only error is want of memory.
fn all_subs<W: Wait, R: Records, J: Naming>(
    rt: &W,
    alloc: Global,
    port: &Port<'_, R, J>,
) -> Result<Vec<Sub>, AllocError>
    ensures { IfOk result (λ subs. AreAllSubs port.now.count subs.items) }
{
    let mut all = Vec::new(alloc);
    for shard in 0..port.count {
        let subs = port.shards.subs(rt, alloc, shard)?;
        all.extend_from_slice(subs.as_slice())?;
    }
    Ok(all)
}

/// Ends the due sessions of these subscribers, piece by piece, until the server is to end.
fn end_pieces<W: Wait, R: Records, J: Naming, S: Server>(
    rt: &W,
    alloc: Global,
    port: &Port<'_, R, J>,
    server: &S,
    seat: &mut Seat,
    subs: &[Sub],
    moment: Moment,
) -> Swept
    ensures { ArePiecesSwept S.rules server.now moment subs.now seat.old result seat.new }
{
    let mut tally = Tally::none();
    let mut at = 0;
    while at < subs.len() {
        if server.is_ended() {
            return Swept {
                tally,
                whole: false,
            };
        }
        let len = piece_len(port, &subs[at..]);
        let piece = &subs[at..at + len];
        let part = end_piece(rt, alloc, port, seat, piece, moment);
        tally = tally.sum(part);
        at += len;
    }
    Swept { tally, whole: true }
}

/// The number of the first subscribers that one shard keeps, up to [`MOST_AT_ONCE`].
fn piece_len<R: Records, J: Naming>(port: &Port<'_, R, J>, subs: &[Sub]) -> usize
    requires { 0 < length subs.now }
    ensures some { 0 < result }
    ensures few { result ≤ MOST_AT_ONCE }
    ensures within { result ≤ length subs.now }
{
    let shard = port.shards.index_of(&subs[0]);
    let mut len = 1;
    while len < subs.len() && len < MOST_AT_ONCE && port.shards.index_of(&subs[len]) == shard {
        len += 1;
    }
    len
}

/// Ends the due sessions of these subscribers, together if they are different and of one shard.
fn end_piece<W: Wait, R: Records, J: Naming>(
    rt: &W,
    alloc: Global,
    port: &Port<'_, R, J>,
    seat: &mut Seat,
    subs: &[Sub],
    moment: Moment,
) -> Tally
    ensures { CountsEach moment subs.now seat.old seat.new result }
{
    if port.shards.is_one_batch(subs) {
        port.shards.expire_all(rt, alloc, seat, subs, moment)
    } else {
        port.shards.expire_each(rt, alloc, seat, subs, moment)
    }
}
