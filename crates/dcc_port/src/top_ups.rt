//! Many top-ups.

ghost use Rattle.std.specs.Prelude.{◌≡◌, ◌++◌, ◌≤◌, ◌+◌, ◌*◌, [], length, vec_len, vec_capacity, OnOk, OnErr};
ghost use Rattle.std.specs.List.{FoldsTo};
ghost use Rattle.http_server.specs.Response.{IsBlank};
ghost use Rattle.dcc_port.specs.Answers.{AreToppedUp, TopsUp, told_line};
ghost use Rattle.dcc_port.specs.Sheets.{IsSheet, Sheet};

use crate::call::Ask;
use crate::port::Port;
use crate::sheet::{Kind, make_room, put_reserved};
use dcc_act::Moment;
use dcc_connect::Clock;
use dcc_running::{Naming, Seat};
use dcc_shard::TopUpAnswer;
use dcc_store::Records;
use http::StatusCode;
use http_server::Response;
use std::alloc::{AllocError, Global};
use std::sync::Wait;

/// The most octets of the line of an answer.
const MOST_LINE: usize = 8;

/// Makes these top-ups at the clock's moment, one after another, and writes their answers, a line each. The room for all answers is taken first. The
/// only error is want of memory: then nothing was done.
pub(crate) fn top_ups<W: Wait, R: Records, J: Naming, C: Clock>(
    rt: &W,
    alloc: Global,
    port: &Port<'_, R, J>,
    clock: &mut C,
    seat: &mut Seat,
    asks: &[Ask],
    response: &mut Response,
) -> Result<(), AllocError>
    requires { IsBlank response.old }
    ensures told { OnOk result ((sheet : Sheet) × IsSheet sheet response.new
        × AreToppedUp C.tells asks.now (clock.old, seat.old) sheet (clock.new, seat.new)) }
    ensures clock { OnErr result (clock.new ≡ clock.old) }
    ensures seat { OnErr result (seat.new ≡ seat.old) }
{
    let most = asks.len().checked_mul(MOST_LINE).ok_or(AllocError)?;
    let mut text = Vec::with_capacity(alloc, most)?;
    make_room(response, most)?;
    let moment = clock.moment();
    make_each(rt, alloc, port, seat, asks, moment, &mut text);
    put_reserved(response, StatusCode::OK, Kind::Plain, text.as_slice());
    Ok(())
}

/// Makes these top-ups, and writes their answers into a text. The condition: the text is empty, and has room for them.
fn make_each<W: Wait, R: Records, J: Naming>(
    rt: &W,
    alloc: Global,
    port: &Port<'_, R, J>,
    seat: &mut Seat,
    asks: &[Ask],
    moment: Moment,
    text: &mut Vec<u8>,
)
    requires empty { text.old.items ≡ [] }
    requires room { length asks.now * MOST_LINE ≤ vec_capacity text.old }
    ensures made { FoldsTo (TopsUp moment) (seat.old, []) asks.now (seat.new, text.new.items) }
    ensures few { vec_len text.new ≤ length asks.now * MOST_LINE }
{
    for ask in asks {
        let answer = port
            .shards
            .top_up(rt, alloc, seat, ask.sub, moment, ask.ticket, ask.amount);
        put_line(text, answer);
    }
}

/// Adds the answer to a top-up to a text. The condition: there is room for it.
fn put_line(text: &mut Vec<u8>, answer: TopUpAnswer)
    requires { vec_len text.old + MOST_LINE ≤ vec_capacity text.old }
    ensures line { text.new.items ≡ text.old.items ++ told_line answer }
    ensures few { vec_len text.new ≤ vec_len text.old + MOST_LINE }
    ensures capacity { vec_capacity text.old ≤ vec_capacity text.new }
{
    let Ok(()) = text.extend_from_slice(told_line(answer)) else {
        unreachable!()
    };
}

/// The answer to a top-up, in a line.
fn told_line(answer: TopUpAnswer) -> &'static [u8]
    ensures value { result.now ≡ told_line answer }
    ensures short { length result.now ≤ MOST_LINE }
{
    match answer {
        TopUpAnswer::Done { .. } => b"done\n",
        TopUpAnswer::Ceiling { .. } => b"ceiling\n",
        TopUpAnswer::BadAmount => b"bad\n",
        TopUpAnswer::Refused => b"refused\n",
    }
}
