//! Top-ups.

ghost use Rattle.std.specs.Prelude.{◌≡◌, ◌++◌, ◌≤◌, ◌+◌, length, vec_len, vec_capacity, OnOk, OnErr};
ghost use Rattle.http_server.specs.Response.{IsBlank};
ghost use Rattle.dcc_port.specs.Answers.{IsToppedUp, told_sheet, told_status, told_text};
ghost use Rattle.dcc_port.specs.Sheets.{IsSheet, Sheet};

use crate::port::Port;
use crate::sheet::{Kind, make_room, put_reserved};
use dcc_act::Sub;
use dcc_connect::Clock;
use dcc_running::{Naming, Seat};
use dcc_shard::TopUpAnswer;
use dcc_store::Records;
use http::StatusCode;
use http_server::Response;
use std::alloc::{AllocError, Global};
use std::sync::Wait;

/// The most octets of the text of an answer to a top-up.
const MOST_TOLD: usize = 18;

/// Makes a top-up at the clock's moment, and writes its answer. The room for the answer is taken first. The only error is want of memory: then
/// nothing was done.
pub(crate) fn top_up<W: Wait, R: Records, J: Naming, C: Clock>(
    rt: &W,
    alloc: Global,
    port: &Port<'_, R, J>,
    clock: &mut C,
    seat: &mut Seat,
    sub: Sub,
    ticket: u64,
    amount: u64,
    response: &mut Response,
) -> Result<(), AllocError>
    requires { IsBlank response.old }
    ensures told { OnOk result ((sheet : Sheet) × IsSheet sheet response.new
        × IsToppedUp C.tells sub ticket amount (clock.old, seat.old) sheet (clock.new, seat.new)) }
    ensures clock { OnErr result (clock.new ≡ clock.old) }
    ensures seat { OnErr result (seat.new ≡ seat.old) }
{
    make_room(response, MOST_TOLD)?;
    let moment = clock.moment();
    let answer = port
        .shards
        .top_up(rt, alloc, seat, sub, moment, ticket, amount);
    put_told(response, answer);
    Ok(())
}

/// Writes the answer to a top-up. The condition: there is room for it.
fn put_told(response: &mut Response, answer: TopUpAnswer)
    requires blank { IsBlank response.old }
    requires field { vec_len response.old.headers + 1 ≤ vec_capacity response.old.headers }
    requires text { MOST_TOLD ≤ response.old.body.spare }
    ensures { IsSheet (told_sheet answer) response.new }
{
    put_reserved(response, told_status(answer), Kind::Json, told_text(answer));
}

fn told_status(answer: TopUpAnswer) -> StatusCode
    ensures { result ≡ told_status answer }
{
    match answer {
        TopUpAnswer::Done { .. } | TopUpAnswer::Ceiling { .. } => StatusCode::OK,
        TopUpAnswer::BadAmount => StatusCode::BAD_REQUEST,
        TopUpAnswer::Refused => StatusCode::SERVICE_UNAVAILABLE,
    }
}

fn told_text(answer: TopUpAnswer) -> &'static [u8]
    ensures value { result.now ≡ told_text answer }
    ensures short { length result.now ≤ MOST_TOLD }
{
    match answer {
        TopUpAnswer::Done { .. } => b"{\"told\":\"done\"}",
        TopUpAnswer::Ceiling { .. } => b"{\"told\":\"ceiling\"}",
        TopUpAnswer::BadAmount => b"{\"told\":\"bad\"}",
        TopUpAnswer::Refused => b"{\"told\":\"refused\"}",
    }
}
