//! The calls of one connection.

ghost use Rattle.std.specs.Prelude.{◌≡◌, OnOk};
ghost use Rattle.http_server.specs.History.{History, IsDone};
ghost use Rattle.dcc_port.specs.Serving.{IsServing};

use crate::operator::Operator;
use crate::port::{Port, Server};
use dcc_connect::Clock;
use dcc_running::{Naming, Seat, Shards};
use dcc_store::Records;
use http_server::{Config, Connection, serve};
use std::alloc::Global;
use std::hash::RandomState;
use std::io::{self, Read, Write};
use std::sync::Wait;

/// Answers the calls of one connection, one after another, until it ends: by HTTP/1.1, with heads of up to 16 KiB and bodies of up to 1 MiB. Each
/// call works on these shards, at the moments of the clock, and adds the receipts of its acts to the seat. Then the server may audit the seat
/// ([`Server::audit`]), before the answer is written. It may wait. The names of a request's fields are found by hashes under these keys.
///
/// The condition: there are so many shards.
///
/// Errors: those of the reader and the writer, and want of memory for what the reader sends. What was done before an error stands.
pub fn serve_calls<W: Wait, R: Records, J: Naming, C: Clock, S: Server, I: Read, O: Write>(
    rt: &W,
    alloc: Global,
    shards: &Shards<R, J>,
    count: usize,
    clock: &mut C,
    server: &mut S,
    seat: &mut Seat,
    keys: RandomState,
    reader: &mut I,
    writer: &mut O,
) -> io::Result<()>
    requires { count ≡ shards.now.count }
    ensures { (h : History) × OnOk result (IsDone h)
        × IsServing R.is_stopped C.tells S.rules J.opening count (I.remaining reader.old) (I.remaining reader.new)
        (O.contents writer.old) (O.contents writer.new)
        (record { clock = clock.old; seat = seat.old; server = server.old }) (record { clock = clock.new; seat = seat.new; server = server.new }) h }
{
    let port = Port { shards, count };
    // One answer at a time: so a call to stop is heard before the calls behind it.
    let config = Config {
        max_pending: 0,
        ..Config::default()
    };
    let mut connection = Connection::new(alloc, keys, config);
    let mut operator = Operator {
        rt,
        alloc,
        port: &port,
        clock,
        server,
        seat,
    };
    let served = serve(&mut connection, &mut operator, reader, writer);
    // By a call: a connection that is let go in place is proved part by part.
    drop(connection);
    served
}
