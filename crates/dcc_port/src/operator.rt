//! The operator of one connection.

ghost use Rattle.std.specs.Prelude.{◌≡◌, OnOk, OnErr};
ghost use Rattle.http_server.specs.Response.{IsBlank};
ghost use Rattle.dcc_port.specs.Answers.{Answers, BacksUp, IsUnsaid, PortView, Responds};
ghost use Rattle.dcc_port.specs.Requests.{call_for};
ghost use Rattle.dcc_port.specs.Sheets.{IsSheet, Sheet};

use crate::asking::{account, health, ledger, metrics};
use crate::backup::{back_up, put_backup};
use crate::call::Call;
use crate::port::{Port, Server};
use crate::reading::call_for;
use crate::sheet::{put_flaw, put_short};
use crate::sweeping::sweep;
use crate::texts::{put_stop, put_sweep};
use crate::top_up::top_up;
use crate::top_ups::top_ups;
use bytes::Bytes;
use dcc_connect::Clock;
use dcc_running::{Naming, Seat};
use dcc_store::Records;
use http::Request;
use http_server::{Response, Service};
use std::alloc::{AllocError, Global};
use std::sync::Wait;

/// Who answers the calls of a connection.
#[derive(Drop)]
pub(crate) struct Operator<'a, 'c, 'e, 's, W: Wait, R: Records, J: Naming, C: Clock, S: Server> {
    pub rt: &'a W,
    pub alloc: Global,
    pub port: &'a Port<'a, R, J>,
    pub clock: &'c mut C,
    pub server: &'e mut S,
    pub seat: &'s mut Seat,
}

impl<'a, 'c, 'e, 's, W: Wait, R: Records, J: Naming, C: Clock, S: Server> Service
    for Operator<'a, 'c, 'e, 's, W, R, J, C, S> {
    ghost use Rattle.std.specs.Prelude.{◌≡◌};
    ghost use Rattle.dcc_port.specs.Answers.{PortView, Serves};
    ghost use Rattle.dcc_port.specs.Requests.{call_for};

    ghost answers = { λ old request response new.
        Serves R.is_stopped C.tells S.rules old.port.now.count J.opening (call_for request)
        (record { clock = old.clock.now; seat = old.seat.now; server = old.server.now }) response
        (record { clock = new.clock.now; seat = new.seat.now; server = new.server.now })
        × (new.port ≡ old.port) × (new.clock.ghost_name ≡ old.clock.ghost_name) × (new.server.ghost_name ≡ old.server.ghost_name)
        × (new.seat.ghost_name ≡ old.seat.ghost_name) };

    fn call(
        &mut self,
        request: &Request<Bytes>,
        response: &mut Response,
    ) -> Result<(), AllocError> {
        let before = self.seat.receipts().len();
        self.respond(request, response);
        let shards = self.port.shards;
        self.server
            .audit(self.rt, self.alloc, shards, self.seat, before);
        Ok(())
    }
}

impl<'a, 'c, 'e, 's, W: Wait, R: Records, J: Naming, C: Clock, S: Server> Operator<
    'a,
    'c,
    'e,
    's,
    W,
    R,
    J,
    C,
    S,
> {
    /// Responds to a request by the answer to its call. If memory is short, the response says so.
    fn respond(&mut self, request: &Request<Bytes>, response: &mut Response)
        requires { IsBlank response.old }
        ensures response { Responds R.is_stopped C.tells S.rules self.old.port.now.count (call_for request.now)
            (record { clock = self.old.clock.now; seat = self.old.seat.now; server = self.old.server.now }) response.new
            (record { clock = self.new.clock.now; seat = self.new.seat.now; server = self.new.server.now }) }
        ensures port { self.new.port ≡ self.old.port }
        ensures clock { self.new.clock.ghost_name ≡ self.old.clock.ghost_name }
        ensures server { self.new.server.ghost_name ≡ self.old.server.ghost_name }
        ensures seat { self.new.seat.ghost_name ≡ self.old.seat.ghost_name }
    {
        let Ok(call) = call_for(self.alloc, request) else {
            put_short(response);
            return;
        };
        let answered = self.answer(&call, response);
        // By a call: a call that is let go in place is proved part by part.
        drop(call);
        if answered.is_err() {
            put_short(response);
        }
    }

    /// Answers a call. The only error is want of memory: then nothing was done, or a sweep or a backup was.
    fn answer(&mut self, call: &Call, response: &mut Response) -> Result<(), AllocError>
        requires { IsBlank response.old }
        ensures answer { OnOk result ((sheet : Sheet) × IsSheet sheet response.new
            × Answers R.is_stopped C.tells S.rules self.old.port.now.count call.now
            (record { clock = self.old.clock.now; seat = self.old.seat.now; server = self.old.server.now }) sheet
            (record { clock = self.new.clock.now; seat = self.new.seat.now; server = self.new.server.now })) }
        ensures unsaid { OnErr result (IsUnsaid R.is_stopped C.tells S.rules self.old.port.now.count call.now
            (record { clock = self.old.clock.now; seat = self.old.seat.now; server = self.old.server.now })
            (record { clock = self.new.clock.now; seat = self.new.seat.now; server = self.new.server.now })) }
        ensures port { self.new.port ≡ self.old.port }
        ensures clock { self.new.clock.ghost_name ≡ self.old.clock.ghost_name }
        ensures server { self.new.server.ghost_name ≡ self.old.server.ghost_name }
        ensures seat { self.new.seat.ghost_name ≡ self.old.seat.ghost_name }
    {
        match call {
            Call::Health => health(self.rt, self.alloc, self.port, response),
            Call::Metrics => metrics(self.rt, self.alloc, self.port, &*self.server, response),
            Call::Account(sub) => account(self.rt, self.alloc, self.port, *sub, response),
            Call::Ledger(sub) => ledger(self.rt, self.alloc, self.port, *sub, response),
            Call::TopUp {
                sub,
                ticket,
                amount,
            } => top_up(
                self.rt, self.alloc, self.port, self.clock, self.seat, *sub, *ticket, *amount,
                response,
            ),
            Call::TopUps(asks) => top_ups(
                self.rt,
                self.alloc,
                self.port,
                self.clock,
                self.seat,
                asks.as_slice(),
                response,
            ),
            Call::Sweep => self.sweep(response),
            Call::Backup(folder) => self.back_up(folder.as_slice(), response),
            Call::Stop => self.stop(response),
            Call::Flawed(flaw) => put_flaw(self.alloc, response, *flaw),
        }
    }

    /// Ends all due sessions, and writes how many.
    fn sweep(&mut self, response: &mut Response) -> Result<(), AllocError>
        requires { IsBlank response.old }
        ensures answer { OnOk result ((sheet : Sheet) × IsSheet sheet response.new
            × Answers R.is_stopped C.tells S.rules self.old.port.now.count Call.Sweep
            (record { clock = self.old.clock.now; seat = self.old.seat.now; server = self.old.server.now }) sheet
            (record { clock = self.new.clock.now; seat = self.new.seat.now; server = self.new.server.now })) }
        ensures unsaid { OnErr result (IsUnsaid R.is_stopped C.tells S.rules self.old.port.now.count Call.Sweep
            (record { clock = self.old.clock.now; seat = self.old.seat.now; server = self.old.server.now })
            (record { clock = self.new.clock.now; seat = self.new.seat.now; server = self.new.server.now })) }
        ensures port { self.new.port ≡ self.old.port }
        ensures clock { self.new.clock.ghost_name ≡ self.old.clock.ghost_name }
        ensures server { self.new.server.ghost_name ≡ self.old.server.ghost_name }
        ensures seat { self.new.seat.ghost_name ≡ self.old.seat.ghost_name }
    {
        let swept = sweep(
            self.rt,
            self.alloc,
            self.port,
            self.clock,
            &*self.server,
            self.seat,
        )?;
        put_sweep(self.alloc, response, swept)
    }

    /// Copies the stores of the shards into a folder, and writes how that ended.
    fn back_up(&mut self, folder: &[u8], response: &mut Response) -> Result<(), AllocError>
        requires { IsBlank response.old }
        ensures answer { OnOk result ((sheet : Sheet) × IsSheet sheet response.new
            × BacksUp R S.rules self.old.port.now.count folder.now
            (record { clock = self.old.clock.now; seat = self.old.seat.now; server = self.old.server.now }) sheet
            (record { clock = self.new.clock.now; seat = self.new.seat.now; server = self.new.server.now })) }
        ensures unsaid { OnErr result ((sheet : Sheet) × BacksUp R S.rules self.old.port.now.count folder.now
            (record { clock = self.old.clock.now; seat = self.old.seat.now; server = self.old.server.now }) sheet
            (record { clock = self.new.clock.now; seat = self.new.seat.now; server = self.new.server.now })) }
        ensures port { self.new.port ≡ self.old.port }
        ensures clock { self.new.clock.ghost_name ≡ self.old.clock.ghost_name }
        ensures server { self.new.server.ghost_name ≡ self.old.server.ghost_name }
        ensures seat { self.new.seat.ghost_name ≡ self.old.seat.ghost_name }
    {
        let end = back_up(self.rt, self.port, self.server, folder);
        put_backup(self.alloc, response, folder, self.port.count, end)
    }

    /// Tells the server to end, once the answer is written.
    fn stop(&mut self, response: &mut Response) -> Result<(), AllocError>
        requires { IsBlank response.old }
        ensures answer { OnOk result ((sheet : Sheet) × IsSheet sheet response.new
            × Answers R.is_stopped C.tells S.rules self.old.port.now.count Call.Stop
            (record { clock = self.old.clock.now; seat = self.old.seat.now; server = self.old.server.now }) sheet
            (record { clock = self.new.clock.now; seat = self.new.seat.now; server = self.new.server.now })) }
        ensures unsaid { OnErr result (IsUnsaid R.is_stopped C.tells S.rules self.old.port.now.count Call.Stop
            (record { clock = self.old.clock.now; seat = self.old.seat.now; server = self.old.server.now })
            (record { clock = self.new.clock.now; seat = self.new.seat.now; server = self.new.server.now })) }
        ensures port { self.new.port ≡ self.old.port }
        ensures clock { self.new.clock.ghost_name ≡ self.old.clock.ghost_name }
        ensures server { self.new.server.ghost_name ≡ self.old.server.ghost_name }
        ensures seat { self.new.seat.ghost_name ≡ self.old.seat.ghost_name }
    {
        put_stop(response)?;
        self.server.end(self.rt);
        Ok(())
    }
}
