//! `dcc serve PLAN DIR`, over the stores of a folder and the network of the system.

ghost use Rattle.std.specs.Prelude.{IfErr, None, OnOk};
ghost use Rattle.std.specs.Io.KnownBytes.{Appends};
ghost use Rattle.std.specs.declared.net.SocketAddr.{SocketAddr};
ghost use Rattle.dcc_program.specs.Servings.{listening_line, IsTellingBegun, IsServed, IsServedBegun, IsServedOver};
ghost use Rattle.dcc_sockets.specs.declared.clock.SystemClock.{SystemClock};
ghost use Rattle.dcc_sockets.specs.declared.gateway.Input.{Input};
ghost use Rattle.dcc_sockets.specs.declared.gateway.Output.{Output};

use crate::command_line::ServeAsk;
use crate::failure::Failure;
use crate::opening::open_shards;
use crate::plan_file::plan_from;
use dcc_operator::OperatorFault;
use dcc_replay::identity_of;
use dcc_rounds::{Service, serve_run};
use dcc_sockets::{
    AuditReports, Backing, Calls, Closing, Door, Input, NoticeLines, Output, Staying, SystemClock,
    remove_stop,
};
use dcc_startup::Stores;
use dcc_streams::write_all;
use dcc_tariff::Plan;
use std::alloc::{AllocError, Global};
use std::hash::RandomState;
use std::io::{Eprint, Write};
use std::net::{Net, SocketAddr, SocketAddrV4, TcpListener, TcpStream};
use std::random::RandomSource;
use std::rt::Files;
use std::sync::Wait;
use std::thread::Threads;
use std::time::Clock;
use std::{fs, io};

/// Serves under the plan that the file gives, over the stores of the folder, at an address. Writes the address at which it
/// listens, and then the line of each round. The plan is judged first, then the stores, which are made if they are missing, then the
/// address, and all of them before anything is written.
pub fn serve<
    R: Files
        + RandomSource
        + Net<Listener = TcpListener, Stream = TcpStream>
        + Threads
        + Wait
        + Clock
        + Eprint
        + Sync
        + AllocGlobal,
    S: Stores + Sync,
    W: Write,
>(rt: &R, stores: &S, ask: &ServeAsk<'_>, output: &mut W) -> Result<(), Failure>
    ensures served { OnOk result (IsServedOver (λ (input : Input R). None) (λ (output : Output R). None) (λ (before : SystemClock R) moment after. Unit {0}) (Unit {0}) (λ before after. Unit {0})
        (S.opens stores.now ask.now.place.folder.now) S.Records.is_stopped S.Records.may_leave ask.now.rounds (W.contents output.old) (W.contents output.new)) }
    ensures whole { OnOk result (IsServed ask.now.rounds.rounds (W.contents output.old) (W.contents output.new)) }
    ensures part { IfErr result (IsServedBegun (λ (input : Input R). None) (λ (output : Output R). None) (λ (before : SystemClock R) moment after. Unit {0}) (Unit {0}) (λ before after. Unit {0})
        (S.opens stores.now ask.now.place.folder.now) S.Records.is_stopped S.Records.may_leave ask.now.rounds (W.contents output.old) (W.contents output.new)) }
{
    let alloc = rt.alloc();
    let hasher = RandomState::new(rt)?;
    let mut file = fs::open(rt, ask.place.plan)?;
    let plan = plan_from(alloc, &mut file)?;
    accept_losses(stores, ask, &plan);
    let served = serve_under(rt, stores, &plan, hasher, ask, output);
    keep_counts(rt, stores, ask, &plan, served.is_ok());
    // By a call: a plan that is let go in place is proved part by part.
    drop(plan);
    served
}

/// Serves under a plan.
fn serve_under<
    R: Net<Listener = TcpListener, Stream = TcpStream>
        + Threads
        + Wait
        + Clock
        + Eprint
        + Sync
        + AllocGlobal,
    S: Stores + Sync,
    W: Write,
>(
    rt: &R,
    stores: &S,
    plan: &Plan,
    hasher: RandomState,
    ask: &ServeAsk<'_>,
    output: &mut W,
) -> Result<(), Failure>
    ensures served { OnOk result (IsServedOver (λ (input : Input R). None) (λ (output : Output R). None) (λ (before : SystemClock R) moment after. Unit {0}) (Unit {0}) (λ before after. Unit {0})
        (S.opens stores.now ask.now.place.folder.now) S.Records.is_stopped S.Records.may_leave ask.now.rounds (W.contents output.old) (W.contents output.new)) }
    ensures whole { OnOk result (IsServed ask.now.rounds.rounds (W.contents output.old) (W.contents output.new)) }
    ensures part { IfErr result (IsServedBegun (λ (input : Input R). None) (λ (output : Output R). None) (λ (before : SystemClock R) moment after. Unit {0}) (Unit {0}) (λ before after. Unit {0})
        (S.opens stores.now ask.now.place.folder.now) S.Records.is_stopped S.Records.may_leave ask.now.rounds (W.contents output.old) (W.contents output.new)) }
{
    let alloc = rt.alloc();
    let stop = stop_path(alloc, ask)?;
    let identity = identity_of(alloc, plan)?;
    let opened = open_shards(
        rt,
        alloc,
        stores,
        ask.place.folder,
        plan,
        &identity,
        hasher,
        ask.rounds.gates(),
    );
    let (shards, meters) = match opened {
        Ok(opened) => opened,
        Err(refusal) => {
            // By a call, here and below: values that are let go in place are proved part by part.
            drop((identity, stop));
            return Err(Failure::from(OperatorFault::from(refusal)));
        }
    };
    let closing = Closing::new();
    let staying = ask.sweep.map(|sweep| Staying {
        closing: &closing,
        stop: stop.as_str(),
        sweep,
    });
    forget_stop(ask, stop.as_str());
    // One value: the borrow checker doesn't cover a door that refers to two values of this function.
    let counted = (meters, AuditReports::new());
    let backing = Backing {
        meters: &counted.0,
        audits: &counted.1,
        stores,
        folder: ask.place.folder,
    };
    let mut door = match open_door(rt, alloc, ask, staying, backing, hasher, output) {
        Ok(door) => door,
        Err(failure) => {
            drop((shards, counted));
            drop((identity, stop));
            return Err(failure);
        }
    };
    let clock = SystemClock::new(rt);
    let notices = NoticeLines::new(rt, &counted.0, &counted.1);
    let service = Service {
        plan,
        identity: &identity,
        clock: &clock,
        notices: &notices,
        hasher,
    };
    let served = serve_run::<
        R,
        S::Records,
        Input<'_, R>,
        Output<'_, R>,
        Door<'_, R, S>,
        SystemClock<'_, R>,
        NoticeLines<'_, R>,
        W,
    >(rt, alloc, &service, shards, &mut door, output, &ask.rounds);
    forget_stop(ask, stop.as_str());
    drop((door, notices));
    drop((counted, identity, stop));
    Ok(served?)
}

/// Accepts the losses of the stores of a plan's shards, if the words ask for that.
fn accept_losses<S: Stores>(stores: &S, ask: &ServeAsk<'_>, plan: &Plan) {
    if !ask.accepts_loss {
        return;
    }
    for shard in 0..usize::from(plan.shards()) {
        stores.accept_loss(ask.place.folder, shard);
    }
}

/// Copies the log of each shard's store into its database, and keeps the number of its acts, after a quiet end. The stores are closed by then.
fn keep_counts<R: Eprint, S: Stores>(
    rt: &R,
    stores: &S,
    ask: &ServeAsk<'_>,
    plan: &Plan,
    is_quiet: bool,
) {
    if !is_quiet {
        return;
    }
    for shard in 0..usize::from(plan.shards()) {
        if stores.keep_count(ask.place.folder, shard).is_err() {
            let _lost = rt.eprintln(format_args!(
                "dcc: shard {shard}: the number of its acts was not kept"
            ));
        }
    }
}

/// The path of the file that asks a server that stays to end: `stop` in the folder of the stores.
fn stop_path(alloc: Global, ask: &ServeAsk<'_>) -> Result<String, AllocError> {
    format!(in alloc; "{}/stop", ask.place.folder)
}

/// Removes the file that asks a server that stays to end, if it is there.
fn forget_stop(ask: &ServeAsk<'_>, stop: &str) {
    if ask.sweep.is_some() {
        let _was_there = remove_stop(stop);
    }
}

/// Listens at an address, and writes the address at which the server listens.
fn open_door<'r, N: Net<Listener = TcpListener, Stream = TcpStream> + Eprint, S: Stores, W: Write>(
    rt: &'r N,
    alloc: Global,
    ask: &ServeAsk<'_>,
    staying: Option<Staying<'r>>,
    backing: Backing<'r, S>,
    hasher: RandomState,
    output: &mut W,
) -> Result<Door<'r, N, S>, Failure>
    ensures whole { OnOk result ((address : SocketAddr) × Appends (W.contents output.old) (W.contents output.new) (listening_line address)) }
    ensures part { IfErr result (IsTellingBegun (W.contents output.old) (W.contents output.new)) }
{
    let calls = match ask.operator {
        Some(address) => Some(open_calls(rt, address, hasher)?),
        None => None,
    };
    // No `?`: it is not proved if a value holds a reference beside a struct with a model.
    let door = match Door::bind(rt, alloc, ask.address, backing, ask.silence, staying, calls) {
        Ok(door) => door,
        Err(error) => return Err(Failure::from(error)),
    };
    match tell_door(alloc, &door, output) {
        Ok(()) => Ok(door),
        Err(failure) => {
            // By a call: a door that is let go in place is proved part by part.
            drop(door);
            Err(failure)
        }
    }
}

/// Listens for operators at an address, and reports it on standard error. A line that cannot be written is left out.
fn open_calls<N: Net<Listener = TcpListener, Stream = TcpStream> + Eprint>(
    rt: &N,
    address: SocketAddrV4,
    hasher: RandomState,
) -> io::Result<Calls> {
    let calls = Calls::bind(rt, address, hasher)?;
    let found = calls.address()?;
    let _lost = rt.eprintln(format_args!("dcc: operators at {found}"));
    Ok(calls)
}

/// Writes the address at which a door listens.
fn tell_door<N: Net<Listener = TcpListener, Stream = TcpStream>, S: Stores, W: Write>(
    alloc: Global,
    door: &Door<'_, N, S>,
    output: &mut W,
) -> Result<(), Failure>
    ensures whole { OnOk result ((address : SocketAddr) × Appends (W.contents output.old) (W.contents output.new) (listening_line address)) }
    ensures part { IfErr result (IsTellingBegun (W.contents output.old) (W.contents output.new)) }
{
    let found = door.address()?;
    tell_address(alloc, found, output)
}

/// Writes the address at which the server listens.
fn tell_address<W: Write>(alloc: Global, address: SocketAddr, output: &mut W) -> Result<(), Failure>
    ensures whole { OnOk result (Appends (W.contents output.old) (W.contents output.new) (listening_line address)) }
    ensures part { IfErr result (IsTellingBegun (W.contents output.old) (W.contents output.new)) }
{
    let line = format!(in alloc; "listening {address}\n")?;
    Ok(write_all(output, line.as_bytes())?)
}
