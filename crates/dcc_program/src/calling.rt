//! `dcc topup`, `dcc ledger` and `dcc balance` by a server that runs.

ghost use Rattle.std.specs.Prelude.{◌≡◌, ◌≢◌, IfErr, IfOk, IfSome, OnOk};
ghost use Rattle.std.specs.Io.KnownBytes.{Appends, Keeps};
ghost use Rattle.std.specs.Net.Text.{socket_v4_text};
ghost use Rattle.dcc_client.specs.Requests.{request_of};
ghost use Rattle.dcc_operator.specs.Ledgers.{unknown_line};
ghost use Rattle.dcc_program.specs.Callings.{IsCalled, sub_of, text_of, word_line};
ghost use Rattle.dcc_program.specs.declared.calling.CallFailure.TheVariants.{Output};

use crate::call_words::CallAsk;
use dcc_act::Sub;
use dcc_client::{Answer, Call, CallFault, Finding, Told};
use dcc_operator::{OperatorFault, balance_text, unknown_run};
use dcc_sockets::connect;
use dcc_streams::write_all;
use std::alloc::{AllocError, Global};
use std::io;
use std::io::{Read, Write};
use std::net::{Net, TcpListener, TcpStream};
use std::time::Clock;

/// Why the answer to a call was not printed.
#[derive(Clone, Copy)]
pub enum CallFailure {
    /// No connection to the server came about, for this reason.
    Connect(io::Error),
    /// The call has no finding. If its request was sent, the server may have done it.
    Call(CallFault),
    /// The call was done, and a beginning of its answer is printed, or nothing.
    Output,
    /// Memory was short, and nothing is printed. If a top-up was asked for, it may have been done.
    Memory,
}

impl From<AllocError> for CallFailure {
    fn from(_error: AllocError) -> CallFailure {
        CallFailure::Memory
    }
}

/// Calls a server, and prints its answer, as the same command prints it over a folder.
///
/// Errors: each of [`CallFailure`]. Nothing is printed unless it is [`CallFailure::Output`].
pub fn call_at<R: Net<Listener = TcpListener, Stream = TcpStream> + Clock + AllocGlobal, W: Write>(
    rt: &R,
    ask: &CallAsk,
    output: &mut W,
) -> Result<(), CallFailure>
    ensures silent { IfErr result (λ failure. failure ≢ Output → Keeps (W.contents output.old) (W.contents output.new)) }
{
    match connect(rt, ask.address) {
        Ok((mut answers, mut requests)) => print_call(
            rt.alloc(),
            ask,
            &mut answers,
            &mut requests,
            output,
        ),
        Err(error) => Err(CallFailure::Connect(error)),
    }
}

/// Sends a call's request, reads its answer, and prints the answer.
///
/// Errors: each of [`CallFailure`] but [`CallFailure::Connect`]. Nothing is printed unless it is [`CallFailure::Output`].
pub fn print_call<I: Read, O: Write, W: Write>(
    alloc: Global,
    ask: &CallAsk,
    answers: &mut I,
    requests: &mut O,
    output: &mut W,
) -> Result<(), CallFailure>
    ensures sent { OnOk result (Appends (O.contents requests.old) (O.contents requests.new) (request_of (socket_v4_text ask.now.address) ask.now.call)) }
    ensures printed { OnOk result (IfSome (I.remaining answers.old) (λ octets. IsCalled ask.now.call octets (W.contents output.old) (W.contents output.new))) }
    ensures silent { IfErr result (λ failure. failure ≢ Output → Keeps (W.contents output.old) (W.contents output.new)) }
{
    let address = ask.address;
    let host = format!(in alloc; "{address}")?;
    let call = ask.call;
    match dcc_client::ask(alloc, host.as_str(), &call, answers, requests) {
        Ok(answer) => {
            let printed = print_answer(alloc, &call, &answer, output);
            // By a call: an answer that is let go in place is proved part by part.
            drop(answer);
            printed
        }
        Err(fault) => Err(CallFailure::Call(fault)),
    }
}

/// Prints the answer to a call.
fn print_answer<W: Write>(
    alloc: Global,
    call: &Call,
    answer: &Answer,
    output: &mut W,
) -> Result<(), CallFailure>
    ensures whole { OnOk result (Appends (W.contents output.old) (W.contents output.new) (text_of call.now answer.now.finding answer.now.body.items)) }
    ensures silent { IfErr result (λ failure. failure ≢ Output → Keeps (W.contents output.old) (W.contents output.new)) }
{
    match answer.finding {
        Finding::Told(told) => print_text(word_line(alloc, told)?.as_slice(), output),
        Finding::Account(money) => {
            let lines = balance_text(
                alloc,
                money.funds,
                money.reserved,
                money.free,
                money.overrun,
            )?;
            print_text(lines.as_slice(), output)
        }
        Finding::Ledger => print_text(answer.body.as_slice(), output),
        Finding::Unknown => print_unknown(alloc, sub_of(call), output),
    }
}

/// The line of a top-up's answer. The only error is want of memory.
fn word_line(alloc: Global, told: Told) -> Result<Vec<u8>, AllocError>
    ensures { IfOk result (λ line. line.items ≡ word_line told) }
{
    let mut line = Vec::from_slice(alloc, told.word().as_bytes())?;
    line.extend_from_slice(b"\n")?;
    Ok(line)
}

/// Prints a text.
fn print_text<W: Write>(text: &[u8], output: &mut W) -> Result<(), CallFailure>
    ensures whole { OnOk result (Appends (W.contents output.old) (W.contents output.new) text.now) }
    ensures fault { IfErr result (λ failure. failure ≡ Output) }
{
    match write_all(output, text) {
        Ok(()) => Ok(()),
        Err(_) => Err(CallFailure::Output),
    }
}

/// Prints that a subscriber is unknown.
fn print_unknown<W: Write>(alloc: Global, sub: Sub, output: &mut W) -> Result<(), CallFailure>
    ensures whole { OnOk result (Appends (W.contents output.old) (W.contents output.new) (unknown_line sub)) }
    ensures silent { IfErr result (λ failure. failure ≢ Output → Keeps (W.contents output.old) (W.contents output.new)) }
{
    match unknown_run(alloc, sub, output) {
        Ok(()) => Ok(()),
        Err(OperatorFault::Output) => Err(CallFailure::Output),
        Err(_) => Err(CallFailure::Memory),
    }
}

/// The subscriber of a call.
fn sub_of(call: &Call) -> Sub
    ensures { result ≡ sub_of call.now }
{
    match call {
        Call::Account(sub) => *sub,
        Call::Ledger(sub) => *sub,
        Call::TopUp { sub, .. } => *sub,
    }
}
