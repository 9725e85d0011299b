//! The top-ups of a text, a line for each.

ghost use Rattle.std.specs.Prelude.{◌≡◌, map, IfOk};
ghost use Rattle.dcc_words.specs.Words.{words_of};
ghost use Rattle.dcc_port.specs.Lines.{ask_at, ask_of_words, asks_of, is_remark, slip_at, slip_in, slip_of_words};

use crate::call::{Ask, Asks, LineSlip};
use dcc_words::{any_u64, parts, sub};
use std::alloc::{AllocError, Global};

/// The top-ups of a text, in order, or the number of the first line that is none, from 1. A line has the words `SUB TICKET AMOUNT`. An empty line, and a
/// line that begins with `#`, has no top-up. The only error is want of memory.
pub(crate) fn read_asks(alloc: Global, text: &[u8]) -> Result<Result<Asks, u64>, AllocError>
    ensures { IfOk result (λ asks. asks ≡ asks_of text.now) }
{
    let lines = parts(alloc, text, b'\n')?;
    let mut asks = Asks::new(alloc);
    for (i, line) in lines.iter().enumerate() {
        if is_remark(line) {
            continue;
        }
        match read_ask(alloc, line)? {
            Some(ask) => asks.push(ask)?,
            None => return Ok(Err(i as u64 + 1)),
        }
    }
    Ok(Ok(asks))
}

/// Whether a line holds no top-up: it is empty, or begins with `#`.
fn is_remark(line: &[u8]) -> bool
    ensures { result ≡ is_remark line.now }
{
    match line {
        [] => true,
        [first, ..] => *first == b'#',
    }
}

/// The top-up of a line, if it has the form. The only error is want of memory.
fn read_ask(alloc: Global, line: &[u8]) -> Result<Option<Ask>, AllocError>
    ensures { IfOk result (λ ask. ask ≡ ask_of_words (words_of line.now)) }
{
    let words = parts(alloc, line, b' ')?;
    Ok(ask_of_words(words.as_slice()))
}

/// The top-up of a line's words, if they have the form.
#[tactic(auto, unfolding(crate::specs::Lines::ask_of_words))]
fn ask_of_words(words: &[&[u8]]) -> Option<Ask>
    ensures { result ≡ ask_of_words (map (λ word. word.now) words.now) }
{
    match words {
        [sub, ticket, amount] => ask_at(sub, ticket, amount),
        _ => None,
    }
}

/// The slip of the line of a text with this number, from 1. The only error is want of memory.
#[tactic(auto, unfolding(crate::specs::Lines::slip_in))]
pub(crate) fn slip_in(alloc: Global, text: &[u8], number: u64) -> Result<LineSlip, AllocError>
    ensures { IfOk result (λ slip. slip ≡ slip_in text.now number) }
{
    let lines = parts(alloc, text, b'\n')?;
    match lines.get((number as usize).saturating_sub(1)) {
        Some(line) => slip_of(alloc, line),
        None => Ok(LineSlip::Count),
    }
}

/// The slip of a line. The only error is want of memory.
fn slip_of(alloc: Global, line: &[u8]) -> Result<LineSlip, AllocError>
    ensures { IfOk result (λ slip. slip ≡ slip_of_words (words_of line.now)) }
{
    let words = parts(alloc, line, b' ')?;
    Ok(slip_of_words(words.as_slice()))
}

/// The slip of words that are no top-up: their number, or else the first one that is not read.
#[tactic(auto, unfolding(crate::specs::Lines::slip_of_words))]
fn slip_of_words(words: &[&[u8]]) -> LineSlip
    ensures { result ≡ slip_of_words (map (λ word. word.now) words.now) }
{
    match words {
        [who, ticket, _amount] => slip_at(who, ticket),
        _ => LineSlip::Count,
    }
}

/// The first word of these that is not read, or else the word behind them.
fn slip_at(who: &[u8], ticket: &[u8]) -> LineSlip
    ensures { result ≡ slip_at who.now ticket.now }
{
    if sub(who).is_none() {
        LineSlip::Subscriber
    } else if any_u64(ticket).is_none() {
        LineSlip::Ticket
    } else {
        LineSlip::Amount
    }
}

/// The top-up of these words.
#[tactic(auto, unfolding(crate::specs::Lines::ask_at))]
fn ask_at(who: &[u8], ticket: &[u8], amount: &[u8]) -> Option<Ask>
    ensures { result ≡ ask_at who.now ticket.now amount.now }
{
    Some(Ask {
        sub: sub(who)?,
        ticket: any_u64(ticket)?,
        amount: any_u64(amount)?,
    })
}
