//! The top-ups of a text, a line for each.

ghost use Rattle.std.specs.Prelude.{◌≡◌, map, IfOk, IfErr, Some, Ok, Err};
ghost use Rattle.dcc_words.specs.Words.{words_of};
ghost use Rattle.dcc_operator.specs.Lines.{ask_at, ask_of, asks_of, is_remark, IsLineFault};
ghost use Rattle.dcc_operator.specs.declared.lines.LineFault.TheVariants as fault;

use crate::commands::TopUpAsk;
use dcc_act::Moment;
use dcc_words::{any_u64, moment, parts, sub};
use std::alloc::{AllocError, AllocFailed, Global};

/// The reason for which a text has no top-ups.
#[derive(Clone, Copy, Debug, PartialEq, Eq)]
pub enum LineFault {
    /// The line with this number, from 1, has neither form.
    Line(u64),
    /// Memory was short.
    Memory,
}

impl From<AllocError> for LineFault {
    ghost from_gives = { λ _ given. given ≡ fault.Memory };

    fn from(_error: AllocError) -> LineFault {
        LineFault::Memory
    }
}

impl<T: Drop> From<AllocFailed<T>> for LineFault {
    ghost from_gives = { λ _ given. given ≡ fault.Memory };

    fn from(_error: AllocFailed<T>) -> LineFault {
        LineFault::Memory
    }
}

/// The top-ups of a text, in order. A line has the words `SUB TICKET AMOUNT`, or `SUB TICKET AMOUNT MOMENT`. A top-up without a moment is at `now`.
/// An empty line, and a line that begins with `#`, has no top-up.
///
/// Errors: [`LineFault::Line`], the first line that has neither form; [`LineFault::Memory`], memory was short.
pub fn read_asks(alloc: Global, text: &[u8], now: Moment) -> Result<Vec<TopUpAsk>, LineFault>
    ensures ok { IfOk result (λ asks. asks_of now text.now ≡ Ok asks.items) }
    ensures err { IfErr result (IsLineFault (asks_of now text.now)) }
{
    let lines = parts(alloc, text, b'\n')?;
    let mut asks = Vec::new(alloc);
    for (i, line) in lines.iter().enumerate() {
        if is_remark(line) {
            continue;
        }
        match read_ask(alloc, line, now)? {
            Some(ask) => asks.push(ask)?,
            None => return Err(LineFault::Line(i as u64 + 1)),
        }
    }
    Ok(asks)
}

/// Whether a line holds no top-up: it is empty, or begins with `#`.
fn is_remark(line: &[u8]) -> bool
    ensures { result ≡ is_remark line.now }
{
    match line {
        [] => true,
        [first, ..] => *first == b'#',
    }
}

/// The top-up of a line, if it has one of the forms.
fn read_ask(alloc: Global, line: &[u8], now: Moment) -> Result<Option<TopUpAsk>, AllocError>
    ensures { IfOk result (λ ask. ask ≡ ask_of now (words_of line.now)) }
{
    let words = parts(alloc, line, b' ')?;
    Ok(ask_of(words.as_slice(), now))
}

/// The top-up of a line's words, if they have one of the forms.
#[tactic(auto, unfolding(crate::specs::Lines::ask_of))]
fn ask_of(words: &[&[u8]], now: Moment) -> Option<TopUpAsk>
    ensures { result ≡ ask_of now (map (λ word. word.now) words.now) }
{
    match words {
        [sub, ticket, amount] => ask_at(sub, ticket, amount, Some(now)),
        [sub, ticket, amount, word] => ask_at(sub, ticket, amount, moment(word)),
        _ => None,
    }
}

/// The top-up of these words, at this moment.
#[tactic(auto, unfolding(crate::specs::Lines::ask_at))]
fn ask_at(who: &[u8], ticket: &[u8], amount: &[u8], at: Option<Moment>) -> Option<TopUpAsk>
    ensures { result ≡ ask_at at who.now ticket.now amount.now }
{
    Some(TopUpAsk {
        sub: sub(who)?,
        ticket: any_u64(ticket)?,
        amount: any_u64(amount)?,
        moment: at?,
    })
}
