//! A top-up's words: the moment that is left out, an amount outside its limits, and a ticket that was used before.

use dcc_act::{MAX_AMOUNT, Sub};
use dcc_client::Call;
use dcc_operator::{Page, TopUpAsk};
use dcc_program::{CallAsk, Failure, Place, Task, call_at, page, task_of};
use dcc_startup::Stores;
use dcc_tariff::LAST_SECOND;
use dcc_words::parts;
use std::alloc::Global;
use std::fs;
use std::hash::RandomState;
use std::net::{Net, SocketAddrV4, TcpListener, TcpStream};
use std::random::RandomSource;
use std::rt::Files;
use std::time::Clock;

/// The words of a command line; those of a top-up without its moment end with the clock's.
pub(crate) fn with_moment<R: Clock + AllocGlobal>(
    rt: &R,
    words: Vec<String>,
) -> Result<Vec<String>, Failure> {
    let alloc = rt.alloc();
    let mut words = words;
    if !is_top_up(words.as_slice()) || is_use(alloc, words.as_slice())? {
        return Ok(words);
    }
    let seconds = rt.since_1970()?.as_secs().min(LAST_SECOND);
    words.push(format!(in alloc; "{seconds}")?)?;
    if !is_use(alloc, words.as_slice())? {
        let _moment = words.pop();
    }
    Ok(words)
}

fn is_top_up(words: &[String]) -> bool {
    match words.get(1) {
        Some(name) => name.as_str() == "topup",
        None => false,
    }
}

/// Whether the words ask for something.
fn is_use(alloc: Global, words: &[String]) -> Result<bool, Failure> {
    match task_of(alloc, words) {
        Ok(_) => Ok(true),
        Err(Failure::Usage) => Ok(false),
        Err(failure) => Err(failure),
    }
}

/// Why a top-up that the words ask for adds nothing: its amount is outside its limits, or its ticket was used before, with the first amount and
/// moment. The ledger is read before the top-up is made. A fault of its reading is the top-up's too, and is reported there.
pub(crate) fn nothing_added<R: Files + RandomSource + AllocGlobal, S: Stores>(
    rt: &R,
    words: &[String],
    stores: &S,
) -> Option<String> {
    match task_of(rt.alloc(), words) {
        Ok(Task::TopUp(place, ask)) => {
            let found = if ask.amount < 1 || ask.amount > MAX_AMOUNT {
                amount_words(rt.alloc(), ask.amount)
            } else {
                used_ticket(rt, stores, place, ask)
            };
            match found {
                Ok(words) => words,
                Err(_) => None,
            }
        }
        _ => None,
    }
}

/// What is known of a top-up for which a server was asked: its amount is outside its limits, or the entry of its ticket, which the server then sends with
/// the ledger. An entry with another amount was there before. Nothing is known if this call fails.
pub(crate) fn entry_at<R: Net<Listener = TcpListener, Stream = TcpStream> + Clock + AllocGlobal>(
    rt: &R,
    ask: &CallAsk,
) -> Option<String> {
    match ask.call {
        Call::TopUp {
            sub,
            ticket,
            amount,
        } => {
            let found = if amount < 1 || amount > MAX_AMOUNT {
                amount_words(rt.alloc(), amount)
            } else {
                ticket_at(rt, ask.address, sub, ticket, amount)
            };
            match found {
                Ok(words) => words,
                Err(_) => None,
            }
        }
        _ => None,
    }
}

fn ticket_at<R: Net<Listener = TcpListener, Stream = TcpStream> + Clock + AllocGlobal>(
    rt: &R,
    address: SocketAddrV4,
    sub: Sub,
    ticket: u64,
    amount: u64,
) -> Result<Option<String>, Failure> {
    let alloc = rt.alloc();
    let mut text = Vec::new(alloc);
    let ask = CallAsk {
        address,
        call: Call::Ledger(sub),
    };
    call_at(rt, &ask, &mut text)?;
    line_with(alloc, text.as_slice(), ticket, Some(amount))
}

fn amount_words(alloc: Global, amount: u64) -> Result<Option<String>, Failure> {
    Ok(Some(format!(in alloc; "dcc: AMOUNT is {amount}; it has to be 1 to {MAX_AMOUNT}\n")?))
}

fn used_ticket<R: Files + RandomSource + AllocGlobal, S: Stores>(
    rt: &R,
    stores: &S,
    place: Place<'_>,
    ask: TopUpAsk,
) -> Result<Option<String>, Failure> {
    let alloc = rt.alloc();
    let hasher = RandomState::new(rt)?;
    let mut file = fs::open(rt, place.plan)?;
    let mut text = Vec::new(alloc);
    page(
        alloc,
        &mut file,
        stores,
        place.folder,
        Page::Ledger,
        ask.sub,
        &mut text,
        hasher,
    )?;
    line_with(alloc, text.as_slice(), ask.ticket, None)
}

/// The entry of a ticket in a ledger, in words. With an amount the entry may be that of a top-up that was just made.
fn line_with(
    alloc: Global,
    page: &[u8],
    ticket: u64,
    amount: Option<u64>,
) -> Result<Option<String>, Failure> {
    let end = format!(in alloc; " ticket {ticket}")?;
    let lines = parts(alloc, page, b'\n')?;
    for line in &lines {
        if line.ends_with(end.as_bytes()) {
            return entry_words(alloc, line, ticket, amount);
        }
    }
    Ok(None)
}

/// An entry's moment and amount: its second word, and the one that begins with a plus.
fn entry_words(
    alloc: Global,
    line: &[u8],
    ticket: u64,
    asked: Option<u64>,
) -> Result<Option<String>, Failure> {
    let Ok(line) = str::from_utf8(line) else {
        return Ok(None);
    };
    let moment = line.split_ascii_whitespace().nth(1).unwrap_or("");
    let amount = line
        .split_ascii_whitespace()
        .find(|word| word.starts_with('+'))
        .unwrap_or("");
    if let Some(asked) = asked {
        let own = format!(in alloc; "+{asked}")?;
        if own.as_str() == amount {
            return Ok(Some(format!(in alloc;
                "dcc: ticket {ticket} counts once, for {amount} at {moment}\n"
            )?));
        }
    }
    Ok(Some(format!(in alloc;
        "dcc: ticket {ticket} was used before, for {amount} at {moment}: nothing was added\n"
    )?))
}
