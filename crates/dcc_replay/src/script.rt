//! The events of a script.

ghost use Rattle.std.specs.Prelude.{◌≡◌, ◌<◌, map, length, IfOk, IfErr, OnOk, Ok, Err, ◌⊎◌};
ghost use Rattle.dcc_replay.specs.Scripts.{connected, opened, disconnected, arrived, topped_up, swept, event_of, is_remark, script_of, IsFaultOf};
ghost use Rattle.dcc_words.specs.Words.{words_of};
ghost use Rattle.dcc_replay.specs.declared.script.ScriptFault.TheVariants as fault;

use dcc_engine::Event;
use dcc_words::{any_u64, hex_octets, host, moment, parts, peer, sub};
use std::alloc::{AllocError, AllocFailed, Global};

/// The reason for which a script has no events.
#[derive(Clone, Copy, Debug, PartialEq, Eq)]
pub enum ScriptFault {
    /// The line with this number, from 1, has none of the forms.
    Line(u64),
    /// Memory was short.
    Memory,
}

impl From<AllocError> for ScriptFault {
    ghost from_gives = { λ _ given. given ≡ fault.Memory };

    fn from(_error: AllocError) -> ScriptFault {
        ScriptFault::Memory
    }
}

impl<T: Drop> From<AllocFailed<T>> for ScriptFault {
    ghost from_gives = { λ _ given. given ≡ fault.Memory };

    fn from(_error: AllocFailed<T>) -> ScriptFault {
        ScriptFault::Memory
    }
}

/// The events of a script, in order.
///
/// Errors: [`ScriptFault::Line`], the first line that has none of the forms; [`ScriptFault::Memory`], memory was short.
pub fn read_script(alloc: Global, text: &[u8]) -> Result<Vec<Event>, ScriptFault>
    ensures ok { IfOk result (λ events. script_of text.now ≡ Ok events.items) }
    ensures err { IfErr result (IsFaultOf (script_of text.now)) }
{
    let lines = parts(alloc, text, b'\n')?;
    let mut events = Vec::new(alloc);
    for (i, line) in lines.iter().enumerate() {
        if is_remark(line) {
            continue;
        }
        match read_event(alloc, line)? {
            Some(event) => events.push(event)?,
            None => return Err(ScriptFault::Line(i as u64 + 1)),
        }
    }
    Ok(events)
}

/// Whether a line holds no event: it is empty, or begins with `#`.
fn is_remark(line: &[u8]) -> bool
    ensures { result ≡ is_remark line.now }
{
    match line {
        [] => true,
        [first, ..] => *first == b'#',
    }
}

/// The event of a line, if it has one of the forms.
fn read_event(alloc: Global, line: &[u8]) -> Result<Option<Event>, AllocError>
    ensures { IfOk result (λ event. event ≡ event_of (words_of line.now)) }
{
    let words = parts(alloc, line, b' ')?;
    event_of(alloc, words.as_slice())
}

#[tactic(auto, unfolding(crate::specs::Scripts::event_of))]
fn event_of(alloc: Global, words: &[&[u8]]) -> Result<Option<Event>, AllocError>
    ensures { IfOk result (λ event. event ≡ event_of (map (λ word. word.now) words.now)) }
{
    let Some((verb, words)) = words.split_first() else {
        return Ok(None);
    };
    let verb = *verb;
    if verb == b"connect".as_slice() {
        Ok(connected(words))
    } else if verb == b"open".as_slice() {
        opened(alloc, words)
    } else if verb == b"disconnect".as_slice() {
        Ok(disconnected(words))
    } else if verb == b"message".as_slice() {
        arrived(alloc, words)
    } else if verb == b"topup".as_slice() {
        Ok(topped_up(words))
    } else if verb == b"sweep".as_slice() {
        Ok(swept(words))
    } else {
        Ok(None)
    }
}

/// `connect P`
#[tactic(auto, unfolding(crate::specs::Scripts::connected))]
fn connected(words: &[&[u8]]) -> Option<Event>
    ensures { result ≡ connected (map (λ word. word.now) words.now) }
{
    let [word] = words else {
        return None;
    };
    Some(Event::Connect {
        peer: peer(word)?,
        host: None,
    })
}

/// `open P HOST`
#[tactic(auto, unfolding(crate::specs::Scripts::opened))]
fn opened(alloc: Global, words: &[&[u8]]) -> Result<Option<Event>, AllocError>
    ensures { IfOk result (λ event. event ≡ opened (map (λ word. word.now) words.now)) }
{
    let [first, second] = words else {
        return Ok(None);
    };
    let Some(peer) = peer(first) else {
        return Ok(None);
    };
    let Some(host) = host(alloc, second)? else {
        return Ok(None);
    };
    Ok(Some(Event::Connect {
        peer,
        host: Some(host),
    }))
}

/// `disconnect P`
#[tactic(auto, unfolding(crate::specs::Scripts::disconnected))]
fn disconnected(words: &[&[u8]]) -> Option<Event>
    ensures { result ≡ disconnected (map (λ word. word.now) words.now) }
{
    let [word] = words else {
        return None;
    };
    Some(Event::Disconnect { peer: peer(word)? })
}

/// `message P MOMENT HEX`
#[tactic(auto, unfolding(crate::specs::Scripts::arrived))]
fn arrived(alloc: Global, words: &[&[u8]]) -> Result<Option<Event>, AllocError>
    ensures { IfOk result (λ event. event ≡ arrived (map (λ word. word.now) words.now)) }
{
    let [first, second, third] = words else {
        return Ok(None);
    };
    let (Some(peer), Some(moment)) = (peer(first), moment(second)) else {
        return Ok(None);
    };
    let Some(octets) = hex_octets(alloc, third)? else {
        return Ok(None);
    };
    Ok(Some(Event::Message {
        peer,
        moment,
        octets,
    }))
}

/// `topup MOMENT SUB TICKET AMOUNT`
#[tactic(auto, unfolding(crate::specs::Scripts::topped_up))]
fn topped_up(words: &[&[u8]]) -> Option<Event>
    ensures { result ≡ topped_up (map (λ word. word.now) words.now) }
{
    let [first, second, third, fourth] = words else {
        return None;
    };
    Some(Event::TopUp {
        moment: moment(first)?,
        sub: sub(second)?,
        ticket: any_u64(third)?,
        amount: any_u64(fourth)?,
    })
}

/// `sweep MOMENT`
#[tactic(auto, unfolding(crate::specs::Scripts::swept))]
fn swept(words: &[&[u8]]) -> Option<Event>
    ensures { result ≡ swept (map (λ word. word.now) words.now) }
{
    let [word] = words else {
        return None;
    };
    Some(Event::Sweep {
        moment: moment(word)?,
    })
}
