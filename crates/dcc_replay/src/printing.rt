//! The printed form of the outs of a run.

ghost use Rattle.std.specs.Prelude.{◌≡◌, ◌++◌, ◌==◌, ◌||◌, ◌∷◌, [], true, OnOk, IfOk, map, codes, string_bytes, not, length};
ghost use Rattle.dcc_octets.specs.Names.{are_visible};
ghost use Rattle.dcc_replay.specs.Printed.{answered, closed, topped_up, refused_of, all_refused, refused, told, numbered, lines_of_out, printed};

use dcc_act::Sub;
use dcc_engine::Out;
use std::alloc::{AllocError, Global};
use std::fmt::Write;
use std::str;

/// The printed form of the outs of a run, whose events are numbered from 1. An event has a line for each of these that it has: the
/// answer's octets in hexadecimal digits, the end of its peer's connection, the answer to a top-up, each subscriber whose expiry a
/// sweep refused. An event without any of them has a dash. The only error is want of memory.
pub fn printed(alloc: Global, outs: &[Out]) -> Result<String, AllocError>
    ensures { IfOk result (λ text. string_bytes text ≡ printed outs.now) }
{
    let mut text = String::new(alloc);
    for (i, out) in outs.iter().enumerate() {
        put_out(&mut text, alloc, i as u64 + 1, out)?;
    }
    Ok(text)
}

/// Appends the lines of one event.
fn put_out(text: &mut String, alloc: Global, n: u64, out: &Out) -> Result<(), AllocError>
    ensures { OnOk result (string_bytes text.new ≡ string_bytes text.old ++ lines_of_out n out.now) }
{
    let has_answer = put_answer(text, alloc, n, out)?;
    let has_closing = put_closing(text, n, out)?;
    let has_told = put_told(text, n, out)?;
    if !has_answer && !has_closing && !has_told {
        writeln!(text, "{n} -")?;
    }
    Ok(())
}

/// Appends the line of the answer, if there is one, and returns whether there is.
#[tactic(auto, unfolding(crate::specs::Printed::answered))]
fn put_answer(text: &mut String, alloc: Global, n: u64, out: &Out) -> Result<bool, AllocError>
    ensures line { OnOk result (string_bytes text.new ≡ string_bytes text.old ++ numbered n (answered out.now)) }
    ensures some { IfOk result (λ some. some ≡ not (length (answered out.now) == 0)) }
{
    let Some(peer) = out.peer else {
        return Ok(false);
    };
    if out.octets.as_slice().is_empty() {
        return Ok(false);
    }
    let octets = hex::encode(alloc, out.octets.as_slice())?;
    writeln!(text, "{n} answer {peer} {octets}")?;
    Ok(true)
}

/// Appends the line of the closing, if the peer is closed, and returns whether it is.
#[tactic(auto, unfolding(crate::specs::Printed::closed))]
fn put_closing(text: &mut String, n: u64, out: &Out) -> Result<bool, AllocError>
    ensures line { OnOk result (string_bytes text.new ≡ string_bytes text.old ++ numbered n (closed out.now)) }
    ensures some { IfOk result (λ some. some ≡ not (length (closed out.now) == 0)) }
{
    let Some(peer) = out.peer else {
        return Ok(false);
    };
    if !out.close {
        return Ok(false);
    }
    writeln!(text, "{n} close {peer}")?;
    Ok(true)
}

/// Appends the lines of a top-up or of a sweep, and returns whether there are any.
fn put_told(text: &mut String, n: u64, out: &Out) -> Result<bool, AllocError>
    ensures line { OnOk result (string_bytes text.new ≡ string_bytes text.old ++ numbered n (told out.now)) }
    ensures some { IfOk result (λ some. some ≡ not (length (told out.now) == 0)) }
{
    let has_top_up = put_top_up(text, n, out)?;
    let has_refused = put_refused(text, n, out)?;
    Ok(is_either(has_top_up, has_refused))
}

/// Appends the line of the answer to a top-up, if the event was a top-up, and returns whether it was.
#[tactic(auto, unfolding(crate::specs::Printed::topped_up))]
fn put_top_up(text: &mut String, n: u64, out: &Out) -> Result<bool, AllocError>
    ensures line { OnOk result (string_bytes text.new ≡ string_bytes text.old ++ numbered n (topped_up out.now)) }
    ensures some { IfOk result (λ some. some ≡ not (length (topped_up out.now) == 0)) }
{
    let Some(answer) = out.top_up else {
        return Ok(false);
    };
    let word = answer.word();
    writeln!(text, "{n} topup {word}")?;
    Ok(true)
}

/// Appends the lines of the subscribers whose expiry a sweep refused, and returns whether there are any.
fn put_refused(text: &mut String, n: u64, out: &Out) -> Result<bool, AllocError>
    ensures line { OnOk result (string_bytes text.new ≡ string_bytes text.old ++ numbered n (refused out.now)) }
    ensures some { IfOk result (λ some. some ≡ not (length (refused out.now) == 0)) }
{
    let subs = out.refused.as_slice();
    put_subs(text, n, subs)?;
    put_all(text, n, out)?;
    Ok(is_either(!subs.is_empty(), out.refused_all))
}

/// Whether one of the two holds.
fn is_either(first: bool, second: bool) -> bool
    ensures { result ≡ (first || second) }
{
    first || second
}

/// Appends a line for each subscriber whose expiry was refused.
fn put_subs(text: &mut String, n: u64, subs: &[Sub]) -> Result<(), AllocError>
    ensures { OnOk result (string_bytes text.new ≡ string_bytes text.old ++ numbered n (map refused_of subs.now)) }
{
    for sub in subs {
        put_sub(text, n, sub)?;
    }
    Ok(())
}

fn put_sub(text: &mut String, n: u64, sub: &Sub) -> Result<(), AllocError>
    ensures { OnOk result (string_bytes text.new ≡ string_bytes text.old ++ numbered n (refused_of sub.now ∷ [])) }
{
    let kind = sub.kind();
    let name = name_of(sub);
    writeln!(text, "{n} refused {kind}:{name}")?;
    Ok(())
}

fn put_refusal(text: &mut String, n: u64, whose: &str) -> Result<(), AllocError>
    ensures { OnOk result (string_bytes text.new ≡ string_bytes text.old ++ numbered n ((codes "refused " ++ whose.now) ∷ [])) }
{
    writeln!(text, "{n} refused {whose}")?;
    Ok(())
}

/// The data of a subscriber.
fn name_of(sub: &Sub) -> &str
    ensures { result.now ≡ sub.now.name }
{
    text_of(sub.name())
}

/// Visible characters of ASCII, as text.
fn text_of(octets: &[u8]) -> &str
    requires { are_visible octets.now ≡ true }
    ensures { result.now ≡ octets.now }
{
    match str::from_utf8(octets) {
        Ok(text) => text,
        Err(_) => "",
    }
}

/// Appends the line for the refusal of all expiries, if all were refused.
fn put_all(text: &mut String, n: u64, out: &Out) -> Result<(), AllocError>
    ensures { OnOk result (string_bytes text.new ≡ string_bytes text.old ++ numbered n (all_refused out.now)) }
{
    if !out.refused_all {
        return Ok(());
    }
    put_refusal(text, n, "all")
}
