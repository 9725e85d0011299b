//! An answer's octets: its header, its AVPs, and behind these the proxies of its request.

ghost use Rattle.std.specs.Prelude.{◌≡◌, ◌++◌, ◌≤◌, drop, length, replicate, vec_len, IfOk};
ghost use Rattle.dcc_message.specs.Headers.{message};
ghost use Rattle.dcc_answer.specs.Answers.{answer_header as header_of_answer};
ghost use Rattle.dcc_answer.specs.Proxies.{SpellProxies};
ghost use Rattle.dcc_answer.specs.Sizes.{Grows};

use crate::proxies::Proxies;
use dcc_message::{HEADER_LENGTH, Header, begin_message, command_flags, finish_message};
use std::alloc::{AllocError, Global};

/// The octets that are reserved for an answer at first. Most answers fit.
const ROOM: usize = 256;

/// The most octets of an answer without its proxies: they and the proxies fit the three octets of a message's length.
pub const MAX_OWN: usize = 100_000;

/// The most octets of an answer with its proxies, which together have fewer.
pub const MAX_ANSWER: usize = 200_000;

/// Begins an answer: room for its header, behind which its AVPs are appended. The only error is want of memory.
pub fn begin_answer(alloc: Global) -> Result<Vec<u8>, AllocError>
    ensures items { IfOk result (λ begun. begun.items ≡ replicate HEADER_LENGTH 0) }
    ensures len { IfOk result (λ begun. vec_len begun ≡ HEADER_LENGTH) }
{
    begin_message(alloc, ROOM)
}

/// Finishes an answer whose AVPs stand behind the room for a header, each with its padding. They have at most 100,000
/// octets. The request's proxies go behind them. The header is the request's with these bits beside P. The only error is
/// want of memory.
#[tactic(auto, using(crate::proofs::Appended::behind_header))]
pub fn finish_answer(
    mut begun: Vec<u8>,
    request: &Header,
    bits: u8,
    proxies: &Proxies,
) -> Result<Vec<u8>, AllocError>
    requires { Grows HEADER_LENGTH (vec_len begun) MAX_OWN }
    ensures octets { IfOk result (λ answer. answer.items
        ≡ message (header_of_answer request.now bits) (drop HEADER_LENGTH begun.items ++ proxies.now)) }
    ensures bounded { IfOk result (λ answer. length answer.items ≤ MAX_ANSWER) }
    ensures spelled { SpellProxies proxies.now }
{
    begun.extend_from_slice(proxies.as_slice())?;
    finish_message(&mut begun, &answer_header(request, bits));
    Ok(begun)
}

/// The header of an answer: its flags are P of the request, and these bits.
fn answer_header(request: &Header, bits: u8) -> Header
    ensures { result ≡ header_of_answer request.now bits }
{
    Header {
        length: request.length,
        flags: request.flags & command_flags::PROXIABLE | bits,
        code: request.code,
        app: request.app,
        hop: request.hop,
        end_to_end: request.end_to_end,
    }
}
