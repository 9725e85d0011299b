//! Outs, and the octets of an answer in an out.

ghost use Rattle.std.specs.Prelude.{◌≡◌, [], true, false, Some};
ghost use Rattle.dcc_shard.specs.Answers.{octets_of};
ghost use Rattle.dcc_engine.specs.Asks.{out_octets, out_reply, out_top_up, out_sweep};

use crate::event::Out;
use crate::subs::Subs;
use dcc_base::Reply;
use dcc_octets::OctetString;
use dcc_shard::{RequestAnswer, TopUpAnswer};
use std::alloc::Global;

/// An out that sends a peer an answer; nothing if there are no octets.
pub(crate) fn sending(alloc: Global, peer: u32, octets: OctetString) -> Out
    ensures { result ≡ out_octets (Some peer) octets }
{
    Out {
        peer: Some(peer),
        octets,
        close: false,
        top_up: None,
        refused: Subs::new(alloc),
        refused_all: false,
    }
}

/// An out that sends nothing.
pub(crate) fn quiet(alloc: Global, peer: u32) -> Out
    ensures { result ≡ out_octets (Some peer) [] }
{
    sending(alloc, peer, OctetString::new(alloc))
}

/// An out of a peer's reply.
pub(crate) fn replying(alloc: Global, peer: u32, reply: Reply) -> Out
    ensures { result ≡ out_reply peer reply }
{
    Out {
        peer: Some(peer),
        octets: reply.octets,
        close: reply.close,
        top_up: None,
        refused: Subs::new(alloc),
        refused_all: false,
    }
}

/// An out of the answer to a top-up.
pub(crate) fn telling(alloc: Global, answer: TopUpAnswer) -> Out
    ensures { result ≡ out_top_up answer }
{
    Out {
        peer: None,
        octets: OctetString::new(alloc),
        close: false,
        top_up: Some(answer),
        refused: Subs::new(alloc),
        refused_all: false,
    }
}

/// An out of a sweep, with the subscribers whose expiry was refused; `refused_all` if it was refused for all.
pub(crate) fn sweeping(alloc: Global, refused: Subs, refused_all: bool) -> Out
    ensures { result ≡ out_sweep refused refused_all }
{
    Out {
        peer: None,
        octets: OctetString::new(alloc),
        close: false,
        top_up: None,
        refused,
        refused_all,
    }
}

/// The octets of an answer; no octets if there is no answer.
pub(crate) fn octets_of(alloc: Global, answer: RequestAnswer) -> OctetString
    ensures { result ≡ octets_of answer }
{
    match answer {
        RequestAnswer::Done { octets, .. }
        | RequestAnswer::Unknown { octets }
        | RequestAnswer::Busy { octets } => octets,
        RequestAnswer::Silent => OctetString::new(alloc),
    }
}
