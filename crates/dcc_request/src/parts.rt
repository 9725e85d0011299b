//! The parts of one kind in a list of AVPs, each read from its AVP.

ghost use Rattle.std.specs.Prelude.{◌≡◌, filter};
ghost use Rattle.dcc_request.specs.Answers.{Gives};
ghost use Rattle.dcc_request.specs.Refusals.{each};

use crate::stop::Stop;
use dcc_avp::Avp;
use std::alloc::Global;

/// Parts of one kind: the AVPs that hold such a part, and the part that an AVP holds.
pub trait Parts<'a> {
    ghost use Rattle.std.specs.Prelude.{Bool, Result};
    ghost use Rattle.dcc_avp.specs.Spelling.{AvpView};
    ghost use Rattle.dcc_request.specs.Refusals.{Refusal};

    /// A part of this kind.
    type Part: Drop;

    /// Whether an AVP holds such a part.
    ghost holds: { Self → AvpView → Bool };

    /// The part that an AVP holds, or the refusal of the AVP.
    ghost part_of: { AvpView → Result Self.Part Refusal };

    /// Whether an AVP holds such a part.
    fn holds(&self, avp: &Avp<'a>) -> bool
        ensures { result ≡ holds self.now avp.now };

    /// The part that an AVP holds, or the refusal of the AVP.
    fn read(&self, alloc: Global, avp: &Avp<'a>) -> Result<Self::Part, Stop<'a>>
        ensures { Gives (λ part. part) result (part_of avp.now) };
}

/// The parts of one kind in a list, in their order; or the refusal of the first that can't be read.
pub fn read_each<'a, P: Parts<'a>>(
    alloc: Global,
    kind: &P,
    avps: &[Avp<'a>],
) -> Result<Vec<P::Part>, Stop<'a>>
    ensures { Gives (λ parts. parts.items) result (each P.part_of (filter (P.holds kind.now) avps.now)) }
{
    let mut parts = Vec::new(alloc);
    for avp in avps {
        if kind.holds(avp) {
            parts.push(kind.read(alloc, avp)?)?;
        }
    }
    Ok(parts)
}
