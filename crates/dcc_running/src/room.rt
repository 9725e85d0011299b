//! An answer twice, one for its receipt and one for its caller, in memory that is taken before the call.

ghost use Rattle.std.specs.Prelude.{◌≡◌, ◌≤◌, ◌+◌, ◌<◌, [], length, OnOk, vec_capacity};
ghost use Rattle.dcc_answer.specs.declared.answer.TheConstants.{MAX_ANSWER};

use dcc_answer::MAX_ANSWER;
use dcc_octets::OctetString;
use std::alloc::{AllocError, Global};

/// Empty room for the octets of any answer.
#[derive(Debug, Drop)]
pub(crate) struct Spare {
    octets: Vec<u8>,
    ghost empty: { octets.items ≡ [] },
    ghost roomy: { MAX_ANSWER ≤ vec_capacity octets },
}

impl Spare {
    /// Empty room. The only error is want of memory.
    fn new(alloc: Global) -> Result<Spare, AllocError> {
        Ok(Spare {
            octets: Vec::with_capacity(alloc, MAX_ANSWER)?,
        })
    }

    /// A copy of octets in this room. The condition: an answer may have so many.
    fn filled(self, octets: &OctetString) -> OctetString
        requires { length octets.now ≤ MAX_ANSWER }
        ensures { result ≡ octets.now }
    {
        let Spare { octets: mut room } = self;
        room.extend_from_slice(octets.as_slice()).unwrap();
        OctetString::from_vec(room)
    }
}

/// Adds spare rooms, up to so many in all, if they aren't there from a call before. The only error is want of memory.
pub(crate) fn add_spares(
    alloc: Global,
    spares: &mut Vec<Spare>,
    count: usize,
) -> Result<(), AllocError>
    ensures { OnOk result (count ≤ length spares.new.items) }
{
    for _at in spares.len()..count {
        spares.push(Spare::new(alloc)?)?;
    }
    Ok(())
}

/// An answer for its receipt and for its caller. The receipt lives long, so it has the copy, which takes no more than the octets want;
/// where memory for one is refused, the caller has one in a spare room, which is used up by it. The conditions: there is a spare room, and the
/// octets are those of an answer.
pub(crate) fn twice(spares: &mut Vec<Spare>, octets: OctetString) -> (OctetString, OctetString)
    requires spare { 0 < length spares.old.items }
    requires bounded { length octets ≤ MAX_ANSWER }
    ensures kept { result.0 ≡ octets }
    ensures told { result.1 ≡ octets }
    ensures spares { length spares.old.items ≤ length spares.new.items + 1 }
{
    if let Ok(copy) = octets.copy() {
        return (copy, octets);
    }
    let Some(spare) = spares.pop() else {
        unreachable!()
    };
    let told = spare.filled(&octets);
    (octets, told)
}
