//! Lists of AVPs, also of octets that spell none.

ghost use Rattle.std.specs.Prelude.{◌≡◌, ◌≤◌, Ok, Err, Some, length, IfOk, IfSome, IfNone};
ghost use Rattle.dcc_avp.specs.Reading.{Tells, avps_of};

use dcc_avp::{Avp, AvpFault, read_list};
use dcc_octets::u24_at;
use std::alloc::{AllocError, Global};

/// The octets of an AVP's code, flags and length (RFC 6733, section 4.1).
const LEAST: usize = 8;

/// AVPs in front of octets, as far as they can be read.
#[derive(Drop)]
pub(crate) struct Found<'a> {
    /// The AVPs, in order.
    pub(crate) avps: Vec<Avp<'a>>,
    /// Why there are no more of them, if octets are left.
    pub(crate) fault: Option<AvpFault>,
    /// The octets that are left.
    pub(crate) left: &'a [u8],
}

/// Reads a list as far as it can be read.
pub(crate) fn read_as_far(alloc: Global, octets: &[u8]) -> Result<Found<'_>, AllocError>
    ensures whole { IfOk result (λ found. IfNone found.fault (avps_of octets.now ≡ Ok found.avps.items)) }
    ensures broken { IfOk result (λ found. IfSome found.fault (λ fault. Tells fault (λ seen. avps_of octets.now ≡ Err seen))) }
{
    match read_list(alloc, octets) {
        Ok(avps) => Ok(Found {
            avps,
            fault: None,
            left: &[],
        }),
        Err(AvpFault::Memory) => Err(AllocError),
        Err(fault) => read_front(alloc, octets, fault),
    }
}

/// The AVPs in front of octets that have this fault.
fn read_front(alloc: Global, octets: &[u8], fault: AvpFault) -> Result<Found<'_>, AllocError>
    ensures { IfOk result (λ found. found.fault ≡ Some fault) }
{
    let mut avps = Vec::new(alloc);
    let mut left = octets;
    while let Some(avp) = first_avp(alloc, left)? {
        left = left.get(avp.padded_length()..).unwrap_or_default();
        avps.push(avp)?;
    }
    Ok(Found {
        avps,
        fault: Some(fault),
        left,
    })
}

/// The AVP in front of octets, if it can be read: the codec is given as many octets as its length asks for.
fn first_avp(alloc: Global, octets: &[u8]) -> Result<Option<Avp<'_>>, AllocError>
    ensures { IfOk result (λ avp. IfSome avp (λ _. LEAST ≤ length octets.now)) }
{
    if octets.len() < LEAST {
        return Ok(None);
    }
    let stated = u24_at(octets, 5) as usize;
    let asked = stated.next_multiple_of(4).max(LEAST);
    match read_list(alloc, octets.get(..asked).unwrap_or(octets)) {
        Ok(mut avps) => {
            let avp = avps.pop();
            // By a call: AVPs that are let go in place are proved part by part.
            drop(avps);
            Ok(avp)
        }
        Err(AvpFault::Memory) => Err(AllocError),
        Err(_) => Ok(None),
    }
}
