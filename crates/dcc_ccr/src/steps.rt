//! The steps by which the values of all lists are read.

ghost use Rattle.std.specs.Prelude.{◌≡◌};
ghost use Rattle.dcc_ccr.specs.Steps.{number_of, long_number_of};

use dcc_avp::Avp;
use dcc_request::{Refused, first, long_number, number};

/// The number of the first AVP of a code, if there is any; `InvalidAvpLength` with the AVP if its data hasn't four octets.
#[tactic(auto, unfolding(crate::specs::Steps::number_of))]
pub(crate) fn number_of<'a>(avps: &[Avp<'a>], code: u32) -> Result<Option<u32>, Refused<'a>>
    ensures { result ≡ number_of avps.now code }
{
    match first(avps, code) {
        Some(avp) => Ok(Some(number(avp)?)),
        None => Ok(None),
    }
}

/// The same for a number of eight octets.
#[tactic(auto, unfolding(crate::specs::Steps::long_number_of))]
pub(crate) fn long_number_of<'a>(avps: &[Avp<'a>], code: u32) -> Result<Option<u64>, Refused<'a>>
    ensures { result ≡ long_number_of avps.now code }
{
    match first(avps, code) {
        Some(avp) => Ok(Some(long_number(avp)?)),
        None => Ok(None),
    }
}
