//! What the readers of a command's values share: the first AVP of a code, and its data as a value of its kind.

ghost use Rattle.std.specs.Prelude.{◌≡◌, find, option_map};
ghost use Rattle.dcc_avp.specs.Spelling.{has_code};
ghost use Rattle.dcc_request.specs.Answers.{seen};
ghost use Rattle.dcc_request.specs.Values.{required, name_octets, number, number_within, long_number};

use crate::cause::Cause;
use crate::checks::missing;
use crate::refused::Refused;
use dcc_avp::Avp;
use dcc_octets::is_short;

/// The first AVP of a code and of no vendor.
pub fn first<'m, 'a>(avps: &'m [Avp<'a>], code: u32) -> Option<&'m Avp<'a>>
    ensures { option_map (λ avp. avp.now) result ≡ find (has_code code) avps.now }
{
    avps.iter().find(|avp| avp.has_code(code))
}

/// The first AVP of a code and of no vendor; `MissingAvp`, as of `check`, if there is none.
pub fn required<'m, 'a>(avps: &'m [Avp<'a>], code: u32) -> Result<&'m Avp<'a>, Refused<'a>>
    ensures { seen (λ avp. avp.now) result ≡ required avps.now code }
{
    match first(avps, code) {
        Some(avp) => Ok(avp),
        None => Err(missing(code)),
    }
}

/// The data, if it has the 1 to 255 octets of a name, of any values; else `InvalidAvpLength` with the AVP.
pub fn name_octets<'a>(avp: &Avp<'a>) -> Result<&'a [u8], Refused<'a>>
    ensures { seen (λ octets. octets.now) result ≡ name_octets avp.now }
{
    if is_short(avp.value()) {
        Ok(avp.value())
    } else {
        Err(Refused::one(Cause::InvalidAvpLength, avp.copy()))
    }
}

/// The data as an Unsigned32 or as an Enumerated; `InvalidAvpLength` with the AVP if the data hasn't four octets.
#[tactic(auto, unfolding(crate::specs::Values::number))]
pub fn number<'a>(avp: &Avp<'a>) -> Result<u32, Refused<'a>>
    ensures { result ≡ number avp.now }
{
    match avp.as_u32() {
        Ok(n) => Ok(n),
        Err(_) => Err(Refused::one(Cause::InvalidAvpLength, avp.copy())),
    }
}

/// The data as an Unsigned64; `InvalidAvpLength` with the AVP if the data hasn't eight octets.
#[tactic(auto, unfolding(crate::specs::Values::long_number))]
pub fn long_number<'a>(avp: &Avp<'a>) -> Result<u64, Refused<'a>>
    ensures { result ≡ long_number avp.now }
{
    match avp.as_u64() {
        Ok(n) => Ok(n),
        Err(_) => Err(Refused::one(Cause::InvalidAvpLength, avp.copy())),
    }
}

/// The data as a number of four octets, from `low` to `high`; `InvalidAvpLength` with the AVP if the data hasn't four
/// octets, `InvalidAvpValue` with the AVP if the number lies outside.
#[tactic(auto, unfolding(crate::specs::Values::number_within))]
pub fn number_within<'a>(avp: &Avp<'a>, low: u32, high: u32) -> Result<u32, Refused<'a>>
    ensures { result ≡ number_within avp.now low high }
{
    let n = number(avp)?;
    if low <= n && n <= high {
        Ok(n)
    } else {
        Err(Refused::one(Cause::InvalidAvpValue, avp.copy()))
    }
}
