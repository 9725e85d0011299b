//! Reading the small parts of a record: octets, numbers, and numbers that may be absent.

ghost use Rattle.std.specs.Prelude.{◌≡◌, length, IfOk};
ghost use Rattle.std.specs.Int.{w16, w32, w64};
ghost use Rattle.dcc_act_codec.specs.inner.Readers.{Gives, octet_in, front_in, number_in, fixed_in, optional_in};

use crate::fault::RecordFault;
use dcc_octets::{u32_in, u64_in};

/// The octet in front, and the octets behind it.
#[tactic(auto, unfolding(crate::specs::inner::Readers::octet_in))]
pub(crate) fn first_octet(octets: &[u8]) -> Result<(u8, &[u8]), RecordFault>
    ensures { Gives (λ x. (x.0, x.1.now)) result (octet_in octets.now) }
{
    match octets {
        [] => Err(RecordFault::BadRecord),
        [octet, rest @ ..] => Ok((*octet, rest)),
    }
}

/// So many octets in front, and the octets behind them.
#[tactic(auto, unfolding(crate::specs::inner::Readers::front_in))]
pub(crate) fn first_octets(octets: &[u8], count: usize) -> Result<(&[u8], &[u8]), RecordFault>
    ensures value { Gives (λ x. (x.0.now, x.1.now)) result (front_in count octets.now) }
    ensures len { IfOk result (λ x. length x.0.now ≡ count) }
{
    if octets.len() < count {
        return Err(RecordFault::BadRecord);
    }
    Ok(octets.split_at(count))
}

/// The octets behind an expected octet in front.
#[tactic(auto, unfolding(crate::specs::inner::Readers::fixed_in))]
pub(crate) fn behind_fixed(expected: u8, octets: &[u8]) -> Result<&[u8], RecordFault>
    ensures { Gives (λ rest. (expected, rest.now)) result (fixed_in expected octets.now) }
{
    let (octet, rest) = first_octet(octets)?;
    if octet != expected {
        return Err(RecordFault::BadRecord);
    }
    Ok(rest)
}

/// The number in the first two octets.
#[tactic(auto, unfolding(crate::specs::inner::Readers::number_in))]
pub(crate) fn first_u16(octets: &[u8]) -> Result<(u16, &[u8]), RecordFault>
    ensures { Gives (λ x. (x.0, x.1.now)) result (number_in w16 octets.now) }
{
    let (front, rest) = first_octets(octets, 2)?;
    let number = u16::from_be_bytes([front[0], front[1]]);
    Ok((number, rest))
}

/// The number in the first four octets.
#[tactic(auto, unfolding(crate::specs::inner::Readers::number_in))]
pub(crate) fn first_u32(octets: &[u8]) -> Result<(u32, &[u8]), RecordFault>
    ensures { Gives (λ x. (x.0, x.1.now)) result (number_in w32 octets.now) }
{
    let (front, rest) = first_octets(octets, 4)?;
    match u32_in(front) {
        Some(number) => Ok((number, rest)),
        None => Err(RecordFault::BadRecord),
    }
}

/// The number in the first eight octets.
#[tactic(auto, unfolding(crate::specs::inner::Readers::number_in))]
pub(crate) fn first_u64(octets: &[u8]) -> Result<(u64, &[u8]), RecordFault>
    ensures { Gives (λ x. (x.0, x.1.now)) result (number_in w64 octets.now) }
{
    let (front, rest) = first_octets(octets, 8)?;
    match u64_in(front) {
        Some(number) => Ok((number, rest)),
        None => Err(RecordFault::BadRecord),
    }
}

/// A number of four octets that may be absent.
pub(crate) fn optional_u32(octets: &[u8]) -> Result<(Option<u32>, &[u8]), RecordFault>
    ensures { Gives (λ x. (x.0, x.1.now)) result (optional_in (number_in w32) octets.now) }
{
    let (flag, rest) = first_octet(octets)?;
    match flag {
        0 => Ok((None, rest)),
        1 => {
            let (number, rest) = first_u32(rest)?;
            Ok((Some(number), rest))
        }
        _ => Err(RecordFault::BadRecord),
    }
}

/// A number of eight octets that may be absent.
pub(crate) fn optional_u64(octets: &[u8]) -> Result<(Option<u64>, &[u8]), RecordFault>
    ensures { Gives (λ x. (x.0, x.1.now)) result (optional_in (number_in w64) octets.now) }
{
    let (flag, rest) = first_octet(octets)?;
    match flag {
        0 => Ok((None, rest)),
        1 => {
            let (number, rest) = first_u64(rest)?;
            Ok((Some(number), rest))
        }
        _ => Err(RecordFault::BadRecord),
    }
}
