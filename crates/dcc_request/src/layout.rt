//! Layout: lists of AVPs that can't be read, and the AVP that a refusal shows in place of the AVP that broke its list.

ghost use Rattle.std.specs.Prelude.{◌≡◌, option_map};
ghost use Rattle.dcc_request.specs.Answers.{Gives};
ghost use Rattle.dcc_request.specs.Layout.{least_data, stand_in, layout_fault, unread, stop_at, message_list};

use crate::cause::Cause;
use crate::refused::Refused;
use crate::stop::Stop;
use dcc_avp::{Avp, AvpFault, flags, known, least_len, read_list};
use std::alloc::Global;

/// The least data of a code in zeros. It is empty if the dictionary doesn't have the code.
pub(crate) fn least_data(code: u32) -> &'static [u8]
    ensures { result.now ≡ least_data code }
{
    match known(code) {
        None => &[],
        Some(format) => match least_len(format) {
            0 => &[],
            4 => &[0; 4],
            6 => &[0; 6],
            _ => &[0; 8],
        },
    }
}

/// The AVP that stands for an AVP with an invalid length. It has that AVP's code, its flags but V, and the least data of
/// its format in zeros. It has no data if the AVP is a vendor's, or if the dictionary doesn't have its code.
fn stand_in(code: u32, flags: u8) -> Avp<'static>
    ensures { result ≡ stand_in code flags }
{
    if flags & flags::VENDOR != 0 {
        Avp::new(code, flags, &[])
    } else {
        Avp::new(code, flags, least_data(code))
    }
}

/// The refusal of a list that can't be read: `InvalidAvpLength`, with an AVP that stands for the AVP that broke the list
/// (RFC 6733, section 7.1.5). If fewer octets are left than a header has, the shown AVP has no data, and the code and the
/// flags of the fault: the number in the first four octets left (0 if there are fewer), and M alone. Else it has the code
/// of the broken AVP, all its flags but V, and the least data of its format in zeros; no data if the AVP is a vendor's, or
/// if the dictionary doesn't have its code. None for want of memory, and for a number of another size, which no reading of
/// a list returns.
pub fn unread(fault: &AvpFault) -> Option<Refused<'static>>
    ensures { result ≡ option_map unread (layout_fault fault.now) }
{
    let avp = match *fault {
        AvpFault::Short { code, flags } => Avp::new(code, flags, &[]),
        AvpFault::LengthBelowHeader { code, flags } | AvpFault::LengthPastEnd { code, flags } => {
            stand_in(code, flags)
        }
        AvpFault::WrongSize | AvpFault::Memory => return None,
    };
    Some(Refused::one(Cause::InvalidAvpLength, avp))
}

/// The end of reading at a fault.
pub(crate) fn stop_at(fault: &AvpFault) -> Stop<'static>
    ensures { result ≡ stop_at fault.now }
{
    match unread(fault) {
        Some(refused) => Stop::Refused(refused),
        None => Stop::Memory,
    }
}

/// The AVPs of a message, from the octets behind its header; or the refusal `unread` of a list that can't be read. The
/// only other error is want of memory.
#[tactic(auto, unfolding(crate::specs::Layout::message_list))]
pub fn read_message_list(alloc: Global, octets: &[u8]) -> Result<Vec<Avp<'_>>, Stop<'_>>
    ensures { Gives (λ avps. avps.items) result (message_list octets.now) }
{
    match read_list(alloc, octets) {
        Ok(avps) => Ok(avps),
        Err(fault) => Err(stop_at(&fault)),
    }
}
