//! Reading a record of version 1, in which an initial request has neither its limit nor its host.

ghost use Rattle.std.specs.Prelude.{◌≡◌, ◌≢◌, IfOk, IfErr};
ghost use Rattle.dcc_act_codec.specs.OldRecords.{old_record_of, IsOldAct};
ghost use Rattle.dcc_act_codec.specs.inner.Readers.{Gives};
ghost use Rattle.dcc_act_codec.specs.inner.OldReading.{old_request_in, old_kind_in, first_old_act_in, old_act_in};

use crate::fault::RecordFault;
use crate::old_writing::OLD_VERSION;
use crate::reading::{first_head, first_kind, first_request};
use dcc_act::{Act, FEW_SERVICES, Kind, SessionLimit, SessionRequest};
use std::alloc::Global;

/// Reads the record of an act, version 1, which is all of the octets. A request that was read has at most [`FEW_SERVICES`] services.
/// An initial request was judged by [`SessionLimit::Few`], and its host is not known.
///
/// Errors: fault 40, the octets are the record of no such act; [`RecordFault::Memory`], memory was short for the act.
pub fn read_act_1(alloc: Global, octets: &[u8]) -> Result<Act, RecordFault>
    // The act that was read has these octets as its record.
    ensures found { IfOk result (λ act. octets.now ≡ old_record_of act) }
    ensures within { IfOk result IsOldAct }
    // Octets that are rejected are the record of no act that has a record of version 1.
    ensures refused { IfErr result (λ fault. fault ≡ RecordFault.BadRecord → (act : Act) → IsOldAct act → old_record_of act ≢ octets.now) }
{
    act_of_1(alloc, octets)
}

/// The act of all the octets.
fn act_of_1(alloc: Global, octets: &[u8]) -> Result<Act, RecordFault>
    ensures { Gives (λ act. act) result (old_act_in octets.now) }
{
    match first_act_1(alloc, octets) {
        Ok((act, [])) => Ok(act),
        Ok(_) => Err(RecordFault::BadRecord),
        Err(fault) => Err(fault),
    }
}

/// The act in front.
#[tactic(auto, unfolding(crate::specs::inner::OldReading::first_old_act_in, crate::specs::inner::Reading::act_by))]
fn first_act_1(alloc: Global, octets: &[u8]) -> Result<(Act, &[u8]), RecordFault>
    ensures { Gives (λ x. (x.0, x.1.now)) result (first_old_act_in octets.now) }
{
    match first_head(OLD_VERSION, octets) {
        Ok((octet, moment, rest)) => {
            let (kind, rest) = first_kind_1(alloc, octet, rest)?;
            Ok((Act { moment, kind }, rest))
        }
        Err(fault) => Err(fault),
    }
}

/// The kind that an octet stands for, with its parts in front.
#[tactic(auto, unfolding(crate::specs::inner::OldReading::old_kind_in))]
fn first_kind_1(alloc: Global, octet: u8, octets: &[u8]) -> Result<(Kind, &[u8]), RecordFault>
    ensures { Gives (λ x. (x.0, x.1.now)) result (old_kind_in octet octets.now) }
{
    match octet {
        2 => {
            let (request, rest) = first_request_1(alloc, octets)?;
            let opening = Kind::Initial {
                request,
                limit: SessionLimit::Few,
                host: None,
            };
            Ok((opening, rest))
        }
        3 => {
            let (request, rest) = first_request_1(alloc, octets)?;
            Ok((Kind::Update(request), rest))
        }
        4 => {
            let (request, rest) = first_request_1(alloc, octets)?;
            Ok((Kind::Termination(request), rest))
        }
        _ => first_kind(alloc, octet, octets),
    }
}

/// The request of a session in front, of few services.
#[tactic(auto, unfolding(crate::specs::inner::OldReading::old_request_in))]
fn first_request_1(alloc: Global, octets: &[u8]) -> Result<(SessionRequest, &[u8]), RecordFault>
    ensures { Gives (λ x. (x.0, x.1.now)) result (old_request_in octets.now) }
{
    let (request, rest) = first_request(alloc, octets)?;
    if request.services.as_slice().len() > FEW_SERVICES {
        return Err(RecordFault::BadRecord);
    }
    Ok((request, rest))
}
