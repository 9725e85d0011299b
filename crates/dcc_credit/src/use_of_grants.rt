//! How a grant may be used: for how long, and what happens once it is used up.

ghost use Rattle.std.specs.Prelude.{◌≡◌, ◌++◌, vec_len, OnOk};
ghost use Rattle.std.specs.List.{flat_map};
ghost use Rattle.dcc_avp.specs.Spelling.{padded};
ghost use Rattle.dcc_answer.specs.Sizes.{Grows};
ghost use Rattle.dcc_credit.specs.Answers.{in_session, validity_avps, final_avps};

use dcc_act::{Grant, RequestType};
use dcc_answer::put_u32;
use dcc_avp::{begin_group, codes, end_group, flags};
use dcc_tariff::Terms;
use std::alloc::AllocError;

/// TERMINATE (Final-Unit-Action, RFC 8506, section 8.35): the service ends.
pub const TERMINATE: u32 = 0;

/// Whether a request belongs to a session.
fn in_session(request: RequestType) -> bool
    ensures { result ≡ in_session request }
{
    match request {
        RequestType::Initial | RequestType::Update | RequestType::Termination => true,
        RequestType::Event => false,
    }
}

/// Appends the Validity-Time of a grant, if there is a grant and the request belongs to a session (RFC 8506, section 8.33).
pub(crate) fn put_validity(
    out: &mut Vec<u8>,
    request: RequestType,
    terms: &Terms,
    grant: Option<Grant>,
) -> Result<(), AllocError>
    ensures ok { OnOk result (out.new.items ≡ out.old.items ++ flat_map padded (validity_avps request terms.now grant)) }
    ensures grows { OnOk result (Grows (vec_len out.old) (vec_len out.new) 15) }
{
    if grant.is_none() || !in_session(request) {
        return Ok(());
    }
    put_u32(out, codes::VALIDITY_TIME, terms.validity)
}

/// Appends the Final-Unit-Indication, if the grant is the last (RFC 8506, section 8.34).
pub(crate) fn put_final(out: &mut Vec<u8>, is_final: bool) -> Result<(), AllocError>
    ensures ok { OnOk result (out.new.items ≡ out.old.items ++ flat_map padded (final_avps is_final)) }
    ensures grows { OnOk result (Grows (vec_len out.old) (vec_len out.new) 30) }
{
    if !is_final {
        return Ok(());
    }
    let at = begin_group(out)?;
    put_u32(out, codes::FINAL_UNIT_ACTION, TERMINATE)?;
    end_group(out, at, codes::FINAL_UNIT_INDICATION, flags::MANDATORY);
    Ok(())
}
