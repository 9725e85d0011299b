//! Failed-AVP: the AVPs that an answer reports as wrong.

ghost use Rattle.std.specs.Prelude.{◌≡◌, ◌+◌, ◌*◌, ◌≤◌, ◌++◌, take, vec_len, OnOk, OnErr};
ghost use Rattle.std.specs.List.{flat_map, sum_by, AllByRecursion};
ghost use Rattle.dcc_avp.specs.Spelling.{padded, padded_len, HasSpelling};
ghost use Rattle.dcc_request.specs.Refusals.{failed_in};
ghost use Rattle.dcc_answer.specs.Failed.{failed_avps};
ghost use Rattle.dcc_answer.specs.Sizes.{Grows};

use dcc_avp::{begin_group, codes, end_group, flags, write_avp};
use dcc_message::MAX_LENGTH;
use dcc_request::Failed;
use std::alloc::AllocError;

/// Appends the Failed-AVP of a refusal (RFC 6733, section 7.5), with copies of its AVPs, which together have at most the
/// octets of two messages. A refusal without AVPs has no Failed-AVP. The only error is want of memory; then nothing is
/// appended.
pub fn put_failed(out: &mut Vec<u8>, failed: &Failed<'_>) -> Result<(), AllocError>
    requires { sum_by padded_len (failed_in failed.now) ≤ 2 * MAX_LENGTH }
    ensures ok { OnOk result (out.new.items ≡ out.old.items ++ flat_map padded (failed_avps (failed_in failed.now))) }
    ensures err { OnErr result (out.new.items ≡ out.old.items) }
    ensures spelled { OnOk result (AllByRecursion HasSpelling (failed_avps (failed_in failed.now))) }
    ensures grows { OnOk result (Grows (vec_len out.old) (vec_len out.new) (8 + sum_by padded_len (failed_in failed.now))) }
{
    let before = out.len();
    let appended = append_failed(out, failed);
    if appended.is_err() {
        out.truncate(before);
    }
    appended
}

/// Appends the Failed-AVP. If memory is refused, a part of it may stand behind the octets that were there.
fn append_failed(out: &mut Vec<u8>, failed: &Failed<'_>) -> Result<(), AllocError>
    requires { sum_by padded_len (failed_in failed.now) ≤ 2 * MAX_LENGTH }
    ensures ok { OnOk result (out.new.items ≡ out.old.items ++ flat_map padded (failed_avps (failed_in failed.now))) }
    ensures err { OnErr result (take (vec_len out.old) out.new.items ≡ out.old.items) }
    ensures spelled { OnOk result (AllByRecursion HasSpelling (failed_avps (failed_in failed.now))) }
    ensures grows { OnOk result (Grows (vec_len out.old) (vec_len out.new) (8 + sum_by padded_len (failed_in failed.now))) }
{
    match failed {
        Failed::Nothing => return Ok(()),
        Failed::One(avp) => {
            let at = begin_group(out)?;
            write_avp(out, avp)?;
            end_group(out, at, codes::FAILED_AVP, flags::MANDATORY);
        }
        Failed::Two(first, second) => {
            let at = begin_group(out)?;
            write_avp(out, first)?;
            write_avp(out, second)?;
            end_group(out, at, codes::FAILED_AVP, flags::MANDATORY);
        }
    }
    Ok(())
}
