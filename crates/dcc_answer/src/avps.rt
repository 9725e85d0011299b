//! Writing AVPs that are sent: M alone is set in their flags, and they have no vendor.

ghost use Rattle.std.specs.Prelude.{◌≡◌, ◌≤◌, ◌+◌, ◌<◌, ◌^◌, ◌++◌, length, vec_len, OnOk, OnErr};
ghost use Rattle.dcc_avp.specs.Spelling.{padded};
ghost use Rattle.dcc_answer.specs.Avps.{sent, sent32, sent64};
ghost use Rattle.dcc_answer.specs.Sizes.{Grows};

use dcc_avp::{Avp, flags, write_avp, write_u32, write_u64};
use std::alloc::AllocError;

/// Appends an AVP with this data and its padding. The data has at most 2^24 - 9 octets, so that the AVP Length fits three
/// octets. The only error is want of memory; then nothing is appended.
pub fn put(out: &mut Vec<u8>, code: u32, value: &[u8]) -> Result<(), AllocError>
    requires { 8 + length value.now < 2 ^ 24 }
    ensures ok { OnOk result (out.new.items ≡ out.old.items ++ padded (sent code value.now)) }
    ensures err { OnErr result (out.new.items ≡ out.old.items) }
    ensures grows { OnOk result (Grows (vec_len out.old) (vec_len out.new) (11 + length value.now)) }
{
    write_avp(out, &Avp::new(code, flags::MANDATORY, value))
}

/// Appends an AVP of a number in four octets. The only error is want of memory; then nothing is appended.
pub fn put_u32(out: &mut Vec<u8>, code: u32, number: u32) -> Result<(), AllocError>
    ensures ok { OnOk result (out.new.items ≡ out.old.items ++ padded (sent32 code number)) }
    ensures err { OnErr result (out.new.items ≡ out.old.items) }
    ensures grows { OnOk result (Grows (vec_len out.old) (vec_len out.new) 15) }
{
    write_u32(out, code, flags::MANDATORY, number)
}

/// Appends an AVP of a number in eight octets. The only error is want of memory; then nothing is appended.
pub fn put_u64(out: &mut Vec<u8>, code: u32, number: u64) -> Result<(), AllocError>
    ensures ok { OnOk result (out.new.items ≡ out.old.items ++ padded (sent64 code number)) }
    ensures err { OnErr result (out.new.items ≡ out.old.items) }
    ensures grows { OnOk result (Grows (vec_len out.old) (vec_len out.new) 19) }
{
    write_u64(out, code, flags::MANDATORY, number)
}
