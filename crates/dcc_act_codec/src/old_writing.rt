//! Writing a record of version 1.

ghost use Rattle.std.specs.Prelude.{◌≡◌, ◌++◌, OnOk, IfOk};
ghost use Rattle.dcc_act_codec.specs.OldRecords.{old_kind_octets, old_record_of};

use crate::writing::{put_head, put_kind, put_request};
use dcc_act::{Act, Kind};
use std::alloc::{AllocError, Global};

/// The version of a record's old format.
pub(crate) const OLD_VERSION: u8 = 1;

/// The record of an act, version 1. It has neither the limit of an initial request nor its host. The only error is want of memory.
#[tactic(auto, unfolding(crate::specs::OldRecords::old_record_of))]
pub fn write_act_1(alloc: Global, act: &Act) -> Result<Vec<u8>, AllocError>
    ensures { IfOk result (λ octets. octets.items ≡ old_record_of act.now) }
{
    let mut out = Vec::new(alloc);
    put_head(&mut out, OLD_VERSION, act)?;
    put_kind_1(&mut out, &act.kind)?;
    Ok(out)
}

/// Appends the parts of a kind.
fn put_kind_1(out: &mut Vec<u8>, kind: &Kind) -> Result<(), AllocError>
    ensures { OnOk result (out.new.items ≡ out.old.items ++ old_kind_octets kind.now) }
{
    match kind {
        Kind::Initial { request, .. } => put_request(out, request),
        _ => put_kind(out, kind),
    }
}
