//! The identity of the server that a plan names.

ghost use Rattle.std.specs.Prelude.{◌≡◌, true, IfOk};
ghost use Rattle.dcc_octets.specs.Names.{is_name};
ghost use Rattle.dcc_replay.specs.Names.{identity_of};

use dcc_message::{DiameterIdentity, Identity};
use dcc_tariff::Plan;
use std::alloc::{AllocError, Global};

/// The identity of the server under a plan: host, realm and address. The only error is want of memory.
pub fn identity_of(alloc: Global, plan: &Plan) -> Result<Identity, AllocError>
    ensures { IfOk result (λ identity. identity ≡ identity_of plan.now) }
{
    Ok(Identity {
        host: name_of(alloc, plan.host())?,
        realm: name_of(alloc, plan.realm())?,
        address: plan.address(),
    })
}

fn name_of(alloc: Global, text: &[u8]) -> Result<DiameterIdentity, AllocError>
    requires { is_name text.now ≡ true }
    ensures { IfOk result (λ name. name ≡ text.now) }
{
    let octets = Vec::from_slice(alloc, text)?;
    Ok(DiameterIdentity::from_vec(octets).unwrap())
}
