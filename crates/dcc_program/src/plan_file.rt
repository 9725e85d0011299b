//! The plan of a file.

ghost use Rattle.std.specs.Prelude.{◌≡◌, IfOk, IfErr, Ok};
ghost use Rattle.dcc_program.specs.Plans.{plan_of_octets, IsPlanOf, IsRefusal, IsPlanFailure};

use crate::failure::Failure;
use dcc_streams::{MOST_READS, read_all};
use dcc_tariff::{Plan, PlanFault};
use std::alloc::Global;
use std::io::Read;

/// The plan of all that a reader gives up to its end, or its first fault. A reader that has not ended after 4,294,967,295 reads is a
/// failure of input.
pub fn plan_from<R: Read>(alloc: Global, file: &mut R) -> Result<Plan, Failure>
    ensures plan { IfOk result (IsPlanOf (R.remaining file.old)) }
    ensures failure { IfErr result (IsPlanFailure (R.remaining file.old)) }
{
    let octets = read_all(alloc, file, MOST_READS)?;
    plan_of(alloc, octets.as_slice())
}

/// The plan of a file's octets: that of their text, or its first fault. Octets that are no text are no TOML document.
pub fn plan_of(alloc: Global, octets: &[u8]) -> Result<Plan, Failure>
    ensures ok { IfOk result (λ plan. plan_of_octets octets.now ≡ Ok plan) }
    ensures err { IfErr result (IsRefusal (plan_of_octets octets.now)) }
{
    let Ok(text) = str::from_utf8(octets) else {
        return Err(Failure::from(PlanFault::NotToml));
    };
    Ok(Plan::read(alloc, text)?)
}
