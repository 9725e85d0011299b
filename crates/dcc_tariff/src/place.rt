//! The places at which look-ups begin.

ghost use Rattle.std.specs.Prelude.{◌≡◌, ◌≤◌, ◌%◌, IfOk, length, slice_get, unwrap_or};

use crate::version::Version;
use std::alloc::{AllocError, Global};

/// The number of remainders by which groups are told apart: more than twice as many as a plan has versions at most.
const PLACES: usize = 2_048;

/// For each remainder of a group's number the place of the last version whose group has it, or 0 if no group has it. A
/// look-up tests the version at the place, so a wrong place would only make it slower. The only error is want of
/// memory.
pub(crate) fn places_of(alloc: Global, versions: &[Version]) -> Result<Vec<u16>, AllocError>
    requires { length versions.now ≤ 1000 }
    ensures { IfOk result (λ places. length places.items ≡ PLACES) }
{
    let mut places = vec![in alloc; 0; PLACES]?;
    for (i, version) in versions.iter().enumerate() {
        places[version.group as usize % PLACES] = i as u16;
    }
    Ok(places)
}

/// The place at which a look-up of the group begins.
pub(crate) fn place_of(places: &[u16], group: u32) -> u16
    ensures { result ≡ unwrap_or (slice_get places.now (group % PLACES)) 0 }
{
    places.get(group as usize % PLACES).copied().unwrap_or(0)
}
