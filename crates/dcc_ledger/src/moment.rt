//! Moments, as a date and a time.

ghost use Rattle.std.specs.Prelude.{◌≡◌, IfOk, string_bytes};
ghost use Rattle.dcc_ledger.specs.Moments.{moment_text};

use dcc_act::Moment;
use jiff::Timestamp;
use jiff::tz::Offset;
use std::alloc::{AllocError, Global};

/// The date and the time of a moment in UTC, as `2025-06-01T00:01:00Z`, the form of a plan's moments. The only error is want of memory.
pub(crate) fn moment_text(alloc: Global, moment: Moment) -> Result<String, AllocError>
    ensures { IfOk result (λ text. string_bytes text ≡ moment_text moment) }
{
    // Each moment is an instant of `jiff`. No contract defines the printed form of an instant, and one defines that of a date and time.
    let instant = Timestamp::from_second(moment.seconds() as i64).unwrap();
    let utc = Offset::UTC.to_datetime(instant);
    format!(in alloc; "{utc}Z")
}
