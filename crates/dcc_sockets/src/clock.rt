//! The clock of the system.

ghost use Rattle.std.specs.Prelude.{◌≡◌, if◌then◌else◌, nat_le};
ghost use Rattle.dcc_tariff.specs.declared.limits.TheConstants.{LAST_SECOND};

use dcc_act::Moment;
use dcc_tariff::LAST_SECOND;
use std::alloc::AllocError;

/// The clock of the system, in whole seconds since 1970-01-01T00:00:00Z. Before that, and if there is no clock, it returns the first
/// moment. Past the last moment it returns the last.
pub struct SystemClock<'r, C: std::time::Clock> {
    clock: &'r C,
}

impl<'r, C: std::time::Clock> SystemClock<'r, C> {
    /// The clock that this runtime reads.
    pub fn new(clock: &'r C) -> SystemClock<'r, C> {
        SystemClock { clock }
    }
}

// By hand, since a derive would ask for a runtime that can be copied, and only a reference to it is.
impl<C: std::time::Clock> Clone for SystemClock<'_, C> {
    fn clone(&self) -> Result<Self, AllocError> {
        Ok(*self)
    }
}

impl<C: std::time::Clock> Copy for SystemClock<'_, C> {}

impl<C: std::time::Clock> dcc_connect::Clock for SystemClock<'_, C> {
    // No clause says what the system's clock returns.
    ghost tells = { λ _ _ _. Unit {0} };

    fn moment(&mut self) -> Moment {
        match self.clock.since_1970() {
            Ok(time) => at_most_the_last(time.as_secs()),
            Err(_) => at_most_the_last(0),
        }
    }
}

/// The moment of these seconds, or the last that there is.
fn at_most_the_last(seconds: u64) -> Moment
    ensures { result ≡ (if nat_le seconds LAST_SECOND then seconds else LAST_SECOND) }
{
    match Moment::new(seconds.min(LAST_SECOND)) {
        Some(moment) => moment,
        None => unreachable!(),
    }
}
