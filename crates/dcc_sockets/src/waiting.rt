//! Since when answers wait to go out.

ghost use Rattle.std.specs.Prelude.{◌≡◌, ◌-◌, None, Some, option_map};
ghost use Rattle.std.specs.Duration.{as_nanos};
ghost use Rattle.std.specs.Time.{instant_nanos};
ghost use Rattle.dcc_sockets.specs.Waits.{left_of, wait_left, waiting_behind, waiting_from};

use std::marker::Model;
use std::time::{Duration, Instant};

/// For so many seconds the answers that wait for a gateway at one time may wait; then writing fails.
pub const WRITE_SECONDS: u64 = 5;

/// After so many milliseconds without a taken octet a write begins anew.
pub const LOOK_MILLIS: u64 = 200;

/// Since when answers wait to go out. The answers that were put at the first write wait from this write on, over all writes, until all of them are out. The
/// answers that were put meanwhile wait from the next write on. So an answer that the writer could send waits at most twice [`WRITE_SECONDS`].
#[derive(Drop)]
pub struct Waiting {
    /// The moment since which answers wait, and how many have gone out, since the gateway came, once these have.
    waited: Option<(Instant, u64)>,
}

impl Model for Waiting {
    ghost use Rattle.std.specs.Prelude.{Option, option_map};
    ghost use Rattle.std.specs.Time.{instant_nanos};
    ghost use Rattle.dcc_sockets.specs.Waits.{WaitedView};

    // With the nanosecond of the clock.
    ghost Value = { Option WaitedView };

    ghost view = { λ waiting. option_map (λ waited. record { since = instant_nanos waited.0; goal = waited.1 }) waiting.waited };
}

impl Waiting {
    /// Nothing waits.
    pub fn new() -> Waiting
        ensures { result ≡ None }
    {
        Waiting { waited: None }
    }

    /// How long a write that begins now may wait, if so many answers were put since the gateway came. None if its answers have waited as long as they may.
    pub fn begin(&mut self, now: Instant, put: u64) -> Option<Duration>
        ensures waited { self.new ≡ Some (waiting_from self.old (instant_nanos now) put) }
        ensures left { option_map as_nanos result ≡ wait_left (instant_nanos now - (waiting_from self.old (instant_nanos now) put).since) }
    {
        let (since, goal) = match self.waited {
            Some(waited) => waited,
            None => (now, put),
        };
        self.waited = Some((since, goal));
        left_of(
            Duration::from_secs(WRITE_SECONDS),
            now.duration_since(since),
        )
    }

    /// Behind a write, if so many answers have gone out since the gateway came.
    pub fn took(&mut self, written: u64)
        ensures { self.new ≡ waiting_behind self.old written }
    {
        let Some((_, goal)) = self.waited else {
            return;
        };
        if written >= goal {
            self.waited = None;
        }
    }
}

/// How much is left of a time behind a wait of so long. None if nothing is left.
pub(crate) fn left_of(all: Duration, waited: Duration) -> Option<Duration>
    ensures { option_map as_nanos result ≡ left_of (as_nanos all) (as_nanos waited) }
{
    let left = all.saturating_sub(waited);
    if left.is_zero() { None } else { Some(left) }
}
