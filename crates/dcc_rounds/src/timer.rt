//! Sweeps and audits by time.

ghost use Rattle.std.specs.Prelude.{◌≡◌, ◌<◌, ◌⊎◌, true, false};
ghost use Rattle.dcc_running.specs.Calls.{IsToldStopped};
ghost use Rattle.dcc_rounds.specs.Timing.{Times, TimesAsks};
ghost use Rattle.dcc_rounds.specs.inner.Watching.{AreMarked, AreWatched};

use crate::face::{Listener, Notices, Tick};
use crate::lanes::{ask_all_to_audit, ask_all_to_sweep, leave_all};
use crate::tasks::Shared;
use crate::work::Work;
use dcc_connect::Clock;
use dcc_lane::Sender;
use dcc_running::Naming;
use dcc_store::Records;
use dcc_tariff::MAX_SHARDS;
use std::sync::Wait;

/// The most shards that a server has.
const MOST_SHARDS: usize = MAX_SHARDS as usize;

/// Asks each worker for a sweep at the clock's moment, or for an audit, when the listener reports that it is due, and reports each shard that has stopped.
#[derive(Drop)]
pub(crate) struct SweepTimer {
    /// Whether sweeps and audits are due by time: if places are taken again.
    pub stays: bool,
    /// One for each shard's worker, by its index.
    pub workers: Vec<Sender<Work>>,
}

impl SweepTimer {
    /// Asks for sweeps and audits until the listener takes no more connections in, and says behind the last that nothing more is put.
    pub fn run<
        W: Wait,
        R: Records,
        J: Naming,
        I,
        O,
        L: Listener<I, O>,
        C: Clock + Copy,
        N: Notices,
    >(&mut self, rt: &W, shared: &Shared<'_, R, J, L, C, N>)
        ensures timed { Times C.tells L.is_closed shared.now.clock.now self.old self.new }
        ensures watched { self.old.stays ≡ true → AreWatched R.is_stopped N.has_told shared.now.count }
    {
        if self.stays {
            let mut clock = *shared.clock;
            self.ask_on_time::<W, R, J, I, O, L, C, N>(rt, shared, &mut clock);
        }
        leave_all(rt, &mut self.workers);
    }

    /// Asks for a sweep or an audit each time that one is due, and reports each shard that has stopped.
    fn ask_on_time<W: Wait, R: Records, J: Naming, I, O, L: Listener<I, O>, C: Clock, N: Notices>(
        &mut self,
        rt: &W,
        shared: &Shared<'_, R, J, L, C, N>,
        clock: &mut C,
    )
        ensures asked { TimesAsks C.tells self.old clock.old self.new clock.new }
        ensures closed { L.is_closed }
        ensures stays { self.new.stays ≡ self.old.stays }
        ensures watched { AreWatched R.is_stopped N.has_told shared.now.count }
    {
        let mut told = [false; MOST_SHARDS];
        for _ in rt.forever() {
            tell_stopped(rt, shared, &mut told);
            match shared.listener.tick(rt) {
                Tick::Nothing => {}
                Tick::Sweep => ask_all_to_sweep(rt, &mut self.workers, clock.moment()),
                Tick::Audit => ask_all_to_audit(rt, &mut self.workers),
                Tick::End => return,
            }
        }
        unreachable!()
    }
}

/// Reports each shard whose records have failed, once.
fn tell_stopped<W: Wait, R: Records, J: Naming, L, C, N: Notices>(
    rt: &W,
    shared: &Shared<'_, R, J, L, C, N>,
    told: &mut [bool; MOST_SHARDS],
)
    requires { AreMarked N.has_told 0 told.old }
    ensures told { AreMarked N.has_told 0 told.new }
    ensures watched { AreWatched R.is_stopped N.has_told shared.now.count }
{
    for shard in 0..shared.count.min(MOST_SHARDS) {
        tell_once(rt, shared, shard, &mut told[shard]);
    }
}

/// Reports a shard if its records have failed, once.
fn tell_once<W: Wait, R: Records, J: Naming, L, C, N: Notices>(
    rt: &W,
    shared: &Shared<'_, R, J, L, C, N>,
    shard: usize,
    told: &mut bool,
)
    requires shard { shard < shared.now.count }
    requires told { told.old ≡ true → N.has_told shard }
    ensures told { told.new ≡ true → N.has_told shard }
    ensures watched { N.has_told shard ⊎ IsToldStopped R.is_stopped false }
{
    if *told || !shared.shards.is_stopped(rt, shard) {
        return;
    }
    shared.notices.tell_stop(rt, shard);
    *told = true;
}
