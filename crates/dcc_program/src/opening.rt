//! The opening of a server's shards, with its lines on standard error.

ghost use Rattle.std.specs.Prelude.{◌≡◌, ◌<◌, ◌⊎◌, ℕ, IfOk, IfErr};
ghost use Rattle.dcc_startup.specs.Openings.{AreStarted, IsUnusable};

use dcc_message::Identity;
use dcc_metrics::Meters;
use dcc_shard::Shard;
use dcc_startup::{StoreRefusal, Stores, shards_over};
use dcc_store::Records;
use dcc_tariff::Plan;
use std::alloc::{AllocError, Global};
use std::hash::RandomState;
use std::io::Eprint;
use std::sync::Wait;
use std::sync::atomic::{AtomicBool, Ordering};
use std::thread::{Threads, join};
use std::time::{Clock, Duration, Instant};

/// The milliseconds between two looks whether the shards are open.
const LOOK: u64 = 10;

/// The seconds after which an opening that goes on is reported, once a second.
const LONG: u64 = 2;

/// Opens the shards of a server as [`shards_over`] does, and makes the counters of a server with so many places over them. If the opening takes longer than two seconds, it reports that on standard error once a
/// second. Behind it, it reports the subscribers and the acts of each shard, and the seconds that the opening took. A line that cannot be
/// written is left out.
pub(crate) fn open_shards<R: Threads + Wait + Clock + Eprint + Sync, S: Stores + Sync>(
    rt: &R,
    alloc: Global,
    stores: &S,
    folder: &str,
    plan: &Plan,
    identity: &Identity,
    hasher: RandomState,
    places: usize,
) -> Result<(Vec<Shard<S::Records>>, Meters), StoreRefusal>
    ensures started { IfOk result (λ opened. AreStarted (S.opens stores.now folder.now plan.now) S.Records.may_leave plan.now.terms identity.now plan.now.shards opened.0.items) }
    ensures refused { IfErr result (λ refusal. (refusal.0 ≡ 50) ⊎ ((i : ℕ) × (i < plan.now.shards) × IsUnusable (S.refuses stores.now folder.now plan.now i)
        (S.opens stores.now folder.now plan.now i) S.Records.may_leave S.Records.is_stopped i plan.now.shards refusal.0)) }
{
    let is_open = AtomicBool::new(false);
    let began = Instant::now(rt).ok();
    // The lines come from another thread, and the stores are opened in this one. If the system makes no thread, the lines come last.
    let ((), opened) = join(
        rt,
        || report_while(rt, &is_open, began),
        || -> Result<Vec<Shard<S::Records>>, StoreRefusal>
            ensures started { IfOk result (λ shards. AreStarted (S.opens stores.entry.now folder.entry.now plan.entry.now) S.Records.may_leave plan.entry.now.terms identity.entry.now plan.entry.now.shards shards.items) }
            ensures refused { IfErr result (λ refusal. (refusal.0 ≡ 50) ⊎ ((i : ℕ) × (i < plan.entry.now.shards) × IsUnusable (S.refuses stores.entry.now folder.entry.now plan.entry.now i)
                (S.opens stores.entry.now folder.entry.now plan.entry.now i) S.Records.may_leave S.Records.is_stopped i plan.entry.now.shards refusal.0)) }
        {
            let opened = shards_over(rt, alloc, stores, folder, plan, identity, hasher);
            is_open.store(true, Ordering::SeqCst);
            opened
        },
    );
    // By a match: the clauses of shards and the clause of a refusal are proved apart.
    let shards = match opened {
        Ok(shards) => shards,
        Err(refusal) => return Err(refusal),
    };
    let made = meters_of(rt, alloc, shards.as_slice(), places);
    report_time(rt, began);
    match made {
        Ok(meters) => Ok((shards, meters)),
        Err(_) => {
            // By a call: shards that are let go in place are proved part by part.
            drop(shards);
            Err(StoreRefusal(50))
        }
    }
}

/// Reports once a second that the shards are not open yet, from two seconds on, until they are.
fn report_while<R: Wait + Clock + Eprint>(rt: &R, is_open: &AtomicBool, began: Option<Instant>) {
    let mut reported = LONG - 1;
    for _ in rt.forever() {
        if is_open.load(Ordering::SeqCst) {
            return;
        }
        let seconds = millis_since(rt, began) / 1_000;
        if seconds > reported {
            reported = seconds;
            let _lost = rt.eprintln(format_args!(
                "dcc: the stores have been opening for {seconds} seconds"
            ));
        }
        rt.sleep(Duration::from_millis(LOOK));
    }
}

/// Counters for these shards and so many places, which begin with the subscribers and the acts of each shard. It reports these. The only error is
/// want of memory.
fn meters_of<R: Eprint, K: Records>(
    rt: &R,
    alloc: Global,
    shards: &[Shard<K>],
    places: usize,
) -> Result<Meters, AllocError> {
    let mut meters = Meters::new(alloc, shards.len(), places)?;
    for index in 0..shards.len() {
        let Ok((subs, acts)) = size_of(alloc, &shards[index]) else {
            drop(meters);
            return Err(AllocError);
        };
        meters.open(index, subs as u64, acts);
        let _lost = rt.eprintln(format_args!(
            "dcc: shard {index}: subscribers {subs}, acts {acts}"
        ));
    }
    Ok(meters)
}

/// Reports the time that the opening took.
fn report_time<R: Clock + Eprint>(rt: &R, began: Option<Instant>) {
    let millis = millis_since(rt, began);
    let (seconds, millis) = (millis / 1_000, millis % 1_000);
    let _lost = rt.eprintln(format_args!(
        "dcc: the stores are open after {seconds}.{millis:03} seconds"
    ));
}

/// The number of subscribers of a shard that have acts, and of their acts. The only error is want of memory.
fn size_of<K: Records>(alloc: Global, shard: &Shard<K>) -> Result<(usize, u64), AllocError> {
    let subs = shard.subs(alloc)?;
    let mut acts = 0u64;
    for sub in &subs {
        if let Some(account) = shard.account(*sub) {
            acts = acts.saturating_add(account.acts().len() as u64);
        }
    }
    Ok((subs.len(), acts))
}

/// The milliseconds since a moment, 0 if there is no clock.
fn millis_since<C: Clock>(clock: &C, began: Option<Instant>) -> u64 {
    match began {
        Some(began) => match began.elapsed(clock) {
            Ok(passed) => passed
                .as_secs()
                .saturating_mul(1_000)
                .saturating_add(u64::from(passed.subsec_millis())),
            Err(_) => 0,
        },
        None => 0,
    }
}
