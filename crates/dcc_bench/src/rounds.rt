//! Rounds of one measurement.

use crate::fault::{Fault, Measured};
use std::time::{CpuClock, Duration};

/// How often each thing is measured.
const ROUNDS: usize = 7;

/// Measures a thing in rounds of so many items, each of which gives the same mark, and tells the times for one item.
pub(crate) fn timed<R: Eprint + CpuClock, F: FnMut() -> Measured<u64>>(
    rt: &R,
    name: &str,
    items: u64,
    mut round: F,
) -> Measured<u64>
    requires { F.IsAlwaysCallable round }
{
    let mut rounds = [0; ROUNDS];
    let mut mark = 0;
    for nanos in &mut rounds {
        let begin = now(rt)?;
        mark ^= round()?;
        *nanos = nanos_between(begin, now(rt)?);
    }
    report(rt, name, items, &mut rounds)?;
    Ok(mark)
}

/// The processor time of the thread.
fn now(rt: &impl CpuClock) -> Measured<Duration> {
    match rt.thread_cpu_time() {
        Ok(time) => Ok(time),
        Err(_) => Err(Fault::Clock),
    }
}

fn nanos_between(begin: Duration, end: Duration) -> u64 {
    let spent = end.checked_sub(begin).unwrap_or(Duration::ZERO);
    u64::try_from(spent.as_nanos()).unwrap_or(u64::MAX)
}

/// Tells the times for one of the items of a round.
fn report(rt: &impl Eprint, name: &str, items: u64, rounds: &mut [u64; ROUNDS]) -> Measured<()> {
    rounds.sort_unstable();
    let least = picoseconds(rounds[0], items);
    let median = picoseconds(rounds[ROUNDS / 2], items);
    let most = picoseconds(rounds[ROUNDS - 1], items);
    let told = eprintln!(rt;
        "{name}: median {median}, least {least}, most {most} picoseconds, {ROUNDS} rounds of {items}"
    );
    match told {
        Ok(()) => Ok(()),
        Err(_) => Err(Fault::Output),
    }
}

/// Picoseconds for one item.
fn picoseconds(nanos: u64, items: u64) -> u64 {
    nanos.saturating_mul(1000) / items.max(1)
}
