//! The acts of a batch, as they are written.

ghost use Rattle.std.specs.Prelude.{◌≡◌, ◌⊎◌, Err, IsTrue, IfOk, OnOk, OnErr};
ghost use Rattle.sqlite.specs.State.{HasCleanDisk, Survives};
ghost use Rattle.sqlite.specs.Held.{state};
ghost use Rattle.dcc_act.specs.declared.sub.Sub.{Sub};
ghost use Rattle.dcc_sqlite_store.specs.Tables.{layout};
ghost use Rattle.dcc_sqlite_rows.specs.Pages.{IsSub};
ghost use Rattle.dcc_sqlite_rows.specs.Rows.{sub_octets};
ghost use Rattle.dcc_sqlite_store.specs.inner.Inside.{GoesOn, CommitStays};
ghost use Rattle.dcc_sqlite_store.specs.inner.Tallies.{tally_in};
ghost use Rattle.dcc_sqlite_store.specs.inner.Trees.{account_tree, IsKeyed, HasRun};
ghost use Rattle.dcc_sqlite_store.specs.inner.Steps.{step_behind, steps_behind, AppendsStep, AppendsAll, HasPlace, HavePlaces};

use crate::adding::add_rows;
use crate::tally::{make_room, tally_of, with_act};
use dcc_act::{Act, Entry, Sub};
use dcc_act_codec::{keeps_limits, write_act};
use dcc_sqlite_rows::Tally;
use dcc_store::{Addition, StoreFault};
use sqlite::{Alter, Error, Transaction};
use std::alloc::{AllocError, Global};
use std::collections::BTreeMap;
use std::marker::Model;

/// An act of a subscriber with its entries, the octets of its row, and the tally that it leaves to the subscriber.
#[derive(Drop)]
pub struct Step<'a> {
    sub: Sub,
    act: &'a Act,
    entries: &'a [Entry],
    octets: Vec<u8>,
    body: Vec<u8>,
    place: u32,
    funds: i64,
}

impl<'a> Model for Step<'a> {
    ghost use Rattle.std.specs.Prelude.{◌≡◌};
    ghost use Rattle.dcc_act_codec.specs.Limits.{IsAct};
    ghost use Rattle.dcc_act_codec.specs.Records.{record_of};
    ghost use Rattle.dcc_sqlite_rows.specs.Pages.{IsSub};
    ghost use Rattle.dcc_sqlite_rows.specs.Rows.{sub_octets};
    ghost use Rattle.dcc_sqlite_store.specs.inner.Steps.{StepView};

    ghost Value = { StepView };

    ghost view = { λ s. record {
      one = record { sub = s.sub; act = s.act.now; entries = s.entries.now };
      next = record { acts = s.place; funds = s.funds };
    } };

    ghost invariant = { λ s. IsAct s.act.now × IsSub s.sub × (s.octets.items ≡ sub_octets s.sub) × (s.body.items ≡ record_of s.act.now) };
}

impl<'a> Step<'a> {
    /// The step of an addition to a subscriber of this tally.
    fn of(alloc: Global, one: &Addition<'a>, tally: Tally) -> Result<Step<'a>, StoreFault>
        ensures step { IfOk result (λ step. step ≡ step_behind tally one.now) }
        ensures fault { OnErr result ((result ≡ Err StoreFault.Memory) ⊎ (result ≡ Err StoreFault.Device)) }
    {
        let act = one.act();
        let entries = one.entries();
        keeps_limits(act);
        let Some(next) = with_act(tally, entries) else {
            return Err(StoreFault::Device);
        };
        let Ok(place) = u32::try_from(next.acts) else {
            return Err(StoreFault::Device);
        };
        let Ok(octets) = octets_of(alloc, one.sub()) else {
            return Err(StoreFault::Memory);
        };
        let Ok(body) = write_act(alloc, act) else {
            return Err(StoreFault::Memory);
        };
        Ok(Step {
            sub: one.sub(),
            act,
            entries,
            octets,
            body,
            place,
            funds: next.funds,
        })
    }

    /// The subscriber whose act it is.
    pub fn sub(&self) -> Sub
        ensures { result ≡ self.now.one.sub }
    {
        self.sub
    }

    /// The tally that it leaves to the subscriber.
    pub fn next(&self) -> Tally
        ensures { result ≡ self.now.next }
    {
        Tally {
            acts: u64::from(self.place),
            funds: self.funds,
        }
    }

    /// The rows of the act, of its entries and of the account are written.
    fn add<S: Alter>(&self, tx: &mut Transaction<'_, S>) -> Result<(), Error>
        ensures same_reference { tx.new.conn.ghost_name ≡ tx.old.conn.ghost_name }
        ensures added { HasCleanDisk (state S.Store tx.new.conn.now) → IsTrue (state S.Store tx.old.conn.now).in_transaction
            → (state S.Store tx.old.conn.now).now.schema ≡ layout
            → IsKeyed ((state S.Store tx.old.conn.now).now.trees account_tree)
            → OnOk result (HasRun (AppendsStep self.now) (state S.Store tx.old.conn.now) (state S.Store tx.new.conn.now)) }
        ensures inside { GoesOn result (state S.Store tx.old.conn.now) (state S.Store tx.new.conn.now) }
        ensures kept { CommitStays (state S.Store tx.old.conn.now) (state S.Store tx.new.conn.now) }
        ensures survives { Survives (state S.Store tx.old.conn.now) (state S.Store tx.new.conn.now) (λ _. ⊥) }
    {
        add_rows(
            tx,
            &self.octets,
            self.place,
            &self.body,
            self.entries,
            self.funds,
        )
    }
}

/// The steps of a batch, each behind the tally of its subscriber, and a place for each tally. Each tally stays.
pub fn steps_of<'a>(
    alloc: Global,
    tallies: &mut BTreeMap<Sub, Tally>,
    batch: &[Addition<'a>],
) -> Result<Vec<Step<'a>>, StoreFault>
    ensures same { (other : Sub) → tally_in tallies.new.entries other ≡ tally_in tallies.old.entries other }
    ensures steps { IfOk result (λ steps. steps.items ≡ steps_behind tallies.old.entries batch.now) }
    ensures places { IfOk result (λ steps. HavePlaces tallies.new.entries steps.items) }
    ensures fault { OnErr result ((result ≡ Err StoreFault.Memory) ⊎ (result ≡ Err StoreFault.Device)) }
{
    let Ok(mut steps) = Vec::with_capacity(alloc, batch.len()) else {
        return Err(StoreFault::Memory);
    };
    for one in batch {
        let step = placed_step(alloc, tallies, one)?;
        steps.push_reserved(step);
    }
    Ok(steps)
}

/// The step of an addition behind the tally of its subscriber, and a place for the tally. Each tally stays.
fn placed_step<'a>(
    alloc: Global,
    tallies: &mut BTreeMap<Sub, Tally>,
    one: &Addition<'a>,
) -> Result<Step<'a>, StoreFault>
    ensures same { (other : Sub) → tally_in tallies.new.entries other ≡ tally_in tallies.old.entries other }
    ensures stays { (other : Sub) → HasPlace tallies.old.entries other → HasPlace tallies.new.entries other }
    ensures step { IfOk result (λ step. step ≡ step_behind (tally_in tallies.old.entries one.now.sub) one.now) }
    ensures place { OnOk result (HasPlace tallies.new.entries one.now.sub) }
    ensures fault { OnErr result ((result ≡ Err StoreFault.Memory) ⊎ (result ≡ Err StoreFault.Device)) }
{
    let tally = tally_of(tallies, one.sub());
    if make_room(tallies, one.sub()).is_err() {
        return Err(StoreFault::Memory);
    }
    Step::of(alloc, one, tally)
}

/// The rows of each step are written, step by step.
pub fn add_steps<S: Alter>(tx: &mut Transaction<'_, S>, steps: &[Step<'_>]) -> Result<(), Error>
    ensures same_reference { tx.new.conn.ghost_name ≡ tx.old.conn.ghost_name }
    ensures added { HasCleanDisk (state S.Store tx.new.conn.now) → IsTrue (state S.Store tx.old.conn.now).in_transaction
        → (state S.Store tx.old.conn.now).now.schema ≡ layout
        → IsKeyed ((state S.Store tx.old.conn.now).now.trees account_tree)
        → OnOk result (HasRun (AppendsAll steps.now) (state S.Store tx.old.conn.now) (state S.Store tx.new.conn.now)) }
    ensures inside { GoesOn result (state S.Store tx.old.conn.now) (state S.Store tx.new.conn.now) }
    ensures kept { CommitStays (state S.Store tx.old.conn.now) (state S.Store tx.new.conn.now) }
    ensures survives { Survives (state S.Store tx.old.conn.now) (state S.Store tx.new.conn.now) (λ _. ⊥) }
{
    for i in 0..steps.len() {
        steps[i].add(tx)?;
    }
    Ok(())
}

/// A subscriber as the tables have it: the type in one octet, and the data.
pub fn octets_of(alloc: Global, sub: Sub) -> Result<Vec<u8>, AllocError>
    ensures value { IfOk result (λ octets. octets.items ≡ sub_octets sub) }
    ensures valid { IsSub sub }
{
    let mut octets = vec![in alloc; sub.kind()]?;
    octets.extend_from_slice(sub.name())?;
    Ok(octets)
}
