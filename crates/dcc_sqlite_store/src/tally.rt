//! What records know of each subscriber without asking the database.

ghost use Rattle.std.specs.Prelude.{◌≡◌, ◌+◌, ◌+ℤ◌, if◌then◌else◌, length, map, IfSome, IfNone, IfOk, OnOk};
ghost use Rattle.std.specs.Ordering.{is_eq};
ghost use Rattle.dcc_tariff.specs.Terms.{TermsView};
ghost use Rattle.dcc_act.specs.declared.sub.Sub.{Sub};
ghost use Rattle.dcc_model.specs.Entries.{sum_of};
ghost use Rattle.dcc_store.specs.Books.{acts_in, sub_order};
ghost use Rattle.dcc_sqlite_rows.specs.Tallies.{tally_of};
ghost use Rattle.dcc_sqlite_store.specs.inner.Tallies.{tally_in, no_tally, AreTallies, IsTooMuch, Pass};
ghost use Rattle.dcc_sqlite_store.specs.inner.Steps.{HasPlace, HavePlaces, with_tally, tallies_after};

use crate::appending::Step;
use dcc_act::{Entry, Sub, same_subscribers_are_equal};
use dcc_model::funds_are_accounted_for;
use dcc_sqlite_rows::Tally;
use dcc_store::Page;
use std::alloc::{AllocError, Global};
use std::collections::BTreeMap;

/// The tally with one act more, which adds these entries, or none where it passes what a row can hold.
pub fn with_act(tally: Tally, entries: &[Entry]) -> Option<Tally>
    ensures acts { IfSome result (λ next. next.acts ≡ tally.acts + 1) }
    ensures funds { IfSome result (λ next. next.funds ≡ tally.funds +ℤ sum_of entries.now) }
    ensures none { IfNone result (IsTooMuch tally entries.now) }
{
    let acts = tally.acts.checked_add(1)?;
    let funds = add_amounts(tally.funds, entries)?;
    Some(Tally { acts, funds })
}

/// The funds with the amounts of the entries, or none where they pass 64 bits.
fn add_amounts(funds: i64, entries: &[Entry]) -> Option<i64>
    ensures total { IfSome result (λ total. total ≡ funds +ℤ sum_of entries.now) }
    ensures none { IfNone result (Pass funds entries.now) }
{
    match entries {
        [] => Some(funds),
        [first, rest @ ..] => add_amounts(funds.checked_add(first.amount)?, rest),
    }
}

/// The tally of a subscriber.
pub fn tally_of(tallies: &BTreeMap<Sub, Tally>, sub: Sub) -> Tally
    ensures { result ≡ tally_in tallies.now.entries sub }
{
    match tallies.get(&sub) {
        Some(tally) => *tally,
        None => Tally { acts: 0, funds: 0 },
    }
}

/// Makes room for the tally of a subscriber, or changes nothing; each tally stays.
pub fn make_room(tallies: &mut BTreeMap<Sub, Tally>, sub: Sub) -> Result<(), AllocError>
    ensures same { (other : Sub) → tally_in tallies.new.entries other ≡ tally_in tallies.old.entries other }
    ensures there { OnOk result (HasPlace tallies.new.entries sub) }
    ensures stays { (other : Sub) → HasPlace tallies.old.entries other → HasPlace tallies.new.entries other }
{
    same_subscribers_are_equal();
    if !tallies.contains_key(&sub) {
        tallies.insert(sub, Tally { acts: 0, funds: 0 })?;
    }
    Ok(())
}

/// Sets the tally of each step's subscriber, for whom there is a place. It takes no memory.
pub fn set_tallies(tallies: &mut BTreeMap<Sub, Tally>, steps: &[Step<'_>])
    requires { HavePlaces tallies.old.entries steps.now }
    ensures { (other : Sub) → tally_in tallies.new.entries other ≡ tallies_after steps.now (tally_in tallies.old.entries) other }
{
    for step in steps {
        set_tally(tallies, step.sub(), step.next());
    }
}

/// Sets the tally of a subscriber for whom there is a place. It takes no memory.
fn set_tally(tallies: &mut BTreeMap<Sub, Tally>, sub: Sub, tally: Tally)
    requires { HasPlace tallies.old.entries sub }
    ensures set { (other : Sub) → tally_in tallies.new.entries other ≡ with_tally sub tally (tally_in tallies.old.entries) other }
    ensures stays { (other : Sub) → HasPlace tallies.old.entries other → HasPlace tallies.new.entries other }
{
    same_subscribers_are_equal();
    if let Some(place) = tallies.get_mut(&sub) {
        *place = tally;
    }
}

/// The tallies of pages whose counts these are, in the same order. The only error is want of memory.
pub fn tallies_of(
    alloc: Global,
    pages: &[Page],
    counts: &[Tally],
) -> Result<BTreeMap<Sub, Tally>, AllocError>
    requires { length counts.now ≡ length pages.now }
    ensures { IfOk result (λ tallies. (terms : TermsView) → counts.now ≡ map (tally_of terms) pages.now
        → AreTallies terms tallies.entries (acts_in pages.now)) }
{
    funds_are_accounted_for();
    let mut tallies = BTreeMap::new(alloc);
    // From the last page on, so that of pages of one subscriber the first decides.
    for i in (0..pages.len()).rev() {
        put_tally(&mut tallies, pages[i].sub(), counts[i])?;
    }
    Ok(tallies)
}

/// Puts the tally of a subscriber in place of what is there. The only error is want of memory.
fn put_tally(tallies: &mut BTreeMap<Sub, Tally>, sub: Sub, tally: Tally) -> Result<(), AllocError>
    ensures { OnOk result ((other : Sub)
        → tally_in tallies.new.entries other ≡ (if is_eq (sub_order sub other) then tally else tally_in tallies.old.entries other)) }
{
    tallies.insert(sub, tally)?;
    Ok(())
}
