//! The rows that a load makes of a log, one for each subscriber that has acts.

ghost use Rattle.std.specs.Prelude.{◌≡◌, ◌≢◌, [], ◌∷◌, ◌++◌, IfOk, OnOk, OnErr};
ghost use Rattle.std.specs.List.Sorted.{IsStrictlySortedBy};
ghost use Rattle.std.specs.Map.{keys_of};
ghost use Rattle.dcc_act.specs.declared.sub.Sub.{Sub};
ghost use Rattle.dcc_store.specs.Books.{sub_order, AreInOrder, with_act};
ghost use Rattle.dcc_store.specs.inner.Rows.{held_in, acts_at, pages_of};

use crate::logged::Logged;
use crate::page::Page;
use dcc_act::{Act, Sub, same_subscribers_are_equal};
use indexmap::IndexMap;
use std::alloc::{AllocError, Global};
use std::hash::RandomState;
use std::marker::Model;

/// The acts of a subscriber, in order, of which there is one at least.
#[derive(Drop)]
pub(crate) struct Row {
    acts: Vec<Act>,
}

impl Model for Row {
    ghost use Rattle.std.specs.Prelude.{◌≢◌, List, []};
    ghost use Rattle.dcc_act.specs.declared.act.Act.{Act};

    ghost Value = { List Act };

    ghost view = { λ r. r.acts.items };

    ghost invariant = { λ r. r.acts.items ≢ [] };
}

impl Row {
    /// The row of a first act.
    fn first(alloc: Global, act: Act) -> Result<Row, AllocError>
        ensures { IfOk result (λ row. row ≡ act ∷ []) }
    {
        let mut acts = Vec::new(alloc);
        acts.push(act)?;
        Ok(Row { acts })
    }

    /// Adds an act, or changes nothing.
    fn add(&mut self, act: Act) -> Result<(), AllocError>
        ensures ok { OnOk result (self.new ≡ self.old ++ act ∷ []) }
        ensures err { OnErr result (self.new ≡ self.old) }
    {
        self.acts.push(act)?;
        Ok(())
    }

    /// A copy of its acts.
    fn acts(&self, alloc: Global) -> Result<Vec<Act>, AllocError>
        ensures acts { IfOk result (λ acts. acts.items ≡ self.now) }
        ensures some { IfOk result (λ acts. acts.items ≢ []) }
    {
        let mut acts = Vec::with_capacity(alloc, self.acts.len())?;
        for act in &self.acts {
            let act = act.copy()?;
            acts.push_reserved(act);
        }
        Ok(acts)
    }
}

/// Adds an act of a subscriber.
fn add(
    rows: &mut IndexMap<Sub, Row, RandomState>,
    alloc: Global,
    sub: Sub,
    act: Act,
) -> Result<(), AllocError>
    ensures { OnOk result ((other : Sub) → acts_at rows.new.entries other ≡ with_act sub act (acts_at rows.old.entries) other) }
{
    same_subscribers_are_equal();
    match rows.get_mut(&sub) {
        Some(row) => row.add(act)?,
        None => {
            let row = Row::first(alloc, act)?;
            rows.insert(sub, row)?;
        }
    }
    Ok(())
}

/// A row for each subscriber of a log. The subscribers are found by `hasher`.
pub(crate) fn rows_of(
    alloc: Global,
    log: &[Logged],
    hasher: RandomState,
) -> Result<IndexMap<Sub, Row, RandomState>, AllocError>
    ensures { IfOk result (λ rows. (sub : Sub) → acts_at rows.entries sub ≡ held_in log.now sub) }
{
    let mut rows = IndexMap::with_hasher(alloc, hasher);
    for one in log {
        match one.act().copy() {
            Ok(act) => add(&mut rows, alloc, one.sub(), act)?,
            Err(error) => {
                // By a call: rows that are let go in place are proved part by part.
                drop(rows);
                return Err(error);
            }
        }
    }
    Ok(rows)
}

/// Puts the rows in the order of their subscribers. The row of each subscriber stays as it was. The only error is want of memory.
pub(crate) fn sort(rows: &mut IndexMap<Sub, Row, RandomState>) -> Result<(), AllocError>
    ensures ordered { OnOk result (IsStrictlySortedBy sub_order (keys_of rows.new.entries)) }
    ensures kept { (other : Sub) → acts_at rows.new.entries other ≡ acts_at rows.old.entries other }
{
    rows.sort_keys()?;
    Ok(())
}

/// A page for each row, in the order of the rows. The condition: the rows are in the order of their subscribers.
pub(crate) fn pages(
    alloc: Global,
    rows: &IndexMap<Sub, Row, RandomState>,
) -> Result<Vec<Page>, AllocError>
    requires { IsStrictlySortedBy sub_order (keys_of rows.now.entries) }
    ensures pages { IfOk result (λ pages. pages.items ≡ pages_of rows.now.entries) }
    ensures ordered { IfOk result (λ pages. AreInOrder pages.items) }
{
    let mut pages = Vec::with_capacity(alloc, rows.len())?;
    for (sub, row) in rows {
        let acts = row.acts(alloc)?;
        pages.push_reserved(Page::new(*sub, acts).unwrap());
    }
    Ok(pages)
}
