//! The tests of `close`, on plain data.

ghost use Rattle.std.specs.Prelude.{◌≡◌, ◌≢◌, ◌≤◌, ◌<◌, ◌↔◌, ◌&&◌, ◌++◌, ℕ, [], true, false, length, IfErr, IfOk, OnOk, IfSome, IfNone};
ghost use Rattle.std.specs.List.{list_all};
ghost use Rattle.dcc_act.specs.declared.sub.Sub.{Sub};
ghost use Rattle.dcc_running.specs.Audited.{all_of, is_true, are_true, times_in, AreTrue, AreCovered, AreOrdered, AreOwn, IsFault, IsOrderedIn};
ghost use Rattle.dcc_running.specs.Books.{AreShards, BeginWith, book, told_in};
ghost use Rattle.dcc_running.specs.inner.Marked.{AreMarked, IsCovered};
ghost use Rattle.dcc_running.specs.inner.Told.{are_placed};
ghost use Rattle.dcc_account.specs.Accounts.{outcomes};
ghost use Rattle.dcc_model.specs.Outcomes.{acts};
ghost use Rattle.dcc_receipts.specs.Audit.{agrees, is_answered, own, times};
ghost use Rattle.dcc_receipts.specs.Marks.{is_marked};
ghost use Rattle.dcc_shard.specs.Shards.{held, is_among};

use crate::books::{Books, are_own};
use crate::lock::Side;
use crate::naming::Naming;
use crate::placed::are_shards;
use crate::seat::Seat;
use crate::told::Told;
use dcc_act::{Journal, Outcome, Sub, same_subscribers_are_equal};
use dcc_message::Identity;
use dcc_receipts::{CloseFault, Marks, Receipt, agrees_with, is_answered};
use dcc_shard::Shard;
use dcc_store::Records;
use dcc_tariff::Terms;
use std::alloc::{AllocError, Global};
use std::hash::RandomState;

/// Compares the receipts of all seats with the books, each test over all of them before the next.
pub(crate) fn audit<R: Records, J: Naming>(
    alloc: Global,
    books: &Books<R, J>,
    seats: &[Seat],
) -> Result<(), CloseFault>
    ensures ok { OnOk result (AreTrue J.opening books.now seats.now × AreCovered J.opening books.now seats.now × AreOrdered books.now.sides seats.now × AreOwn books.now) }
    ensures fault { IfErr result (λ fault. IsFault fault J.opening books.now seats.now) }
{
    let Some(marks) = true_marks(alloc, books, seats)? else {
        return Err(CloseFault::ReceiptStray);
    };
    if !are_covered(alloc, books, &marks, seats)? {
        return Err(CloseFault::ActWithoutReceipt);
    }
    if !are_ordered(alloc, books.hasher, &books.sides, seats)? {
        return Err(CloseFault::OutOfOrder);
    }
    books.acts_are_own();
    Ok(())
}

/// The places that have a fresh receipt, where all receipts are true.
fn true_marks<R: Records, J: Naming>(
    alloc: Global,
    books: &Books<R, J>,
    seats: &[Seat],
) -> Result<Option<Marks>, AllocError>
    ensures some { IfOk result (λ found. IfSome found (λ marks. AreTrue J.opening books.now seats.now × AreMarked marks seats.now)) }
    ensures none { IfOk result (λ found. IfNone found (AreTrue J.opening books.now seats.now → ⊥)) }
{
    if !are_own(&books.sides) || !are_shards(alloc, books)? {
        return Ok(None);
    }
    books.acts_are_begun();
    books.told_are_true();
    if !are_true(alloc, books, seats)? {
        return Ok(None);
    }
    marked(alloc, books.hasher, &books.sides, seats)
}

/// Whether each receipt is true.
fn are_true<R: Records, J: Naming>(
    alloc: Global,
    books: &Books<R, J>,
    seats: &[Seat],
) -> Result<bool, AllocError>
    requires { AreShards books.now.terms books.now.identity books.now.parts }
    ensures { IfOk result (λ all. all
        ≡ are_true books.now.identity books.now.terms J.opening (book books.now.parts) seats.now) }
{
    for seat in seats {
        if !are_true_of(alloc, books, &seat.receipts)? {
            return Ok(false);
        }
    }
    Ok(true)
}

/// Whether each receipt of a seat is true.
fn are_true_of<R: Records, J: Naming>(
    alloc: Global,
    books: &Books<R, J>,
    receipts: &[Receipt],
) -> Result<bool, AllocError>
    requires { AreShards books.now.terms books.now.identity books.now.parts }
    ensures { IfOk result (λ all. all
        ≡ list_all (is_true books.now.identity books.now.terms J.opening (book books.now.parts)) receipts.now) }
{
    for receipt in receipts {
        if !is_true(alloc, books, receipt)? {
            return Ok(false);
        }
    }
    Ok(true)
}

/// Whether a receipt agrees with its subscriber's acts, and tells what its act came to.
fn is_true<R: Records, J: Naming>(
    alloc: Global,
    books: &Books<R, J>,
    receipt: &Receipt,
) -> Result<bool, AllocError>
    requires { AreShards books.now.terms books.now.identity books.now.parts }
    ensures { IfOk result (λ told. told
        ≡ is_true books.now.identity books.now.terms J.opening (book books.now.parts) receipt.now) }
{
    let opened = books.number_at_opening(&receipt.sub);
    let (identity, terms) = (&books.identity, &books.terms);
    match books.account(receipt.sub) {
        Some(account) => {
            let (acts, came) = (account.acts(), account.outcomes());
            is_true_of(alloc, identity, terms, opened, acts, came, receipt)
        }
        None => {
            let acts = Journal::new(alloc);
            let told = is_true_of(alloc, identity, terms, opened, &acts, &[], receipt);
            // By a call: a journal that is let go in place is proved part by part.
            drop(acts);
            told
        }
    }
}

/// Whether a receipt agrees with the acts that a shard holds of its subscriber, of which so many were there at opening, and tells what its act came to.
pub(crate) fn is_true_in<R: Records>(
    alloc: Global,
    shard: &Shard<R>,
    opened: usize,
    receipt: &Receipt,
) -> Result<bool, AllocError>
    ensures { IfOk result (λ told. told ≡ (agrees opened (held shard.now.shard receipt.now.sub) receipt.now
        && is_answered shard.now.shard.identity shard.now.shard.terms (held shard.now.shard receipt.now.sub) receipt.now)) }
{
    shard.acts_are_own();
    let (identity, terms) = (shard.identity(), shard.records().terms());
    match shard.account(receipt.sub) {
        Some(account) => {
            let (acts, came) = (account.acts(), account.outcomes());
            is_true_of(alloc, identity, terms, opened, acts, came, receipt)
        }
        None => {
            let acts = Journal::new(alloc);
            let told = is_true_of(alloc, identity, terms, opened, &acts, &[], receipt);
            // By a call: a journal that is let go in place is proved part by part.
            drop(acts);
            told
        }
    }
}

/// Whether a receipt agrees with these acts, of which so many were there at opening, and tells what its act came to.
fn is_true_of(
    alloc: Global,
    identity: &Identity,
    terms: &Terms,
    opened: usize,
    journal: &Journal,
    came: &[Outcome],
    receipt: &Receipt,
) -> Result<bool, AllocError>
    requires own { acts terms.now journal.now.acts ≡ journal.now.acts }
    requires came { came.now ≡ outcomes terms.now journal.now.acts }
    ensures { IfOk result (λ told. told ≡ (agrees opened journal.now.acts receipt.now && is_answered identity.now terms.now journal.now.acts receipt.now)) }
{
    if !agrees_with(opened, journal, receipt) {
        return Ok(false);
    }
    is_answered(alloc, identity, terms, journal, came, receipt)
}

/// The places that have a fresh receipt of these seats, or none where one has two, or has one that was audited before.
fn marked(
    alloc: Global,
    hasher: RandomState,
    sides: &[Side],
    seats: &[Seat],
) -> Result<Option<Marks>, AllocError>
    ensures some { IfOk result (λ found. IfSome found (λ marks. AreMarked marks seats.now)) }
    ensures apart { IfOk result (λ found. IfSome found (λ marks. (sub : Sub) (place : ℕ) → 0 < times_in sub place seats.now → times_in sub place (told_in sides.now) ≡ 0)) }
    ensures none { IfOk result (λ found. IfNone found ((sub : Sub) × (place : ℕ) × (1 < times_in sub place (told_in sides.now ++ seats.now)))) }
{
    let mut marks = Marks::new(alloc, hasher);
    for seat in seats {
        if is_any_told(sides, &seat.receipts) {
            return Ok(None);
        }
        if !marks.add_all(&seat.receipts)? {
            return Ok(None);
        }
    }
    Ok(Some(marks))
}

/// Whether the place of a fresh one of these receipts was audited before.
fn is_any_told(sides: &[Side], receipts: &[Receipt]) -> bool
    ensures yes { result ≡ true → (sub : Sub) × (place : ℕ) × (0 < times place (own sub receipts.now)) × (0 < times_in sub place (told_in sides.now)) }
    ensures no { result ≡ false → (sub : Sub) (place : ℕ) → 0 < times place (own sub receipts.now) → times_in sub place (told_in sides.now) ≡ 0 }
{
    same_subscribers_are_equal();
    for receipt in receipts {
        if receipt.fresh && is_told(sides, receipt.sub, receipt.place) {
            return true;
        }
    }
    false
}

/// Whether a subscriber's place has a fresh receipt that was audited.
fn is_told(sides: &[Side], sub: Sub, place: u64) -> bool
    ensures yes { result ≡ true → 0 < times_in sub place (told_in sides.now) }
    ensures no { result ≡ false → times_in sub place (told_in sides.now) ≡ 0 }
{
    for side in sides {
        if side.told.has(sub, place) {
            return true;
        }
    }
    false
}

/// Whether each act since opening has a fresh receipt. The conditions: the marks are the places of the seats' fresh receipts; no place has two fresh ones of
/// all receipts.
#[tactic(auto, using(crate::proofs::Covering::next_covered))]
fn are_covered<R: Records, J: Naming>(
    alloc: Global,
    books: &Books<R, J>,
    marks: &Marks,
    seats: &[Seat],
) -> Result<bool, AllocError>
    requires shards { AreShards books.now.terms books.now.identity books.now.parts }
    requires marked { AreMarked marks.now seats.now }
    requires single { (sub : Sub) (place : ℕ) → times_in sub place (all_of books.now seats.now) ≤ 1 }
    ensures yes { IfOk result (λ covered. covered ≡ true → AreCovered J.opening books.now seats.now) }
    ensures no { IfOk result (λ covered. covered ≡ false → AreCovered J.opening books.now seats.now → ⊥) }
{
    let _seats = seats;
    for i in 0..books.shards.len() {
        let subs = books.shards[i].subs(alloc)?;
        if !are_all_covered(books, marks, &subs) {
            return Ok(false);
        }
    }
    Ok(true)
}

/// Whether each act of these subscribers since opening has a fresh receipt.
fn are_all_covered<R: Records, J: Naming>(books: &Books<R, J>, marks: &Marks, subs: &[Sub]) -> bool
    requires { AreShards books.now.terms books.now.identity books.now.parts }
    ensures yes { result ≡ true → (sub : Sub) (place : ℕ) → is_among sub subs.now ≡ true → length (J.opening sub) < place
        → place ≤ length (book books.now.parts sub) → IsCovered marks.now books.now.sides sub place }
    ensures no { result ≡ false → (sub : Sub) × (place : ℕ) × (length (J.opening sub) < place)
        × (place ≤ length (book books.now.parts sub)) × (IsCovered marks.now books.now.sides sub place → ⊥) }
{
    same_subscribers_are_equal();
    for sub in subs {
        if !is_covered(books, marks, *sub) {
            return false;
        }
    }
    true
}

/// Whether each act of a subscriber since opening has a fresh receipt.
fn is_covered<R: Records, J: Naming>(books: &Books<R, J>, marks: &Marks, sub: Sub) -> bool
    requires { AreShards books.now.terms books.now.identity books.now.parts }
    ensures yes { result ≡ true → (place : ℕ) → length (J.opening sub) < place → place ≤ length (book books.now.parts sub)
        → IsCovered marks.now books.now.sides sub place }
    ensures no { result ≡ false → (place : ℕ) × (length (J.opening sub) < place) × (place ≤ length (book books.now.parts sub))
        × (IsCovered marks.now books.now.sides sub place → ⊥) }
{
    let opened = books.number_at_opening(&sub);
    let count = books.count(sub);
    for before in opened..count {
        let place = before as u64 + 1;
        if !marks.has(sub, place) && !is_told(&books.sides, sub, place) {
            return false;
        }
    }
    true
}

/// Whether the receipts of each seat are in order behind those that audits took out of it. The condition: each that is fresh has a place.
fn are_ordered(
    alloc: Global,
    hasher: RandomState,
    sides: &[Side],
    seats: &[Seat],
) -> Result<bool, AllocError>
    requires placed { list_all are_placed seats.now ≡ true }
    ensures yes { IfOk result (λ ordered. ordered ≡ true → AreOrdered sides.now seats.now) }
    ensures no { IfOk result (λ ordered. ordered ≡ false → AreOrdered sides.now seats.now → ⊥) }
{
    for side in sides {
        if !are_ordered_in(alloc, hasher, &side.told, seats)? {
            return Ok(false);
        }
    }
    Ok(true)
}

/// Whether the receipts of each seat are in order behind those that a shard's audits took out of it. The condition: each that is fresh has a place.
fn are_ordered_in(
    alloc: Global,
    hasher: RandomState,
    told: &Told,
    seats: &[Seat],
) -> Result<bool, AllocError>
    requires placed { list_all are_placed seats.now ≡ true }
    ensures yes { IfOk result (λ ordered. ordered ≡ true → IsOrderedIn told.now seats.now) }
    ensures no { IfOk result (λ ordered. ordered ≡ false → IsOrderedIn told.now seats.now → ⊥) }
{
    told.are_in_order();
    for seat in 0..seats.len() {
        if !told.is_continued(alloc, hasher, seat, seats[seat].receipts())? {
            return Ok(false);
        }
    }
    Ok(true)
}
