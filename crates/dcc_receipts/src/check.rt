//! The test of one seat's receipts against one subscriber's acts.

ghost use Rattle.std.specs.Prelude.{◌≡◌, ℕ, ◌<◌, ◌≤◌, ◌≢◌, true, false, length, Err, OnOk};
ghost use Rattle.dcc_receipts.specs.Audit.{times};
ghost use Rattle.dcc_receipts.specs.inner.Singles.{are_single};
ghost use Rattle.dcc_receipts.specs.Checks.{AreTrue, AreCovered, AreOrdered};
ghost use Rattle.dcc_receipts.specs.declared.fault.CloseFault.TheVariants.{Memory, ReceiptStray, ActWithoutReceipt, OutOfOrder};

use crate::agree::all_agree;
use crate::fault::CloseFault;
use crate::order::in_order;
use crate::receipt::Receipt;
use dcc_act::Act;

/// Compares the receipts of one seat, in order, with the acts of one subscriber, who had no acts at opening. It reads neither the
/// subscribers nor the answers of the receipts. It takes no memory, and is slow: it reads all receipts for each act.
///
/// Errors, each only if no error before it in this list holds: [`CloseFault::ReceiptStray`], a receipt isn't of these acts, or a place
/// has two fresh receipts; [`CloseFault::ActWithoutReceipt`], an act has no fresh receipt; [`CloseFault::OutOfOrder`], the receipts are
/// out of order.
pub fn check_receipts(acts: &[Act], receipts: &[Receipt]) -> Result<(), CloseFault>
    ensures ok { OnOk result (AreTrue acts.now receipts.now × AreCovered acts.now receipts.now × AreOrdered receipts.now) }
    ensures stray { result ≡ Err ReceiptStray → AreTrue acts.now receipts.now → ⊥ }
    ensures uncovered { result ≡ Err ActWithoutReceipt → AreTrue acts.now receipts.now × (AreCovered acts.now receipts.now → ⊥) }
    ensures unordered { result ≡ Err OutOfOrder → AreTrue acts.now receipts.now × AreCovered acts.now receipts.now × (AreOrdered receipts.now → ⊥) }
    ensures memory { result ≢ Err Memory }
{
    if !all_agree(0, acts, receipts) || !are_single(receipts) {
        return Err(CloseFault::ReceiptStray);
    }
    if !are_covered(acts.len(), receipts) {
        return Err(CloseFault::ActWithoutReceipt);
    }
    if !in_order(receipts) {
        return Err(CloseFault::OutOfOrder);
    }
    Ok(())
}

/// Whether no place has two fresh receipts.
fn are_single(receipts: &[Receipt]) -> bool
    ensures yes { result ≡ true → (place : ℕ) → times place receipts.now ≤ 1 }
    ensures no { result ≡ false → ((place : ℕ) → times place receipts.now ≤ 1) → ⊥ }
{
    each_is_single(receipts)
}

/// Whether each fresh receipt is the only one of its place.
fn each_is_single(receipts: &[Receipt]) -> bool
    ensures { result ≡ are_single receipts.now receipts.now }
{
    receipts
        .iter()
        .all(|r| !r.fresh || times(r.place, receipts) <= 1)
}

/// Whether each place up to this one has a fresh receipt.
fn are_covered(count: usize, receipts: &[Receipt]) -> bool
    ensures yes { result ≡ true → (place : ℕ) → 0 < place → place ≤ count → 0 < times place receipts.now }
    ensures no { result ≡ false → ((place : ℕ) → 0 < place → place ≤ count → 0 < times place receipts.now) → ⊥ }
{
    for before in 0..count {
        if times(before as u64 + 1, receipts) == 0 {
            return false;
        }
    }
    true
}

/// The number of fresh receipts of a place.
fn times(place: u64, receipts: &[Receipt]) -> usize
    ensures { result ≡ times place receipts.now }
{
    receipts
        .iter()
        .filter(|r| r.fresh && r.place == place)
        .count()
}
