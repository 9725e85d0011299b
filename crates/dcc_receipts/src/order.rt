//! Whether receipts are in order.

ghost use Rattle.std.specs.Prelude.{◌≡◌, [], true, false, None, IfOk};
ghost use Rattle.dcc_act.specs.declared.sub.Sub.{Sub};
ghost use Rattle.dcc_receipts.specs.Audit.{own, in_order};
ghost use Rattle.dcc_receipts.specs.Tops.{follows, top_after, in_order_by};

use crate::receipt::Receipt;
use dcc_act::same_subscribers_are_equal;
use std::alloc::{AllocError, Global};
use std::collections::HashMap;
use std::hash::RandomState;

/// Whether each receipt is after all receipts before it.
#[tactic(auto, using(crate::proofs::Orders::by_top))]
pub(crate) fn in_order(receipts: &[Receipt]) -> bool
    ensures { result ≡ in_order [] receipts.now }
{
    in_order_by_top(receipts)
}

fn in_order_by_top(receipts: &[Receipt]) -> bool
    ensures { result ≡ in_order_by None receipts.now }
{
    let mut top = None;
    for receipt in receipts {
        if !follows(top, receipt) {
            return false;
        }
        top = Some(top_after(top, receipt));
    }
    true
}

/// Whether a receipt is after all receipts before it, of whose places this is the greatest; none if there is no receipt before it.
pub fn follows(top: Option<u64>, receipt: &Receipt) -> bool
    ensures { result ≡ follows top receipt.now }
{
    match top {
        None => true,
        Some(top) => {
            if receipt.fresh {
                top < receipt.place
            } else {
                0 < receipt.place || top == 0
            }
        }
    }
}

/// The greatest place of a receipt and of the receipts before it.
pub fn top_after(top: Option<u64>, receipt: &Receipt) -> u64
    ensures { result ≡ top_after top receipt.now }
{
    match top {
        None => receipt.place,
        Some(top) => top.max(receipt.place),
    }
}

/// Whether each receipt of a seat is after all earlier receipts of the same subscriber in the seat. The only error is want of memory.
#[tactic(auto, using(crate::proofs::Orders::by_top))]
pub fn each_in_order(
    alloc: Global,
    hasher: RandomState,
    receipts: &[Receipt],
) -> Result<bool, AllocError>
    ensures yes { IfOk result (λ ordered. ordered ≡ true → (sub : Sub) → in_order [] (own sub receipts.now) ≡ true) }
    ensures no { IfOk result (λ ordered. ordered ≡ false → (sub : Sub) × (in_order [] (own sub receipts.now) ≡ false)) }
{
    same_subscribers_are_equal();
    each_in_order_by_tops(alloc, hasher, receipts)
}

fn each_in_order_by_tops(
    alloc: Global,
    hasher: RandomState,
    receipts: &[Receipt],
) -> Result<bool, AllocError>
    ensures yes { IfOk result (λ ordered. ordered ≡ true → (sub : Sub) → in_order_by None (own sub receipts.now) ≡ true) }
    ensures no { IfOk result (λ ordered. ordered ≡ false → (sub : Sub) × (in_order_by None (own sub receipts.now) ≡ false)) }
{
    same_subscribers_are_equal();
    let mut tops = HashMap::with_hasher(alloc, hasher);
    for receipt in receipts {
        let top = tops.get(&receipt.sub).copied();
        if !follows(top, receipt) {
            return Ok(false);
        }
        tops.insert(receipt.sub, top_after(top, receipt))?;
    }
    Ok(true)
}
