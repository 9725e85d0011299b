//! Whether a receipt agrees with its subscriber's acts.

ghost use Rattle.std.specs.Prelude.{◌≡◌, ◌&&◌, ◌||◌, not, nat_lt, Some};
ghost use Rattle.dcc_model.specs.Keys.{same_key};
ghost use Rattle.dcc_receipts.specs.Audit.{agrees, all_agree, is_there};

use crate::receipt::Receipt;
use crate::same::same_act;
use dcc_act::{Act, Journal, Kind, Looks};
use dcc_model::request_key;

/// Whether each receipt agrees with the acts, of which the first `opened` were there at opening.
pub(crate) fn all_agree(opened: usize, acts: &[Act], receipts: &[Receipt]) -> bool
    ensures { result ≡ all_agree opened acts.now receipts.now }
{
    receipts.iter().all(|r| agrees(opened, acts, r))
}

/// Whether a receipt agrees with the acts, of which the first `opened` were there at opening.
#[tactic(auto, using(crate::proofs::Places::agrees_at))]
fn agrees(opened: usize, acts: &[Act], receipt: &Receipt) -> bool
    ensures { result ≡ agrees opened acts.now receipt.now }
{
    if receipt.place == 0 {
        return !receipt.fresh && opened == 0;
    }
    if (acts.len() as u64) < receipt.place {
        return false;
    }
    is_at(opened, &acts[(receipt.place - 1) as usize], receipt)
}

/// Whether a receipt agrees with the acts of a journal, of which the first `opened` were there at opening. A fresh receipt has to have
/// the act at its place, which was made since opening; any other, the key of the act at its place. A receipt without a place is of an
/// unknown subscriber, who had no acts at opening.
#[tactic(auto, using(crate::proofs::Places::agrees_where))]
pub fn agrees_with(opened: usize, journal: &Journal, receipt: &Receipt) -> bool
    ensures { result ≡ agrees opened journal.now.acts receipt.now }
{
    if receipt.place == 0 {
        return !receipt.fresh && opened == 0;
    }
    match journal.get(receipt.place, &mut Looks::new()) {
        Some(there) => is_at(opened, there, receipt),
        None => false,
    }
}

/// Whether the act at a receipt's place is the receipt's act, made since opening, if the receipt is fresh, and otherwise an act with the
/// same key.
fn is_at(opened: usize, there: &Act, receipt: &Receipt) -> bool
    ensures { result ≡ (is_there (Some there.now) receipt.now && (not receipt.now.fresh || nat_lt opened receipt.now.place)) }
{
    if receipt.fresh {
        same_act(there, &receipt.act) && (opened as u64) < receipt.place
    } else {
        is_same_key(&receipt.act.kind, &there.kind)
    }
}

/// Whether two acts have the same key: requests, the session and the number; top-ups, the ticket.
fn is_same_key(a: &Kind, b: &Kind) -> bool
    ensures { result ≡ same_key a.now b.now }
{
    match (a, b) {
        (Kind::TopUp(a), Kind::TopUp(b)) => a.ticket == b.ticket,
        _ => match (request_key(a), request_key(b)) {
            (Some(a), Some(b)) => *a == *b,
            _ => false,
        },
    }
}
