//! Whether the answer in a receipt is the answer by the outcome of its act.

ghost use Rattle.std.specs.Prelude.{◌≡◌, ◌≤◌, ◌<◌, map, reverse, IfOk};
ghost use Rattle.dcc_model.specs.Outcomes.{acts, outcome_of, history};
ghost use Rattle.dcc_receipts.specs.Audit.{is_answer, tells, is_answered};

use crate::receipt::{Receipt, Told};
use dcc_act::{Journal, Outcome};
use dcc_credit::write_cca;
use dcc_message::Identity;
use dcc_model::unknown;
use dcc_tariff::Terms;
use std::alloc::{AllocError, Global};

/// Whether the answer in a receipt is the answer by the outcome at its place among the acts of a journal. A request's answer is written
/// anew and compared octet for octet. The conditions: the journal's acts are exactly those that their own list makes, and `outcomes`
/// are their outcomes, in order. The only error is want of memory.
pub fn is_answered(
    alloc: Global,
    identity: &Identity,
    terms: &Terms,
    journal: &Journal,
    outcomes: &[Outcome],
    receipt: &Receipt,
) -> Result<bool, AllocError>
    requires own { acts terms.now journal.now.acts ≡ journal.now.acts }
    requires came { outcomes.now ≡ reverse (map outcome_of (history terms.now (reverse journal.now.acts))) }
    ensures { IfOk result (λ answered. answered ≡ is_answered identity.now terms.now journal.now.acts receipt.now) }
{
    // The body reads nothing of the journal: only the conditions speak of its acts.
    let _journal = journal;
    if receipt.place == 0 {
        return match unknown(&receipt.act.kind)? {
            Some(come) => tells(alloc, identity, terms, receipt, &come),
            None => Ok(false),
        };
    }
    if (outcomes.len() as u64) < receipt.place {
        return Ok(false);
    }
    let come = &outcomes[(receipt.place - 1) as usize];
    tells(alloc, identity, terms, receipt, come)
}

/// Whether the answer in a receipt is the answer by this outcome.
fn tells(
    alloc: Global,
    identity: &Identity,
    terms: &Terms,
    receipt: &Receipt,
    come: &Outcome,
) -> Result<bool, AllocError>
    ensures { IfOk result (λ told. told ≡ tells identity.now terms.now receipt.now receipt.now.answer come.now) }
{
    match (&receipt.answer, come) {
        (Told::Octets(octets), _) => {
            if !is_answer(come) {
                return Ok(false);
            }
            let written = write_cca(
                alloc,
                identity,
                terms,
                &receipt.header,
                &receipt.proxies,
                come,
            )?;
            Ok(octets.as_slice() == written.as_slice())
        }
        (Told::Added, Outcome::Added) | (Told::Ceiling, Outcome::Ceiling) => Ok(true),
        (Told::Closed { sessions }, Outcome::Expired { sessions: ended }) => {
            Ok(*sessions == *ended)
        }
        _ => Ok(false),
    }
}

/// Whether a request may have this outcome.
fn is_answer(come: &Outcome) -> bool
    ensures { result ≡ is_answer come.now }
{
    matches!(come, Outcome::Unknown { .. } | Outcome::Answered(_))
}
