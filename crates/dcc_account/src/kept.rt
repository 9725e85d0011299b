//! The outcomes of the acts that were made.

ghost use Rattle.std.specs.Prelude.{◌≡◌};
ghost use Rattle.std.specs.Option.{option_and_then, option_copied};
ghost use Rattle.dcc_account.specs.inner.Indexed.{outcome_in};

use dcc_act::Outcome;

/// The outcome of the act at a place, counted from 1.
pub(crate) fn outcome_at(outcomes: &[Outcome], place: Option<u64>) -> Option<&Outcome>
    ensures { option_copied result ≡ option_and_then (outcome_in outcomes.now) place }
{
    let before = place?.checked_sub(1)?;
    outcomes.get(before as usize)
}
