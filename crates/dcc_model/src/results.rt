//! The result of the command in an outcome.

ghost use Rattle.std.specs.Prelude.{◌≡◌};
ghost use Rattle.dcc_model.specs.Results.{succeeded, refused};

use dcc_act::{Outcome, ResultCode};

/// Whether the command was answered with success.
pub fn has_succeeded(outcome: &Outcome) -> bool
    ensures { result ≡ succeeded outcome.now }
{
    match outcome {
        Outcome::Answered(answer) => matches!(answer.result, ResultCode::Success),
        _ => false,
    }
}

/// Whether an update or a termination was refused as a whole: its session wasn't open, or the floor wouldn't bear its charges.
pub fn is_refused(outcome: &Outcome) -> bool
    ensures { result ≡ refused outcome.now }
{
    match outcome {
        Outcome::Answered(answer) => matches!(
            answer.result,
            ResultCode::UnknownSession | ResultCode::UnableToComply
        ),
        _ => false,
    }
}
