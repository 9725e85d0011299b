//! Laws.

ghost use Rattle.std.specs.Prelude.{◌≡◌, ◌∷◌, []};
ghost use Rattle.dcc_metrics.specs.declared.requests.RequestKind.TheVariants as kinds;

use crate::bounds::BOUNDS;
use crate::requests::KINDS;
use crate::results::{RESULTS, TOO_BUSY};

/// Does nothing: the constants of this crate are these.
pub fn numbers_are_given()
    ensures bounds { BOUNDS ≡ 100 ∷ 250 ∷ 500 ∷ 1_000 ∷ 2_500 ∷ 5_000 ∷ 10_000 ∷ 25_000 ∷ 50_000 ∷ 100_000 ∷ 250_000 ∷ 500_000 ∷ 1_000_000 ∷ 2_500_000 ∷ [] }
    ensures results { RESULTS ≡ 2001 ∷ 3001 ∷ 3004 ∷ 3007 ∷ 3008 ∷ 4012 ∷ 5001 ∷ 5002 ∷ 5004 ∷ 5005 ∷ 5006 ∷ 5007 ∷ 5009 ∷ 5010 ∷ 5012 ∷ 5014 ∷ 5017 ∷ 5030 ∷ 5031 ∷ [] }
    ensures busy { TOO_BUSY ≡ 3004 }
    ensures kinds { KINDS ≡ kinds.Capabilities ∷ kinds.Watchdog ∷ kinds.Disconnect ∷ kinds.Initial ∷ kinds.Update ∷ kinds.Termination ∷ kinds.Event
        ∷ kinds.Untyped ∷ kinds.Other ∷ [] }
{}
