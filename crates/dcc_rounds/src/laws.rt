//! The laws of rounds. Each is the contract of a function that does nothing.

ghost use Rattle.std.specs.Prelude.{◌≡◌, List, length};
ghost use Rattle.dcc_dispatch.specs.Settings.{Setting};
ghost use Rattle.dcc_rounds.specs.Answering.{AllAnswer, CameIn};
ghost use Rattle.dcc_rounds.specs.Rounds.{RoundsView};
ghost use Rattle.dcc_rounds.specs.Served.{IsRound};
ghost use Rattle.dcc_rounds.specs.declared.lanes.TheConstants.{CAPACITY};
ghost use Rattle.dcc_rounds.specs.declared.line.Counts.{Counts};
ghost use Rattle.dcc_shard.specs.Stored.{StoredView};

use crate::face::{Listener, Shut};
use dcc_connect::Clock;
use dcc_store::Records;
use std::io::Read;

/// The lanes of a round have room for 256 items.
pub fn numbers_are_given()
    ensures { CAPACITY ≡ 256 }
{}

/// In each round what goes out to a gateway is a beginning of the octets of some answers, one after another, each of which answers a message that came
/// in of a gateway of that round.
pub fn answers_are_to_what_came<R: Records, I: Read, O: Shut, L: Listener<I, O>, C: Clock>()
    ensures { (clock : C) (setting : Setting) (rounds : RoundsView) (old new : List (StoredView R)) (counts : Counts)
        (round : IsRound I.remaining O.contents C.tells L.is_closed L.attends clock setting R.is_stopped R.may_leave rounds old counts new)
        → AllAnswer I.remaining O.contents C.tells L.is_closed clock setting (length old)
        (CameIn I.remaining O.contents C.tells L.is_closed clock setting (length old) round.begun round.ended) round.begun round.ended }
{}
