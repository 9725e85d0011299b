//! Laws of batches, for the layers above. The function does nothing: it has its laws as its contract.

ghost use Rattle.dcc_shard.specs.Batches.{BatchesAreSteps, BatchesMakeOwn, BatchesLeaveOthers};

use dcc_act::same_subscribers_are_equal;

/// A batch of different subscribers is the steps of its calls, one after another, in any order. The reply to each call is one that the
/// call alone may have behind the calls before it, whichever of these were judged. Behind the batch, the acts of the subscriber of each
/// call are those behind this call alone. The acts of every other subscriber stay.
pub fn batches_are_steps()
    ensures steps { BatchesAreSteps }
    ensures own { BatchesMakeOwn }
    ensures others { BatchesLeaveOthers }
{
    same_subscribers_are_equal();
}
