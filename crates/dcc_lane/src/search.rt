//! The search for a sender's count.
ghost use Rattle.std.specs.Prelude.{IfSome, IfNone};
ghost use Rattle.dcc_lane.specs.Ends.{IsPutBy, HasNoneOf};

use crate::sender::Sender;

/// The number of items that the sender of this number put; none if there is no such sender.
pub(crate) fn put_by<T: Drop>(senders: &[Sender<T>], number: usize) -> Option<u64>
    ensures some { IfSome result (λ n. IsPutBy senders.now number n) }
    ensures none { IfNone result (HasNoneOf number senders.now) }
{
    for sender in senders {
        if sender.number == number {
            return Some(sender.sent);
        }
    }
    None
}
