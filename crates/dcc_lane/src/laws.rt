//! The laws of lanes. Each is the contract of a function that does nothing.

ghost use Rattle.std.specs.Prelude.{◌≡◌, Some, length};
ghost use Rattle.dcc_lane.specs.Ends.{IsBegun, number_of, put_of, taken_of};
ghost use Rattle.dcc_lane.specs.Faults.{lane_fault_number};
ghost use Rattle.dcc_lane.specs.Rule.{of};
ghost use Rattle.dcc_lane.specs.declared.receiver.LaneFault.TheVariants.{SenderMissing};
ghost use Rattle.dcc_lane.specs.declared.receiver.Receiver.{Receiver};
ghost use Rattle.dcc_lane.specs.declared.sender.Sender.{Sender};

/// A missing sender is fault 80.
pub fn numbers_are_given()
    ensures { lane_fault_number SenderMissing ≡ Some 80 }
{}

/// If as many items of a sender were taken as it put, exactly the items that it put were taken, in order.
pub fn equal_counts<T: Drop>()
    ensures { (receiver : Receiver T) (sender : Sender T) → IsBegun receiver sender
        → length (of (number_of sender) (taken_of receiver)) ≡ length (put_of sender) → of (number_of sender) (taken_of receiver) ≡ put_of sender }
{}
