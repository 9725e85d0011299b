//! The laws of hosts. Each is the contract of a function that does nothing.

ghost use Rattle.dcc_hosts.specs.Laws.{AfterIsUnhosted, NewIsUnhosted, PlaceIsUnhosted, OutcomesAreUnhosted, ActsAreUnhosted, KeptAreUnhosted, AccountIsUnhosted};
ghost use Rattle.dcc_hosts.specs.Laws.{AfterIsAlike, NewIsAlike, PlaceIsAlike, OutcomesAreAlike, ActsAreAlike, KeptAreAlike, AccountIsAlike};

/// Without the hosts of their peers, the acts of a list have the same outcomes at the same places. The same acts are made,
/// and the same outcomes kept. The account is the same. One more act has the same outcome and the same place, and is new with
/// hosts if and only if it is new without.
pub fn hosts_change_nothing()
    ensures after { AfterIsUnhosted }
    ensures is_new { NewIsUnhosted }
    ensures place { PlaceIsUnhosted }
    ensures outcomes { OutcomesAreUnhosted }
    ensures acts { ActsAreUnhosted }
    ensures kept { KeptAreUnhosted }
    ensures account { AccountIsUnhosted }
{}

/// So two lists that differ in hosts alone have the same outcomes at the same places, the same kept outcomes and the same
/// account. Their made acts differ in hosts alone. Two acts that differ in their host alone have the same outcome after
/// them and the same place, and both are new or neither is.
pub fn alike_come_to_the_same()
    ensures after { AfterIsAlike }
    ensures is_new { NewIsAlike }
    ensures place { PlaceIsAlike }
    ensures outcomes { OutcomesAreAlike }
    ensures acts { ActsAreAlike }
    ensures kept { KeptAreAlike }
    ensures account { AccountIsAlike }
{}
