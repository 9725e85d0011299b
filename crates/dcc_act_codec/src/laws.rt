//! The laws of records. Each function does nothing: it has its laws as its contract.

ghost use Rattle.std.specs.Prelude.{◌≡◌, ℕ, List, ◌++◌};
ghost use Rattle.dcc_act.specs.declared.act.Act.{Act};
ghost use Rattle.dcc_act_codec.specs.Limits.{IsAct};
ghost use Rattle.dcc_act_codec.specs.OldRecords.{old_record_of, IsOldAct};
ghost use Rattle.dcc_act_codec.specs.Records.{record_of};

/// Two acts within their limits never have the same record, and no record is the beginning of another. So the octets show where a
/// record ends.
pub fn records_differ()
    ensures one { (a b : Act) → IsAct a → IsAct b → record_of a ≡ record_of b → a ≡ b }
    ensures followed { (a b : Act) (x y : List ℕ) → IsAct a → IsAct b → record_of a ++ x ≡ record_of b ++ y → (a ≡ b) × (x ≡ y) }
{}

/// The same laws for records of version 1, and for the acts that have such a record.
pub fn old_records_differ()
    ensures one { (a b : Act) → IsOldAct a → IsOldAct b → old_record_of a ≡ old_record_of b → a ≡ b }
    ensures followed { (a b : Act) (x y : List ℕ) → IsOldAct a → IsOldAct b → old_record_of a ++ x ≡ old_record_of b ++ y → (a ≡ b) × (x ≡ y) }
{}
