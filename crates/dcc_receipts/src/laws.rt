//! Laws of the definitions. Each function does nothing: it has its law as its contract.

ghost use Rattle.std.specs.Prelude.{◌≡◌, Some};
ghost use Rattle.dcc_receipts.specs.Acts.{SameActsAreEqual};
ghost use Rattle.dcc_receipts.specs.Faults.{fault_number};
ghost use Rattle.dcc_receipts.specs.Stretches.{TrueStayTrue};
ghost use Rattle.dcc_receipts.specs.Tops.{OrdersAgree};
ghost use Rattle.dcc_receipts.specs.declared.fault.CloseFault.TheVariants as fault;

use dcc_model::later_acts_change_no_outcome;

/// Two acts agree field by field exactly if they are equal.
pub fn same_acts_are_equal()
    ensures { SameActsAreEqual }
{}

/// A stray receipt is fault 60, an act without a receipt is fault 61, and receipts out of order are fault 62.
pub fn numbers_are_given()
    ensures stray { fault_number fault.ReceiptStray ≡ Some 60 }
    ensures uncovered { fault_number fault.ActWithoutReceipt ≡ Some 61 }
    ensures unordered { fault_number fault.OutOfOrder ≡ Some 62 }
{}

/// A receipt that agrees with acts and is answered by them does so once acts are added.
pub fn true_receipts_stay_true()
    ensures { TrueStayTrue }
{
    later_acts_change_no_outcome();
}

/// Receipts are in order by the greatest place so far exactly if each is after all before it.
#[tactic(auto, using(crate::proofs::Orders::by_top))]
pub fn orders_agree()
    ensures { OrdersAgree }
{}
