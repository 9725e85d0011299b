//! Receipts of calls, and whether they agree with the acts that were made.
//!
//! Stands on `dcc_model` for the outcomes of acts and on `dcc_credit` for the octets of answers. A receipt has the act of one call and
//! the call's answer. The contract that this crate gives: each test of receipts against acts passes exactly if its definition holds. It
//! knows of no shards and no threads: it works on plain data.
#![tactic(auto)]

mod agree;
mod answers;
mod check;
mod fault;
mod laws;
mod marks;
mod order;
mod own_marks;
mod receipt;
mod same;
mod walk;

pub use agree::agrees_with;
pub use answers::is_answered;
pub use check::check_receipts;
pub use fault::CloseFault;
pub use laws::{numbers_are_given, orders_agree, same_acts_are_equal, true_receipts_stay_true};
pub use marks::Marks;
pub use order::{each_in_order, follows, top_after};
pub use receipt::{Receipt, Told};
