//! A pool of money and the holds on it (O'Neil, The Escrow Transactional Method, ACM TODS 11(4), 1986).
//!
//! Stands on nothing of this repository. The contract that it gives: the free money is the committed money less the money
//! that open holds have reserved. A decrement is admitted if and only if it is 0 or the free money covers it. A charge may
//! pass its hold, and the part beyond the hold is reported. A refusal changes nothing. A [`Hold`] can't be lost, since a
//! program in which a hold is neither settled, released nor parked doesn't compile. No call takes memory.
#![tactic(auto)]

mod fault;
mod hold;
mod laws;
mod limits;
mod pool;

pub use fault::{Ceiling, Floor, Short};
pub use hold::{Hold, Parked};
pub use laws::numbers_are_given;
pub use limits::MOST_MONEY;
pub use pool::{Pool, Settled};
