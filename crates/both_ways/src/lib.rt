//! Messages called directly, and through a queue: both end alike.
#![tactic(auto)]

pub mod begun;
pub mod calling;
pub mod fault;
pub mod queueing;
pub mod running;

pub use begun::{Begun, begin};
pub use calling::{call, call_all};
pub use fault::Fault;
pub use queueing::{empty_into, offer_all, offer_one};
pub use running::both_ways;
