//! Messages that wait for a resolver, with repeated and outdated ones dropped.
#![tactic(auto)]

mod draining;
pub mod fault;
pub mod lent;
pub mod message;
mod offering;
pub mod pending;

pub use fault::Fault;
pub use lent::Lent;
pub use message::Message;
pub use pending::{PLACES, Pending};
