//! What a member has recorded, in memory that the host lends, and each change to it.
#![tactic(auto)]

mod calls;
pub mod held;
mod reads;
mod steps;
pub mod store;

pub use held::Held;
pub use store::{Memory, Store};
