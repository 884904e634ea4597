//! The calls on a member's state together with a board for its asks and a verifier of what comes in.
#![tactic(auto)]

mod applying;
mod calls;
mod delivering;
pub mod fault;
pub mod outcome;
pub mod resolver;
mod validating;

pub use fault::Fault;
pub use outcome::{Delivered, Outcome};
pub use resolver::Resolver;

/// How many asks a delivery may answer.
pub const ASKS: usize = 16;
