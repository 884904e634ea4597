//! The state of one member: what it has recorded, and the promise that it keeps nothing that finalization has ruled
//! out and leaves no gap unasked.
#![tactic(auto)]

mod calls;
pub mod fault;
mod making;
mod refusing;
mod serving;
mod settling;
pub mod state;
pub mod telling;

pub use fault::Fault;
pub use lawful::{GAPS, ROWS};
pub use state::State;

/// How many places a list of effects must have.
pub const EFFECTS: usize = 256;
