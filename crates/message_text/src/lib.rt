//! The messages of a member's queue as a script writes them: what a call is offered as, and how a message is shown.
#![tactic(auto)]

pub mod offering;
pub mod showing;

pub use offering::offer;
pub use showing::{Named, Waiting};
