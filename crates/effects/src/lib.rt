//! What a host must do for its asks after a change, and the list that it lends for this.
#![tactic(auto)]

pub mod effect;
pub mod listed;

pub use effect::{Effect, FetchReason, Kind};
pub use listed::Effects;
