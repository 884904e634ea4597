//! What a member can answer to a script, and the words for its parts.
#![tactic(auto)]

pub mod answered;
pub mod showing;

pub use answered::Answered;
pub use showing::{Numbers, OpenAsks, Tables, Taking, Written};
