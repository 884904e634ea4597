//! A board and a verifier of one's own: how a host writes them, and what it has to prove.
#![tactic(auto)]

pub mod both;
pub mod chosen;

pub use both::Both;
pub use chosen::Chosen;
