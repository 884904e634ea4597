//! Puts the open asks of a member to a peer, view by view and round by round, until nothing more is settled.
#![tactic(auto)]

pub mod asked;
pub mod putting;
pub mod rounds;
pub mod running;
pub mod tally;

pub use asked::{Came, Put};
pub use putting::put;
pub use rounds::{next_open, round};
pub use running::{End, Summary, run_rounds};
pub use tally::Tally;
