//! A stored file of commands with another implementation's answers, and the comparison with what is answered here.
#![tactic(auto)]

pub mod comparing;
pub mod cutting;
pub mod recording;
pub mod replay;
pub mod tally;

pub use recording::{Entry, Recording};
pub use replay::Replay;
pub use tally::Tally;
