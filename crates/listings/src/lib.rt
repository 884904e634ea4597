//! Lists as the answers to a script show them.
#![tactic(auto)]

pub mod hex;
pub mod listed;
pub mod rows;

pub use hex::Hex;
pub use listed::Listed;
pub use rows::Rows;
