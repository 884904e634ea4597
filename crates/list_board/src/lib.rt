//! A board that keeps its open asks in the order in which they came.
#![tactic(auto)]

mod asking;
pub mod list;

pub use list::ListBoard;
