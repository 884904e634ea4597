//! A board that keeps a row for each view with an open ask.
#![tactic(auto)]

mod asking;
pub mod row;
pub mod rows;

pub use row::Row;
pub use rows::RowBoard;
