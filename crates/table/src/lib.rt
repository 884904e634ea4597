//! Rows in ascending order of their views, in memory that a host lends.
#![tactic(auto)]

mod ascending;
pub mod lent;
pub mod mark;
mod moves;
pub mod order;
mod searching;

pub use lent::Table;
pub use mark::Mark;
pub use order::{From, Order, Past};
