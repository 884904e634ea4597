//! What a member asks its peers for, and the trait of what keeps its open asks.
#![tactic(auto)]

pub mod ask;
pub mod board;
pub mod fault;
pub mod lent;
pub mod open;
pub mod retire;
pub mod walk;

pub use ask::{Ask, Until};
pub use board::{ANCESTRY, BACKGROUND, Board, Counts, PLACES};
pub use fault::Fault;
pub use lent::Lent;
pub use open::{Open, lower};
pub use retire::Retire;
pub use walk::Asks;
