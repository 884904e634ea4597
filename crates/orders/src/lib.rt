//! What a script asks of a member.
#![tactic(auto)]

pub mod asking;
pub mod naming;
pub mod order;
pub mod reading;
pub mod setup;

pub use order::{Call, Order};
pub use reading::read_order;
pub use setup::{BoardKind, Setup, read_setup};
