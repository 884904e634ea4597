//! A member as plain numbers and bytes, which a host keeps between calls.
#![tactic(auto)]

mod keeping;
pub mod member;
mod opening;

pub use keeping::keep;
pub use member::{Head, Rows};
pub use opening::open;
