//! A member that a host keeps as plain memory, driven call by call.
#![tactic(auto)]

mod keeping;
pub mod listed;
pub mod member;
pub mod resuming;

pub use keeping::keep;
pub use listed::{Did, Listed, list};
pub use member::Member;
pub use resuming::{Driven, resume};
