//! One member as a script runs it: its making, what it answers to each order, and in which words.
#![tactic(auto)]

pub mod admitted;
pub mod admitting;
pub mod carrying;
mod draining;
pub mod member;
pub mod showing;

pub use admitted::Admitted;
pub use admitting::admit;
pub use member::Member;
pub use showing::Shown;
