//! What comes of a stream of steps on one member: each step is carried out, and what it answers is counted.
#![tactic(auto)]

mod carrying;
pub mod member;
pub mod running;
pub mod tally;

pub use member::Member;
pub use running::run;
pub use tally::{Answer, Line, Tally};
