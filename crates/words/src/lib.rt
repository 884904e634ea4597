//! The words of a script's line: comments, words, decimal numbers and hex digits.
#![tactic(auto)]

pub mod class;
pub mod decode;
pub mod digits;
pub mod problem;
pub mod split;

pub use decode::hex;
pub use digits::{decimal, number, short_number};
pub use problem::Problem;
pub use split::{after, end, is, split_line, strip, uncommented, up_to, word};
