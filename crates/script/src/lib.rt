//! The script language of the program `member`: what each line asks.
#![tactic(auto)]

pub mod answer;
pub mod command;
pub mod lines;
pub mod mistake;
pub mod numbered;

pub use answer::Answer;
pub use lines::{Asked, ask};
pub use mistake::Mistake;
pub use numbered::Numbered;
