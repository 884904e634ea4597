//! What a member answers to each line of a script, and what is made of the answers.
#![tactic(auto)]

pub mod answerer;
pub mod answering;
pub mod asker;
pub mod lives;
pub mod played;
pub mod talking;
pub mod turn;

pub use answerer::Answerer;
pub use answering::{answer, answer_alone};
pub use asker::Asker;
pub use lives::answer_all;
pub use played::Played;
pub use turn::Turn;
