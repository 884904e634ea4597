//! A member that was away takes in its journal, learns how far the others are, and puts to a peer what it must ask.
#![tactic(auto)]

pub mod beginning;
pub mod catching;
pub mod entry;
pub mod standing;
pub mod taking;
pub mod telling;

pub use beginning::fresh;
pub use catching::catch_up;
pub use entry::Entry;
pub use standing::{Standing, how_far};
pub use taking::{take_in, take_in_all};
pub use telling::{close, learn, rejoin, replay, tell};
