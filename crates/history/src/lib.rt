//! One use of one resolver: what its accepted calls settle, ask for and serve, at every point of any history of them.
#![tactic(auto)]

mod calls;
mod serving;
pub mod used;

pub use used::Resolver;
