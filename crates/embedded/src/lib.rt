//! What C and C++ programs call: see `embed/resolver.h`.
#![tactic(auto)]

pub mod answer;
pub mod asking;
pub mod beginning;
pub mod calls;
pub mod delivering;
pub mod records;
pub mod terms_of;
pub mod told;

pub use answer::Answer;
pub use told::{Read, Told};
