//! Open asks as plain numbers, which a host keeps between calls.
#![tactic(auto)]

mod filling;
pub mod row;
mod writing;

pub use filling::fill;
pub use row::Asked;
pub use writing::write;
