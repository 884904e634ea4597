//! A record as its bytes, which C and C++ can hold too, and the verifier of seats for it.
#![tactic(auto)]

pub mod reading;
pub mod row;
pub mod seats;

pub use row::Kept;
pub use seats::KeptSeats;
