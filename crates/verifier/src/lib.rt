//! Which records a member accepts: the trait, a verifier that counts seats, and one that goes by a roll.
#![tactic(auto)]

pub mod accepting;
pub mod fault;
pub mod roll;
pub mod seats;

pub use accepting::Verifier;
pub use fault::Fault;
pub use roll::RollVerifier;
pub use seats::SeatVerifier;
