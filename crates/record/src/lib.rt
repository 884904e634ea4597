//! The certificate record: one certificate in 96 bytes.
#![tactic(auto)]

pub mod certificate;
pub mod fault;
pub mod kind;
pub mod reading;
pub mod stored;
pub mod writing;

pub use certificate::{Certificate, Digest, Header, Proof, Proposal, Round};
pub use fault::Fault;
pub use kind::Kind;
pub use stored::Record;
pub use writing::frame;

/// How many bytes a record has.
pub const LENGTH: usize = 96;
