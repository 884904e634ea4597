//! A stream of steps in bytes: its header, its steps, and the records and messages that they name.
#![tactic(auto)]

pub mod fault;
mod fields;
pub mod header;
pub mod records;
pub mod step;
pub mod stream;

pub use fault::Fault;
pub use header::{BoardKind, Header};
pub use records::{message, record_bytes};
pub use step::{AskSet, Call, Order, Step};
pub use stream::Stream;

/// How many bytes a header has.
pub const HEADER: usize = 32;

/// How many bytes a step has.
pub const STEP: usize = 24;
