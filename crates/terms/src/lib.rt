//! Views and the terms that they are grouped into.
#![tactic(auto)]

ghost use Rattle.std.specs.Prelude.{◌^◌, ◌<◌};

pub mod fault;
pub mod rules;

pub use fault::Fault;
pub use views::View;

/// The highest view whose term's end is told.
pub const LAST_VIEW: View = 1 << 62;

/// How many views a term has: 1 to 2^32 - 1.
#[derive(Clone, Copy, Debug, PartialEq, Eq)]
pub struct TermLength {
    length: u32,
    ghost positive: { 0 < length },
    ghost bounded: { length < 2 ^ 32 },
}
