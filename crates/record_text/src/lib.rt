//! A record as a script writes it: `bytes HEX`, or `KIND VIEW [epoch=E] [parent=P] [seats=MASK]`.
#![tactic(auto)]

pub mod options;
pub mod parts;
pub mod texts;

pub use parts::Defaults;
pub use texts::record;
