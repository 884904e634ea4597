use asked::Asked;
use board::PLACES;
use hosted::{Head, Rows};

/// All that a member keeps between calls. A host lends it, and writes nothing into it.
#[repr(C)]
#[derive(Clone, Copy)]
pub struct Member {
    pub head: Head,
    pub rows: Rows,
    /// The open asks, in order, as many as the head says.
    pub asks: [Asked; PLACES],
}
