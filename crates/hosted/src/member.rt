use kept::Kept;
use state::ROWS;
use table::Mark;

/// The numbers of a member. Flags are 0 or 1.
#[repr(C)]
#[derive(Clone, Copy)]
pub struct Head {
    pub term_length: u32,
    pub seats: u32,
    pub quorum: u32,
    /// Whether the journal is still being replayed.
    pub replaying: u32,
    pub epoch: u64,
    pub current_view: u64,
    pub floor: u64,
    pub cursor: u64,
    /// How many rows count of each sort.
    pub finalization_count: u32,
    pub nullification_count: u32,
    pub pending_count: u32,
    pub certified_count: u32,
    pub failed_count: u32,
    pub ask_count: u32,
}

/// The rows of a member, as many of each sort as its head says.
#[repr(C)]
#[derive(Clone, Copy)]
pub struct Rows {
    pub finalization: [Kept; 1],
    pub nullifications: [Kept; ROWS],
    pub certified: [Kept; ROWS],
    pub pending: [Mark; ROWS],
    pub failed: [Mark; ROWS],
}
