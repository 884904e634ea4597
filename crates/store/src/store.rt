use slot::Slot;
use table::{Mark, Table};
use terms::TermLength;
use views::{View, Viewable};

/// The places that a host lends to one member.
#[derive(Drop)]
pub struct Memory<'a, R> {
    pub finalization: &'a mut [R],
    pub nullifications: &'a mut [R],
    pub pending_notarizations: &'a mut [Mark],
    pub certified_notarizations: &'a mut [R],
    pub uncertifiable_notarizations: &'a mut [Mark],
}

/// What a member has recorded. Each table keeps its rows in order of view; of the numbers nothing is promised: whoever
/// keeps a store keeps them in step.
#[derive(Drop)]
pub struct Store<'a, R: Viewable> {
    /// How many views a term has.
    pub term_length: TermLength,
    /// The epoch of the certificates.
    pub epoch: u64,
    /// The highest view of any evidence.
    pub current_view: View,
    /// The view of the highest finalization or passed notarization.
    pub floor: View,
    /// The lowest anchor that planning has still to look at.
    pub cursor: View,
    /// Whether the journal is still being replayed, which puts planning off.
    pub replaying: bool,
    /// The highest finalization.
    pub finalization: Slot<'a, R>,
    /// Nullifications whose term ends above the finalization.
    pub nullifications: Table<'a, R>,
    /// Views whose notarization waits for a verdict.
    pub pending_notarizations: Table<'a, Mark>,
    /// Notarizations that passed.
    pub certified_notarizations: Table<'a, R>,
    /// Views whose notarization failed.
    pub uncertifiable_notarizations: Table<'a, Mark>,
}
