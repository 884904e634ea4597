use orders::BoardKind;
use terms::TermLength;
use verifier::SeatVerifier;

/// What a member is made of, after the tests.
#[derive(Clone, Copy)]
pub struct Admitted {
    pub term_length: TermLength,
    pub epoch: u64,
    pub verifier: SeatVerifier,
    /// The mask of the seats that stand behind a record that does not say.
    pub seats: u64,
    pub board: BoardKind,
}
