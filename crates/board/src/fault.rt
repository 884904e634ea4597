ghost use Rattle.std.specs.Prelude.{◌≡◌};
ghost use Rattle.board.specs.Faults.{refusal_of};

use refusals::{Layer, Refusal};

/// Why a board refuses. A refusal changes nothing.
#[derive(Clone, Copy, Debug, PartialEq, Eq)]
pub enum Fault {
    /// As many ancestry asks are open as may be.
    TooManyAsks,
    /// The host lent too few places.
    TooFewPlaces,
}

/// The number and the layer that a host is told.
impl From<Fault> for Refusal {
    ghost from_gives = { λ fault r. r ≡ refusal_of fault };

    fn from(fault: Fault) -> Refusal {
        let number = match fault {
            Fault::TooManyAsks => 11,
            Fault::TooFewPlaces => 13,
        };
        Refusal {
            number,
            layer: Layer::Board,
        }
    }
}
