ghost use Rattle.std.specs.Prelude.{◌≡◌};
ghost use Rattle.verifier.specs.Faults.{refusal_of};

use refusals::{Layer, Refusal};

/// Why a verifier is not made.
#[derive(Clone, Copy, Debug, PartialEq, Eq)]
pub enum Fault {
    /// So many seats have no such quorum.
    NoQuorum,
    /// The roll is no whole number of records.
    BrokenRoll,
}

/// The number and the layer that a host is told.
impl From<Fault> for Refusal {
    ghost from_gives = { λ fault r. r ≡ refusal_of fault };

    fn from(fault: Fault) -> Refusal {
        let number = match fault {
            Fault::NoQuorum => 15,
            Fault::BrokenRoll => 1,
        };
        Refusal {
            number,
            layer: Layer::Verifier,
        }
    }
}
