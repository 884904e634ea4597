ghost use Rattle.std.specs.Prelude.{◌≡◌};
ghost use Rattle.queue.specs.Faults.{refusal_of};

use refusals::{Layer, Refusal};

/// Why a queue refuses. A refusal changes nothing. Its number is that of the refusal.
#[derive(Clone, Copy, Debug, PartialEq, Eq)]
pub enum Fault {
    /// As many messages wait as may.
    Full = 12,
    /// The host lent too few places.
    TooFewPlaces = 13,
}

/// The number and the layer that a host is told.
impl From<Fault> for Refusal {
    ghost from_gives = { λ fault r. r ≡ refusal_of fault };

    fn from(fault: Fault) -> Refusal {
        Refusal {
            number: fault as u8,
            layer: Layer::Queue,
        }
    }
}
