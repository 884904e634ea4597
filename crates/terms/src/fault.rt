ghost use Rattle.std.specs.Prelude.{◌≡◌};
ghost use Rattle.terms.specs.Faults.{refusal_of};

use refusals::{Layer, Refusal};

/// Why a term rule is not told. Its number is that of the refusal.
#[derive(Clone, Copy, Debug, PartialEq, Eq)]
pub enum Fault {
    /// A term has no views.
    ZeroLength = 9,
    /// The view is above `LAST_VIEW`.
    ViewTooHigh = 5,
}

impl Fault {
    /// The number and the layer that a host is told. A constant may hold it.
    pub const fn refusal(self) -> Refusal
        ensures { result ≡ refusal_of self }
    {
        Refusal {
            number: self as u8,
            layer: Layer::Terms,
        }
    }
}

impl From<Fault> for Refusal {
    ghost from_gives = { λ fault r. r ≡ refusal_of fault };

    fn from(fault: Fault) -> Refusal {
        fault.refusal()
    }
}
