ghost use Rattle.std.specs.Prelude.{◌≡◌};
ghost use Rattle.state.specs.Faults.{refusal_of};
ghost use Rattle.state.specs.declared.fault.Fault.TheVariants.{Terms, Record};

use refusals::{Layer, Refusal};

/// Why a call is refused. A refused call changes nothing.
#[derive(Clone, Copy, Debug, PartialEq, Eq)]
pub enum Fault {
    /// The term length is none.
    Terms(terms::Fault),
    /// The bytes are no record.
    Record(record::Fault),
    /// The host lent too few places.
    TooFewPlaces,
    /// A verdict on what is no notarization.
    NotANotarization,
    /// The view is above `terms::LAST_VIEW`.
    ViewTooHigh,
    /// A new row is due, and its table holds as many as it may.
    TableFull,
    /// More gaps would stand than may.
    TooManyGaps,
}

impl From<terms::Fault> for Fault {
    ghost from_gives = { λ e r. r ≡ Terms e };

    fn from(fault: terms::Fault) -> Fault {
        Fault::Terms(fault)
    }
}

impl From<record::Fault> for Fault {
    ghost from_gives = { λ e r. r ≡ Record e };

    fn from(fault: record::Fault) -> Fault {
        Fault::Record(fault)
    }
}

impl Fault {
    /// The number and the layer that a host is told. A constant may hold it.
    pub const fn refusal(self) -> Refusal
        ensures { result ≡ refusal_of self }
    {
        let number = match self {
            Fault::Terms(fault) => return fault.refusal(),
            Fault::Record(fault) => return fault.refusal(),
            Fault::TooFewPlaces => 13,
            Fault::NotANotarization => 8,
            Fault::ViewTooHigh => 5,
            Fault::TableFull => 6,
            Fault::TooManyGaps => 7,
        };
        Refusal {
            number,
            layer: Layer::State,
        }
    }
}

impl From<Fault> for Refusal {
    ghost from_gives = { λ fault r. r ≡ refusal_of fault };

    fn from(fault: Fault) -> Refusal {
        fault.refusal()
    }
}
