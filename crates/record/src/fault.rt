ghost use Rattle.std.specs.Prelude.{◌≡◌};
ghost use Rattle.record.specs.Faults.{refusal_of};

use refusals::{Layer, Refusal};

/// Why bytes are no record, in the order of the tests. Its number is that of the refusal.
#[derive(Clone, Copy, Debug, PartialEq, Eq)]
pub enum Fault {
    /// There are not 96 bytes.
    WrongLength = 1,
    /// The first byte names no kind.
    UnknownKind = 2,
    /// One of the seven bytes after the kind is not zero.
    ReservedNotZero = 3,
    /// A nullification names a parent or a payload.
    NullificationNotBlank = 4,
}

impl Fault {
    /// The number and the layer that a host is told. A constant may hold it.
    pub const fn refusal(self) -> Refusal
        ensures { result ≡ refusal_of self }
    {
        Refusal {
            number: self as u8,
            layer: Layer::Record,
        }
    }
}

impl From<Fault> for Refusal {
    ghost from_gives = { λ fault r. r ≡ refusal_of fault };

    fn from(fault: Fault) -> Refusal {
        fault.refusal()
    }
}
