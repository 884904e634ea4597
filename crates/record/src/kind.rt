ghost use Rattle.std.specs.Prelude.{◌≡◌, Some, Ok};
ghost use Rattle.record.specs.Kinds.{kind_of, byte_of, name_of};

use crate::Fault;
use std::fmt;

/// What a certificate says of its view. Its number is the first byte of a record.
#[derive(Clone, Copy, Debug, PartialEq, Eq)]
pub enum Kind {
    Notarization = 1,
    Nullification = 2,
    Finalization = 3,
}

/// The kind that a record's first byte names.
impl TryFrom<u8> for Kind {
    type Error = Fault;

    ghost try_from_gives = { λ byte kind. kind ≡ kind_of byte };

    fn try_from(byte: u8) -> Result<Kind, Fault> {
        match byte {
            1 => Ok(Kind::Notarization),
            2 => Ok(Kind::Nullification),
            3 => Ok(Kind::Finalization),
            _ => Err(Fault::UnknownKind),
        }
    }
}

/// The first byte of a record of this kind.
impl From<Kind> for u8 {
    ghost from_gives = { λ kind byte. (byte ≡ byte_of kind) × (kind_of byte ≡ Ok kind) };

    fn from(kind: Kind) -> u8 {
        kind as u8
    }
}

impl fmt::Display for Kind {
    ghost output = { λ k. Some (name_of k) };

    fn fmt<W: fmt::Write>(&self, f: &mut fmt::Formatter<W>) -> fmt::Result {
        match self {
            Kind::Notarization => f.write_str("notarization"),
            Kind::Nullification => f.write_str("nullification"),
            Kind::Finalization => f.write_str("finalization"),
        }
    }
}
