ghost use Rattle.std.specs.Prelude.{◌≡◌, length, IfOk};
ghost use Rattle.record.specs.Format.{reading};
ghost use Rattle.record.specs.Numbers.{number as number_in};
ghost use Rattle.kept.specs.Keeping.{sort_of, view_in, epoch_in, parsing, Says};

use crate::Kept;
use record::{Certificate, Fault, Kind, Record};
use views::{View, Viewable};

/// The number in eight bytes, the highest first.
fn number(bytes: &[u8]) -> u64
    requires { length bytes.now ≡ 8 }
    ensures { result ≡ number_in bytes.now }
{
    u64::from_be_bytes(bytes.try_into().unwrap())
}

impl Kept {
    /// The certificate in the bytes, or the first test that they fail. It says what the row tells.
    #[tactic(auto, using(crate::proofs::Says::says))]
    pub fn certificate(&self) -> Result<Certificate, Fault>
        ensures value { result ≡ reading self.now.bytes }
        ensures says { IfOk result (λ c. Says self.now c) }
    {
        Certificate::read(&self.bytes)
    }
}

impl Viewable for Kept {
    ghost viewed = { view_in };

    fn view(&self) -> View {
        number(&self.bytes[16..24])
    }
}

impl Record for Kept {
    ghost sort = { sort_of };

    ghost era = { epoch_in };

    ghost parsed = { parsing };

    fn read(bytes: &[u8]) -> Result<Kept, Fault> {
        Certificate::read(bytes)?;
        Ok(Kept {
            bytes: bytes.try_into().unwrap(),
        })
    }

    fn kind(&self) -> Kind {
        match self.bytes[0] {
            1 => Kind::Notarization,
            3 => Kind::Finalization,
            _ => Kind::Nullification,
        }
    }

    fn epoch(&self) -> u64 {
        number(&self.bytes[8..16])
    }
}
