ghost use Rattle.record.specs.Certificates.{kind_in, proposal_in};
ghost use Rattle.state_checks.specs.Tagged.{tagged_of};

use record::{Certificate, Fault, Kind, Record};
use views::{View, Viewable};

/// A record of 97 bytes: a certificate behind a tag. A state keeps it as it keeps any other.
#[derive(Clone, Copy, Debug, PartialEq, Eq)]
pub struct Tagged {
    pub tag: u8,
    pub certificate: Certificate,
}

impl Viewable for Tagged {
    ghost viewed = { λ r. (proposal_in r.certificate).round.view };

    fn view(&self) -> View {
        self.certificate.view()
    }
}

impl Record for Tagged {
    ghost sort = { λ r. kind_in r.certificate };

    ghost era = { λ r. (proposal_in r.certificate).round.epoch };

    ghost parsed = { tagged_of };

    fn read(bytes: &[u8]) -> Result<Tagged, Fault> {
        let [tag, rest @ ..] = bytes else {
            return Err(Fault::WrongLength);
        };
        let certificate = Certificate::read(rest)?;
        Ok(Tagged {
            tag: *tag,
            certificate,
        })
    }

    fn kind(&self) -> Kind {
        self.certificate.kind()
    }

    fn epoch(&self) -> u64 {
        self.certificate.epoch()
    }
}
