ghost use Rattle.std.specs.Prelude.{◌≡◌, ℕ, List, Result as Outcome};
ghost use Rattle.record.specs.declared.fault.Fault.{Fault as Misread};
ghost use Rattle.record.specs.declared.kind.Kind.{Kind as Sort};
ghost use Rattle.record.specs.Certificates.{kind_in, proposal_in};
ghost use Rattle.record.specs.Format.{reading};

use crate::{Certificate, Fault, Kind};
use views::{View, Viewable};

/// A record that a member keeps and serves. It may have any length and any proof: whoever keeps it goes by its
/// kind, epoch and view alone.
pub trait Record: Copy + Viewable {
    /// The kind of a record.
    ghost sort: { Self → Sort };

    /// The epoch of a record.
    ghost era: { Self → ℕ };

    /// The record in bytes, or why they are none.
    ghost parsed: { List ℕ → Outcome Self Misread };

    fn read(bytes: &[u8]) -> Result<Self, Fault>
        ensures { result ≡ parsed bytes.now };

    fn kind(&self) -> Kind
        ensures { result ≡ sort self.now };

    fn epoch(&self) -> u64
        ensures { result ≡ era self.now };
}

impl Viewable for Certificate {
    ghost viewed = { λ c. (proposal_in c).round.view };

    fn view(&self) -> View {
        self.header().view
    }
}

impl Record for Certificate {
    ghost sort = { kind_in };

    ghost era = { λ c. (proposal_in c).round.epoch };

    ghost parsed = { reading };

    fn read(bytes: &[u8]) -> Result<Certificate, Fault> {
        Certificate::read(bytes)
    }

    fn kind(&self) -> Kind {
        self.header().kind
    }

    fn epoch(&self) -> u64 {
        self.header().epoch
    }
}
