ghost use Rattle.std.specs.Prelude.{◌≡◌};
ghost use Rattle.record.specs.Certificates.{header_of, proposal_in};

use crate::Kind;

/// A step of the register's agreement within an epoch.
#[derive(Clone, Copy, Debug, PartialEq, Eq)]
pub struct Round {
    pub epoch: u64,
    pub view: u64,
}

/// The digest of what was proposed.
#[derive(Clone, Copy, Debug, PartialEq, Eq)]
pub struct Digest(pub [u8; 32]);

/// What shows that a quorum stands behind a certificate.
#[derive(Clone, Copy, Debug, PartialEq, Eq)]
pub struct Proof(pub [u8; 32]);

/// What was proposed in a round, on top of the proposal of the view `parent`.
#[derive(Clone, Copy, Debug, PartialEq, Eq)]
pub struct Proposal {
    pub round: Round,
    pub parent: u64,
    pub payload: Digest,
}

/// A consensus certificate. A nullification names no proposal.
#[derive(Clone, Copy, Debug, PartialEq, Eq)]
pub enum Certificate {
    Notarization { proposal: Proposal, proof: Proof },
    Nullification { round: Round, proof: Proof },
    Finalization { proposal: Proposal, proof: Proof },
}

/// What every rule of the register goes by.
#[derive(Clone, Copy, Debug, PartialEq, Eq)]
pub struct Header {
    pub kind: Kind,
    pub epoch: u64,
    pub view: u64,
}

impl Certificate {
    /// The kind, the epoch and the view.
    #[inline(always)]
    pub fn header(&self) -> Header
        ensures { result ≡ header_of self.now }
    {
        let (kind, Round { epoch, view }) = match self {
            Certificate::Notarization { proposal, .. } => (Kind::Notarization, proposal.round),
            Certificate::Nullification { round, .. } => (Kind::Nullification, *round),
            Certificate::Finalization { proposal, .. } => (Kind::Finalization, proposal.round),
        };
        Header { kind, epoch, view }
    }

    /// The view of the parent, which is 0 for a nullification.
    pub fn parent(&self) -> u64
        ensures { result ≡ (proposal_in self.now).parent }
    {
        match self {
            Certificate::Notarization { proposal, .. }
            | Certificate::Finalization { proposal, .. } => proposal.parent,
            Certificate::Nullification { .. } => 0,
        }
    }
}
