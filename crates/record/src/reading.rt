ghost use Rattle.std.specs.Prelude.{◌≡◌, length, is_ok, IfOk, Decides};
ghost use Rattle.record.specs.Certificates.{written};
ghost use Rattle.record.specs.Format.{proposal_at, proof_at, body_read, reading, Formed, Placed};
ghost use Rattle.record.specs.Numbers.{number as number_in, zeros as all_zero};

use crate::{Certificate, Digest, Fault, Kind, LENGTH, Proof, Proposal, Round};

/// A copy of `N` bytes.
fn array<const N: usize>(bytes: &[u8]) -> [u8; N]
    requires { length bytes.now ≡ N }
    ensures { result ≡ bytes.now }
{
    bytes.try_into().unwrap()
}

/// The number in eight bytes, the highest first.
fn number(bytes: &[u8]) -> u64
    requires { length bytes.now ≡ 8 }
    ensures { result ≡ number_in bytes.now }
{
    u64::from_be_bytes(array(bytes))
}

/// Whether every byte is 0.
fn zeros(bytes: &[u8]) -> bool
    ensures { result ≡ all_zero bytes.now }
{
    bytes.iter().all(|b| *b == 0)
}

/// The fields in the bytes after the first eight.
fn fields(rest: &[u8]) -> (Proposal, Proof)
    requires { length rest.now ≡ 88 }
    ensures proposal { result.0 ≡ proposal_at rest.now }
    ensures proof { result.1 ≡ proof_at rest.now }
{
    let view = number(&rest[8..16]);
    let epoch = number(&rest[0..8]);
    let proposal = Proposal {
        round: Round { epoch, view },
        parent: number(&rest[16..24]),
        payload: Digest(array(&rest[24..56])),
    };
    (proposal, Proof(array(&rest[56..88])))
}

/// The certificate of a kind in the bytes after the first eight.
fn body(kind: Kind, rest: &[u8]) -> Result<Certificate, Fault>
    requires { length rest.now ≡ 88 }
    ensures { result ≡ body_read kind rest.now }
{
    let (proposal, proof) = fields(rest);
    match kind {
        Kind::Notarization => Ok(Certificate::Notarization { proposal, proof }),
        Kind::Finalization => Ok(Certificate::Finalization { proposal, proof }),
        Kind::Nullification => {
            if proposal.parent == 0 && zeros(&proposal.payload.0) {
                Ok(Certificate::Nullification {
                    round: proposal.round,
                    proof,
                })
            } else {
                Err(Fault::NullificationNotBlank)
            }
        }
    }
}

/// The certificate in a record's bytes, or the first test that they fail.
#[tactic(auto, unfolding(crate::specs::Format::reading))]
fn parse(bytes: &[u8]) -> Result<Certificate, Fault>
    ensures { result ≡ reading bytes.now }
{
    if bytes.len() != LENGTH {
        return Err(Fault::WrongLength);
    }
    let kind = Kind::try_from(bytes[0])?;
    let [_, 0, 0, 0, 0, 0, 0, 0, rest @ ..] = bytes else {
        return Err(Fault::ReservedNotZero);
    };
    body(kind, rest)
}

impl Certificate {
    /// The certificate in a record's bytes, or the first test that they fail.
    #[tactic(auto, using(crate::proofs::Laws::read_formed, crate::proofs::Laws::read_placed, crate::proofs::Laws::read_written))]
    pub fn read(bytes: &[u8]) -> Result<Certificate, Fault>
        ensures value { result ≡ reading bytes.now }
        ensures formed { Decides (is_ok result) (Formed bytes.now) }
        ensures placed { IfOk result (λ c. Placed bytes.now c) }
        ensures writes_back { IfOk result (λ c. written c ≡ bytes.now) }
    {
        parse(bytes)
    }
}
