ghost use Rattle.std.specs.Prelude.{◌≡◌, ◌+◌, ◌^◌, ◌<◌, ◌≤◌, ◌++◌, length, take, drop, Ok};
ghost use Rattle.record.specs.Certificates.{Sized, framed, written};
ghost use Rattle.record.specs.Format.{reading};
ghost use Rattle.record.specs.Numbers.{bytes_of};

use crate::{Certificate, Digest, Kind, LENGTH, Proof, Proposal};

/// Copies `field` into `bytes` from the place `at` on.
fn put(bytes: &mut [u8], at: usize, field: &[u8])
    requires { at + length field.now ≤ length bytes.old }
    ensures { bytes.new ≡ take at bytes.old ++ (field.now ++ drop (at + length field.now) bytes.old) }
{
    let end = at + field.len();
    bytes[at..end].copy_from_slice(field);
}

/// Copies the eight bytes of `number` into `bytes` from the place `at` on.
#[tactic(auto, using(crate::proofs::Numbers::bytes_eight, crate::proofs::Numbers::length_bytes))]
fn put_number(bytes: &mut [u8], at: usize, number: u64)
    requires { at + 8 ≤ length bytes.old }
    ensures bytes { bytes.new ≡ take at bytes.old ++ (bytes_of 8 number ++ drop (at + 8) bytes.old) }
    ensures fits { number < 2 ^ 64 }
{
    put(bytes, at, &number.to_be_bytes());
}

/// The bytes of a record: the kind, seven zeros, and the fields one after the other.
pub fn frame(kind: Kind, proposal: &Proposal, proof: &Proof) -> [u8; LENGTH]
    ensures value { result ≡ framed kind proposal.now proof.now }
    ensures sized { Sized proposal.now proof.now }
{
    let mut bytes = [0; LENGTH];
    bytes[0] = u8::from(kind);
    put_number(&mut bytes, 8, proposal.round.epoch);
    put_number(&mut bytes, 16, proposal.round.view);
    put_number(&mut bytes, 24, proposal.parent);
    put(&mut bytes, 32, &proposal.payload.0);
    put(&mut bytes, 64, &proof.0);
    bytes
}

impl Certificate {
    /// The record of a certificate.
    #[tactic(auto, unfolding(crate::specs::Certificates::written))]
    pub fn write(&self) -> [u8; LENGTH]
        ensures value { result ≡ written self.now }
        ensures reads_back { reading result ≡ Ok self.now }
    {
        match self {
            Certificate::Notarization { proposal, proof } => frame(
                Kind::Notarization,
                proposal,
                proof,
            ),
            Certificate::Finalization { proposal, proof } => frame(
                Kind::Finalization,
                proposal,
                proof,
            ),
            Certificate::Nullification { round, proof } => {
                let unproposed = Proposal {
                    round: *round,
                    parent: 0,
                    payload: Digest([0; 32]),
                };
                frame(Kind::Nullification, &unproposed, proof)
            }
        }
    }
}
