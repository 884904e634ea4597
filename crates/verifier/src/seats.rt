ghost use Rattle.std.specs.Prelude.{◌≡◌, ◌^◌, ◌≤◌, true, false, length, MatchResult, nat_lt};
ghost use Rattle.record.specs.Certificates.{proof_in};
ghost use Rattle.record.specs.Numbers.{number as number_in, zeros as all_zero};
ghost use Rattle.verifier.specs.Seats.{allowed, seats_accept};
ghost use Rattle.verifier.specs.declared.fault.Fault.TheVariants.{NoQuorum};

use crate::{Fault, Verifier};
use record::{Certificate, Proof};

/// Accepts a certificate whose proof names a quorum of seats.
#[derive(Clone, Copy, Debug)]
pub struct SeatVerifier {
    seats: u32,
    quorum: u32,
    ghost one: { 1 ≤ quorum },
    ghost among: { quorum ≤ seats },
    ghost fits: { seats ≤ 64 },
}

impl SeatVerifier {
    /// A verifier of so many seats and such a quorum, if there can be that.
    pub fn new(seats: u64, quorum: u64) -> Result<SeatVerifier, Fault>
        ensures { MatchResult result (λ v. (allowed seats quorum ≡ true) × (v.seats ≡ seats) × (v.quorum ≡ quorum)) (λ f. (allowed seats quorum ≡ false) × (f ≡ NoQuorum)) }
    {
        if 1 <= quorum && quorum <= seats && seats <= 64 {
            Ok(SeatVerifier {
                seats: seats as u32,
                quorum: quorum as u32,
            })
        } else {
            Err(Fault::NoQuorum)
        }
    }

    /// Whether a mask has no seat that there is not.
    #[tactic(auto, using(crate::proofs::Masks::shifted_out))]
    fn has_seats(&self, mask: u64) -> bool
        ensures { result ≡ nat_lt mask (2 ^ self.now.seats) }
    {
        self.seats == 64 || mask >> self.seats == 0
    }
}

/// The proof of a certificate.
fn proof(certificate: &Certificate) -> Proof
    ensures { result ≡ proof_in certificate.now }
{
    match certificate {
        Certificate::Notarization { proof, .. }
        | Certificate::Nullification { proof, .. }
        | Certificate::Finalization { proof, .. } => *proof,
    }
}

/// The number in eight bytes, the highest first.
fn number(bytes: &[u8]) -> u64
    requires { length bytes.now ≡ 8 }
    ensures { result ≡ number_in bytes.now }
{
    u64::from_be_bytes(bytes.try_into().unwrap())
}

/// Whether every byte is 0.
fn zeros(bytes: &[u8]) -> bool
    ensures { result ≡ all_zero bytes.now }
{
    bytes.iter().all(|byte| *byte == 0)
}

impl Verifier<Certificate> for SeatVerifier {
    ghost accepted = { λ v c. seats_accept v.seats v.quorum c };

    fn accepts(&self, certificate: &Certificate) -> bool {
        let Proof(bytes) = proof(certificate);
        let mask = number(&bytes[..8]);
        mask.count_ones() >= self.quorum && self.has_seats(mask) && zeros(&bytes[8..])
    }
}
