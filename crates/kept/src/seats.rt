ghost use Rattle.kept.specs.Seats.{kept_accepted};

use crate::Kept;
use verifier::{SeatVerifier, Verifier};

/// Accepts the records that a verifier of seats accepts.
#[derive(Clone, Copy, Debug)]
pub struct KeptSeats(pub SeatVerifier);

impl Verifier<Kept> for KeptSeats {
    ghost accepted = { λ v k. kept_accepted v.0.seats v.0.quorum k };

    fn accepts(&self, kept: &Kept) -> bool {
        let Ok(certificate) = kept.certificate() else {
            return false;
        };
        self.0.accepts(&certificate)
    }
}
