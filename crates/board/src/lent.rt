ghost use Rattle.std.specs.Prelude.{◌≡◌, ◌<◌, ◌≤◌, length, MatchResult};
ghost use Rattle.board.specs.declared.fault.Fault.TheVariants.{TooFewPlaces};

use crate::{Fault, PLACES};

/// Places that a host lends to a board: enough for every ask that may be open.
#[derive(Drop)]
pub struct Lent<'a, T> {
    pub places: &'a mut [T],
    ghost enough: { 320 ≤ length places.now },
}

impl<'a, T> Lent<'a, T> {
    /// Tests whether there are enough.
    pub fn test(places: &'a mut [T]) -> Result<Lent<'a, T>, Fault>
        ensures { MatchResult result (λ l. (320 ≤ length places.old) × (l.places.now ≡ places.old)) (λ f. (length places.old < 320) × (f ≡ TooFewPlaces)) }
    {
        if places.len() < PLACES {
            return Err(Fault::TooFewPlaces);
        }
        Ok(Lent { places })
    }
}
