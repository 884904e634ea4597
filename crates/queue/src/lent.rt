ghost use Rattle.std.specs.Prelude.{◌≡◌, ◌<◌, ◌≤◌, ◌⊎◌, length, MatchResult};
ghost use Rattle.queue.specs.declared.fault.Fault.TheVariants.{TooFewPlaces};

use crate::{Fault, Message, PLACES};

/// Places that a host lends to a queue: one for a finalization, and enough for all others that may wait.
#[derive(Drop)]
pub struct Lent<'a, P> {
    pub finalization: &'a mut [Message<P>],
    pub messages: &'a mut [Message<P>],
    ghost place: { 1 ≤ length finalization.now },
    ghost enough: { 64 ≤ length messages.now },
}

impl<'a, P> Lent<'a, P> {
    /// Tests whether there are enough.
    pub fn test(
        finalization: &'a mut [Message<P>],
        messages: &'a mut [Message<P>],
    ) -> Result<Lent<'a, P>, Fault>
        ensures { MatchResult result (λ l. (1 ≤ length finalization.old) × (64 ≤ length messages.old) × (l.finalization.now ≡ finalization.old) × (l.messages.now ≡ messages.old)) (λ f. ((length finalization.old < 1) ⊎ (length messages.old < 64)) × (f ≡ TooFewPlaces)) }
    {
        if finalization.is_empty() || messages.len() < PLACES {
            return Err(Fault::TooFewPlaces);
        }
        Ok(Lent {
            finalization,
            messages,
        })
    }
}
