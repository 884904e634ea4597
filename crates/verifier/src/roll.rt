ghost use Rattle.std.specs.Prelude.{◌≡◌, ◌/◌, ◌%◌, ◌≢◌, length, MatchResult};
ghost use Rattle.verifier.specs.Rolls.{roll_accepts};
ghost use Rattle.verifier.specs.declared.fault.Fault.TheVariants.{BrokenRoll};

use crate::{Fault, Verifier};
use record::{Certificate, LENGTH};

/// Accepts the records of a roll, which the host keeps as bytes.
#[derive(Clone, Copy, Debug)]
pub struct RollVerifier<'a> {
    roll: &'a [u8],
}

impl<'a> RollVerifier<'a> {
    /// A verifier by this roll, if it is a whole number of records.
    pub fn new(roll: &'a [u8]) -> Result<RollVerifier<'a>, Fault>
        ensures { MatchResult result (λ v. (length roll.now % 96 ≡ 0) × (v.roll.now ≡ roll.now)) (λ f. (length roll.now % 96 ≢ 0) × (f ≡ BrokenRoll)) }
    {
        if roll.len() % LENGTH != 0 {
            return Err(Fault::BrokenRoll);
        }
        Ok(RollVerifier { roll })
    }
}

impl<'a> Verifier<Certificate> for RollVerifier<'a> {
    ghost accepted = { λ v c. roll_accepts v.roll.now c };

    fn accepts(&self, certificate: &Certificate) -> bool {
        let bytes = certificate.write();
        for i in 0..self.roll.len() / LENGTH {
            if &self.roll[LENGTH * i..LENGTH * i + LENGTH] == bytes.as_slice() {
                return true;
            }
        }
        false
    }
}
