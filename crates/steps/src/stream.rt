ghost use Rattle.std.specs.Prelude.{◌≡◌, ◌*◌, ◌/◌, ◌<◌, ◌≤◌, true, length, Ok as Fine, MatchOption, MatchResult};
ghost use Rattle.steps.specs.Format.{readable, step_bytes, step_of, FailsAt, IsStream, Damaged};

use crate::{Fault, HEADER, Header, STEP, Step};

/// A stream whose every step can be read.
#[derive(Clone, Copy)]
pub struct Stream<'a> {
    pub header: Header,
    /// The bytes of the steps, one after the other.
    pub steps: &'a [u8],
    ghost readable: { readable (length steps.now / 24) steps.now ≡ true },
}

/// Tests whether each step can be read.
fn test(steps: &[u8]) -> Result<(), Fault>
    ensures { MatchResult result (λ _. readable (length steps.now / 24) steps.now ≡ true) (λ f. FailsAt f steps.now) }
{
    for i in 0..steps.len() / STEP {
        let at = STEP * i;
        Step::read(&steps[at..at + STEP])?;
    }
    Ok(())
}

impl<'a> Stream<'a> {
    /// The stream in these bytes: its header is tested first, then its length, then each step.
    pub fn read(bytes: &'a [u8]) -> Result<Stream<'a>, Fault>
        ensures { MatchResult result (λ s. IsStream bytes.now s.header s.steps.now) (λ f. Damaged f bytes.now) }
    {
        let header = Header::read(bytes)?;
        let steps = &bytes[HEADER..];
        if steps.len() % STEP != 0 {
            return Err(Fault::PartOfAStep);
        }
        test(steps)?;
        Ok(Stream { header, steps })
    }

    /// How many steps it has.
    pub fn len(&self) -> usize
        ensures { result ≡ length self.now.steps.now / 24 }
    {
        self.steps.len() / STEP
    }

    /// The step at the place `i`, counted from 0, if it has so many.
    pub fn step(&self, i: usize) -> Option<Step>
        ensures { MatchOption result (length self.now.steps.now / 24 ≤ i) (λ s. (i < length self.now.steps.now / 24) × (step_of (step_bytes i self.now.steps.now) ≡ Fine s)) }
    {
        if i >= self.len() {
            return None;
        }
        let at = STEP * i;
        Some(Step::read(&self.steps[at..at + STEP]).unwrap())
    }
}
