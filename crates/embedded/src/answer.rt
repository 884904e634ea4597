ghost use Rattle.std.specs.Prelude.{◌≡◌};
ghost use Rattle.embedded.specs.Answers.{done, refusing, unknown, unsound};

use crate::told::layer_number;
use refusals::Refusal;

/// What came of a call.
#[repr(C)]
#[derive(Clone, Copy, Debug, PartialEq, Eq)]
pub struct Answer {
    /// The number of the refusal, or 0.
    pub refusal: u32,
    /// The layer that it arose in, or 0.
    pub layer: u32,
    /// Of a delivery the outcome: 1 ignored, 2 invalid, 3 unresolved, 4 partial, 5 complete, 6 let go. Of a question the
    /// answer, 1 or 0.
    pub value: u32,
    /// Of a delivery whether the record was recorded, 1 or 0.
    pub taken: u32,
}

impl Answer {
    /// A call that went through.
    pub(crate) fn done(value: u32, taken: bool) -> Answer
        ensures { result ≡ done value taken }
    {
        Answer {
            refusal: 0,
            layer: 0,
            value,
            taken: u32::from(taken),
        }
    }

    /// A refusal.
    pub(crate) fn refused(refusal: Refusal) -> Answer
        ensures { result ≡ refusing refusal }
    {
        Answer {
            refusal: u32::from(refusal.number),
            layer: layer_number(refusal.layer),
            value: 0,
            taken: 0,
        }
    }

    /// The memory holds what no calls leave.
    pub(crate) fn unsound() -> Answer
        ensures { result ≡ unsound }
    {
        Answer {
            refusal: 16,
            layer: 8,
            value: 0,
            taken: 0,
        }
    }

    /// A number that names no kind.
    pub(crate) fn unknown() -> Answer
        ensures { result ≡ unknown }
    {
        Answer {
            refusal: 17,
            layer: 8,
            value: 0,
            taken: 0,
        }
    }
}
