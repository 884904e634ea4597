ghost use Rattle.std.specs.Prelude.{Some};
ghost use Rattle.resolver.specs.Shown.{outcome_name};

use std::fmt;

/// What a delivery was worth.
#[derive(Clone, Copy, Debug, PartialEq, Eq)]
pub enum Outcome {
    /// Nothing was left to ask for at the view.
    Ignored,
    /// The bytes are no record that serves the view.
    Invalid,
    /// No more asks are settled than before.
    Unresolved,
    /// More are, but not all.
    Partial,
    /// All are.
    Complete,
    /// All were before.
    LetGo,
}

/// What came of a delivery.
#[derive(Clone, Copy, Debug, PartialEq, Eq)]
pub struct Delivered {
    pub outcome: Outcome,
    /// Whether the record was recorded as evidence.
    pub taken: bool,
}

impl fmt::Display for Outcome {
    ghost output = { λ o. Some (outcome_name o) };

    fn fmt<W: fmt::Write>(&self, f: &mut fmt::Formatter<W>) -> fmt::Result {
        f.write_str(match self {
            Outcome::Ignored => "ignored",
            Outcome::Invalid => "invalid",
            Outcome::Unresolved => "unresolved",
            Outcome::Partial => "partial",
            Outcome::Complete => "complete",
            Outcome::LetGo => "let go",
        })
    }
}
