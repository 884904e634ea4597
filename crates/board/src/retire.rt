ghost use Rattle.std.specs.Prelude.{◌≡◌};
ghost use Rattle.board.specs.Asks.{retires};

use crate::{Ask, Open};
use effects::Kind;
use views::View;

/// Which open asks end.
#[derive(Clone, Copy, Debug, PartialEq, Eq)]
pub enum Retire {
    /// Those of a kind, from one view to another.
    Settled { kind: Kind, start: View, end: View },
    /// All at or below a view.
    Finalized(View),
    /// Background asks at or below a view.
    Raised(View),
}

impl Retire {
    /// Whether an open ask ends.
    pub fn ends(&self, asked: &Open) -> bool
        ensures { result ≡ retires self.now asked.now }
    {
        match *self {
            Retire::Settled { kind, start, end } => {
                asked.ask.kind() == kind && start <= asked.view && asked.view <= end
            }
            Retire::Finalized(view) => asked.view <= view,
            Retire::Raised(view) => asked.ask == Ask::Background && asked.view <= view,
        }
    }
}
