ghost use Rattle.std.specs.Prelude.{◌≡◌};
ghost use Rattle.resolver.specs.Faults.{refusal_of};
ghost use Rattle.resolver.specs.declared.fault.Fault.TheVariants.{State, Board};

use refusals::{Layer, Refusal};

/// Why a call is refused. A refused call changes nothing.
#[derive(Clone, Copy, Debug, PartialEq, Eq)]
pub enum Fault {
    /// The state refuses.
    State(state::Fault),
    /// The board refuses.
    Board(board::Fault),
    /// A delivery answers no ask, or too many.
    WrongAsks,
    /// The board has open asks already.
    BoardNotEmpty,
}

impl From<state::Fault> for Fault {
    ghost from_gives = { λ e r. r ≡ State e };

    fn from(fault: state::Fault) -> Fault {
        Fault::State(fault)
    }
}

impl From<board::Fault> for Fault {
    ghost from_gives = { λ e r. r ≡ Board e };

    fn from(fault: board::Fault) -> Fault {
        Fault::Board(fault)
    }
}

/// The number and the layer that a host is told.
impl From<Fault> for Refusal {
    ghost from_gives = { λ fault r. r ≡ refusal_of fault };

    fn from(fault: Fault) -> Refusal {
        let number = match fault {
            Fault::State(fault) => return Refusal::from(fault),
            Fault::Board(fault) => return Refusal::from(fault),
            Fault::WrongAsks => 10,
            Fault::BoardNotEmpty => 14,
        };
        Refusal {
            number,
            layer: Layer::Resolver,
        }
    }
}
