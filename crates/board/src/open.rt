ghost use Rattle.std.specs.Prelude.{◌≡◌, ◌==◌, Some, nat_lt};
ghost use Rattle.board.specs.Asks.{place, place_of, lower_of};
ghost use Rattle.board.specs.Boards.{opened};
ghost use Rattle.board.specs.Shown.{open_text};
ghost use Rattle.board.specs.Laws.{InOrder, OneMore, Pushed, Replaced, NoneBefore, Filtered, CountedAlike, FirstOfMore};

use crate::Ask;
use std::fmt;
use views::View;

/// An open ask.
#[derive(Clone, Copy, Debug, PartialEq, Eq)]
pub struct Open {
    pub view: View,
    pub ask: Ask,
    /// The seat that alone is asked, if there is one.
    pub target: Option<u32>,
}

impl Open {
    /// An ask that is opened.
    pub fn new(view: View, ask: Ask, target: Option<u32>) -> Open
        ensures value { result ≡ opened view ask target }
        ensures in_order { InOrder }
        ensures one_more { OneMore }
        ensures pushed { Pushed }
        ensures replaced { Replaced }
        ensures none_before { NoneBefore }
        ensures filtered { Filtered }
        ensures counted_alike { CountedAlike }
        ensures first_of_more { FirstOfMore }
    {
        Open { view, ask, target }
    }

    /// Whether it is this ask at this view.
    pub fn is(&self, view: View, ask: Ask) -> bool
        ensures { result ≡ (place_of self.now == place view ask) }
    {
        self.view == view && self.ask == ask
    }

    /// Whether it comes before this ask at this view.
    pub fn is_before(&self, view: View, ask: Ask) -> bool
        ensures { result ≡ nat_lt (place_of self.now) (place view ask) }
    {
        self.view < view || (self.view == view && self.ask.rank() < ask.rank())
    }
}

/// The one that comes first of two open asks, of which the first may be none.
pub fn lower(best: Option<Open>, other: Open) -> Open
    ensures { result ≡ lower_of best other }
{
    match best {
        Some(best) if best.is_before(other.view, other.ask) => best,
        _ => other,
    }
}

impl fmt::Display for Open {
    ghost output = { λ o. Some (open_text o) };

    fn fmt<W: fmt::Write>(&self, f: &mut fmt::Formatter<W>) -> fmt::Result {
        let view = self.view;
        match (self.ask, self.target) {
            (Ask::Background, _) => write!(f, "{view} background"),
            (Ask::Ancestry(kind), None) => write!(f, "{view} {kind}"),
            (Ask::Ancestry(kind), Some(seat)) => write!(f, "{view} {kind} {seat}"),
        }
    }
}
