ghost use Rattle.std.specs.Prelude.{◌≡◌, true, false, List, MatchResult};
ghost use Rattle.board.specs.declared.open.Open.{Open as Asked};
ghost use Rattle.board.specs.declared.fault.Fault.TheVariants.{TooManyAsks};
ghost use Rattle.board.specs.Boards.{backfilled, ancestry_full, requested, retired, counted, first_from};
ghost use Rattle.board.specs.Sorting.{Rises};

use crate::{Ask, Fault, Open, Retire};
use effects::Kind;
use views::View;

/// How many background asks may be open.
pub const BACKGROUND: usize = 256;

/// How many ancestry asks may be open.
pub const ANCESTRY: usize = 64;

/// How many asks may be open, and so how many places a board must have.
pub const PLACES: usize = 320;

/// How many asks are open.
#[derive(Clone, Copy, Debug, PartialEq, Eq)]
pub struct Counts {
    pub background: usize,
    pub ancestry: usize,
}

/// What keeps a member's open asks.
pub trait Board {
    /// The open asks in the order of their views, and of their ranks at one view. No two have the same view and rank.
    ghost asks: { Self → List Asked };

    /// Opens a background ask, if it is not open and fewer than 256 others are.
    fn fetch(&mut self, view: View)
        ensures { asks self.new ≡ backfilled view (asks self.old) };

    /// Opens an ancestry ask, or clears the target of an open one if none is given.
    fn request(&mut self, view: View, kind: Kind, target: Option<u32>) -> Result<(), Fault>
        ensures { MatchResult result (λ _. (ancestry_full view kind (asks self.old) ≡ false) × (asks self.new ≡ requested view kind target (asks self.old))) (λ f. (ancestry_full view kind (asks self.old) ≡ true) × (f ≡ TooManyAsks) × (self.new ≡ self.old)) };

    /// Ends the asks that it says.
    fn retire(&mut self, retire: Retire)
        ensures { asks self.new ≡ retired retire (asks self.old) };

    /// How many asks are open.
    fn counts(&self) -> Counts
        ensures { result ≡ counted (asks self.now) };

    /// The first open ask that does not come before this one, if there is one.
    fn first_from(&self, view: View, ask: Ask) -> Option<Open>
        ensures { result ≡ first_from view ask (asks self.now) };

    /// Each comes before those after it.
    ghost rises: { (s : Self) → Rises (asks s) };
}
