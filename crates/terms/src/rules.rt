ghost use Rattle.std.specs.Prelude.{◌≡◌, ◌^◌, ◌<◌, ◌≤◌, MatchResult};
ghost use Rattle.terms.specs.declared.fault.Fault.TheVariants.{ZeroLength, ViewTooHigh};
ghost use Rattle.terms.specs.Terms.{views, start, end, next, is_start, same_term, covering};
ghost use Rattle.terms.specs.Laws.{OwnTerm, WholeTerm, LeastNext, StartCovered, SameStart, Rising, ToTheEnd, CoversBetween, StartsItself, EndsPast, CoversOn};

use crate::{Fault, LAST_VIEW, TermLength};
use views::View;

impl TermLength {
    /// A term length, which no term can do without.
    pub const fn new(length: u32) -> Result<TermLength, Fault>
        ensures { MatchResult result (λ l. (0 < length) × (views l ≡ length)) (λ f. (length ≡ 0) × (f ≡ ZeroLength)) }
    {
        if length == 0 {
            return Err(Fault::ZeroLength);
        }
        Ok(TermLength { length })
    }

    /// How many views a term has.
    pub const fn get(self) -> u64
        ensures { (result ≡ views self) × (0 < result) }
    {
        self.length as u64
    }

    /// The first view of the term of `view`. View 0 is a term of its own.
    #[tactic(auto, using(crate::proofs::Laws::starts), unfolding(crate::specs::Terms::start))]
    pub const fn term_start(self, view: View) -> View
        ensures value { result ≡ start (views self) view }
        ensures own_term { OwnTerm (views self) }
        ensures rising { Rising (views self) }
        ensures ends_past { EndsPast (views self) }
    {
        if view == 0 {
            return view;
        }
        let length = self.get();
        (view - 1) / length * length + 1
    }

    /// Whether a term begins at `view`.
    #[tactic(auto, using(crate::proofs::Laws::start_covered, crate::proofs::Laws::starts_itself), unfolding(crate::specs::Terms::is_start))]
    pub const fn is_term_start(self, view: View) -> bool
        ensures value { result ≡ is_start (views self) view }
        ensures start_covered { StartCovered (views self) }
        ensures starts_itself { StartsItself (views self) }
    {
        view == self.term_start(view)
    }

    /// Whether `view` and `other` lie in one term.
    #[tactic(auto, using(crate::proofs::Laws::same_start), unfolding(crate::specs::Terms::same_term))]
    pub const fn same_term(self, view: View, other: View) -> bool
        ensures value { result ≡ same_term (views self) view other }
        ensures same_start { SameStart (views self) }
    {
        self.term_start(view) == self.term_start(other)
    }

    /// The last view of the term of `view`, which may not be above `LAST_VIEW`.
    #[tactic(auto, using(crate::proofs::Laws::whole_term), unfolding(crate::specs::Terms::end))]
    pub const fn term_end(self, view: View) -> Result<View, Fault>
        ensures value { MatchResult result (λ e. (view ≤ 2 ^ 62) × (e ≡ end (views self) view)) (λ f. (2 ^ 62 < view) × (f ≡ ViewTooHigh)) }
        ensures whole_term { WholeTerm (views self) }
    {
        if view > LAST_VIEW {
            return Err(Fault::ViewTooHigh);
        }
        if view == 0 {
            return Ok(view);
        }
        Ok(self.term_start(view) + (self.get() - 1))
    }

    /// The first view of the term after that of `view`, which may not be above `LAST_VIEW`.
    #[tactic(auto, using(crate::proofs::Laws::end_below), unfolding(crate::specs::Terms::next))]
    pub fn next_term_start(self, view: View) -> Result<View, Fault>
        ensures value { MatchResult result (λ n. (view ≤ 2 ^ 62) × (n ≡ next (views self) view)) (λ f. (2 ^ 62 < view) × (f ≡ ViewTooHigh)) }
        ensures least_next { LeastNext (views self) }
    {
        Ok(self.term_end(view)? + 1)
    }

    /// Whether a nullification at `nullified` covers `view`: it covers its own view and the rest of that term.
    #[tactic(auto, using(crate::proofs::Laws::to_the_end, crate::proofs::Laws::covers_from_start))]
    pub const fn covers(self, nullified: View, view: View) -> bool
        ensures value { result ≡ covering (views self) nullified view }
        ensures to_the_end { ToTheEnd (views self) }
        ensures covers_between { CoversBetween (views self) }
        ensures covers_on { CoversOn (views self) }
    {
        // What is not above the view and not below its term's start lies in its term.
        nullified <= view && self.term_start(view) <= nullified
    }
}
