ghost use Rattle.std.specs.Prelude.{◌≡◌, ◌^◌, ◌<◌, ◌≤◌, MatchResult};
ghost use Rattle.std.specs.Iterator.{YieldsFirst, item_count};
ghost use Rattle.terms.specs.Terms.{views as views_of, next};
ghost use Rattle.terms.specs.declared.fault.Fault.TheVariants.{ViewTooHigh};

use cover::covering;
use table::Table;
use terms::{Fault, LAST_VIEW, TermLength};
use views::{View, Viewable};

/// The anchors from one view up to another that no nullification covers, in ascending order.
#[derive(Drop)]
pub(crate) struct Gaps<'t, 'a, R: Viewable> {
    nullifications: &'t Table<'a, R>,
    term_length: TermLength,
    anchor: View,
    current: View,
    ghost told: { current ≤ 2 ^ 62 },
}

/// The next term start, for a view of which it is told.
#[inline(always)]
pub(crate) fn following(term_length: TermLength, view: View) -> View
    requires { view ≤ 2 ^ 62 }
    ensures { result ≡ next (views_of term_length) view }
{
    term_length.next_term_start(view).unwrap()
}

impl<'t, 'a, R: Copy + Viewable> Gaps<'t, 'a, R> {
    ghost use Rattle.planning.specs.Left.{left, gaps_in};

    /// The gaps from `low` up to `current`.
    #[inline(always)]
    pub(crate) fn new(
        nullifications: &'t Table<'a, R>,
        term_length: TermLength,
        low: View,
        current: View,
    ) -> Result<Gaps<'t, 'a, R>, Fault>
        ensures { MatchResult result (λ s. (current ≤ 2 ^ 62) × (left s ≡ gaps_in nullifications.now term_length low current)) (λ f. (2 ^ 62 < current) × (f ≡ ViewTooHigh)) }
    {
        if current > LAST_VIEW {
            return Err(Fault::ViewTooHigh);
        }
        Ok(Gaps {
            nullifications,
            term_length,
            anchor: low,
            current,
        })
    }
}

impl<'t, 'a, R: Copy + Viewable> Iterator for Gaps<'t, 'a, R> {
    type Item = View;

    ghost use Rattle.planning.specs.Left.{left};

    ghost next_gives = { YieldsFirst left };

    ghost remaining = { item_count left };

    #[inline(always)]
    fn next(&mut self) -> Option<View> {
        while self.anchor < self.current {
            let view = self.anchor;
            self.anchor = following(self.term_length, view);
            if covering(self.nullifications, self.term_length, view).is_none() {
                return Some(view);
            }
        }
        None
    }
}
