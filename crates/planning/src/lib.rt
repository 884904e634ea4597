//! Which views a member must still ask its peers for.
#![tactic(auto)]

ghost use Rattle.std.specs.Prelude.{◌≡◌, ℕ, ◌+◌, ◌^◌, ◌<◌, ◌≤◌, map, length, IfOk, MatchResult, nat_lt};
ghost use Rattle.effects.specs.Lists.{entries as listed, places, Added, Filled};
ghost use Rattle.terms.specs.Terms.{views as views_of};
ghost use Rattle.terms.specs.declared.fault.Fault.TheVariants.{ViewTooHigh};
ghost use Rattle.planning.specs.Gaps.{missing, landing};
ghost use Rattle.planning.specs.Left.{gaps_in};
ghost use Rattle.planning.specs.Laws.{GapsExactly, NoGrowth, SameGaps, NoGaps, CursorLands, NoAnchorSkipped, OnlyAnchors};

mod walk;

use crate::walk::{Gaps, following};
use effects::{Effect, Effects, FetchReason};
use table::Table;
use terms::{Fault, LAST_VIEW, TermLength};
use views::{View, Viewable};

/// The first anchor from `low` on that is not below `current`.
#[tactic(auto, using(crate::proofs::Cursors::lands_here, crate::proofs::Cursors::lands_past), unfolding(crate::specs::Gaps::first_start))]
#[inline(always)]
pub fn landing(term_length: TermLength, low: View, current: View) -> Result<View, Fault>
    ensures { MatchResult result (λ a. (current ≤ 2 ^ 62) × (a ≡ landing (views_of term_length) low current)) (λ f. (2 ^ 62 < current) × (f ≡ ViewTooHigh)) }
{
    if current > LAST_VIEW {
        return Err(Fault::ViewTooHigh);
    }
    if low >= current {
        Ok(low)
    } else if term_length.is_term_start(current) {
        Ok(current)
    } else {
        Ok(following(term_length, current))
    }
}

/// Whether more than `most` gaps stand from `low` up to `current`. It looks at no more than one gap past these, and at
/// no more covered anchors than there are nullifications.
#[tactic(auto, using(crate::proofs::Gaps::gaps_exactly, crate::proofs::Gaps::no_growth, crate::proofs::Gaps::same_gaps, crate::proofs::Gaps::no_gaps))]
pub fn exceeds<R: Copy + Viewable>(
    nullifications: &Table<R>,
    term_length: TermLength,
    low: View,
    current: View,
    most: usize,
) -> Result<bool, Fault>
    ensures refused { MatchResult result (λ _. current ≤ 2 ^ 62) (λ f. (2 ^ 62 < current) × (f ≡ ViewTooHigh)) }
    ensures value { IfOk result (λ b. b ≡ nat_lt most (length (gaps_in nullifications.now term_length low current))) }
    ensures gaps_exactly { GapsExactly (views_of term_length) }
    ensures no_growth { NoGrowth (views_of term_length) }
    ensures same_gaps { SameGaps (views_of term_length) }
    ensures no_gaps { NoGaps (views_of term_length) }
{
    let mut gaps = Gaps::new(nullifications, term_length, low, current)?;
    Ok(gaps.nth(most).is_some())
}

/// Writes a fetch for each gap from `low` up to `current`, and returns the first anchor that is not below
/// `current`.
pub fn fetch_missing<R: Copy + Viewable>(
    nullifications: &Table<R>,
    term_length: TermLength,
    low: View,
    current: View,
    cause: View,
    effects: &mut Effects,
) -> Result<View, Fault>
    ensures lands { MatchResult result (λ a. (current ≤ 2 ^ 62) × (a ≡ landing (views_of term_length) low current)) (λ f. (2 ^ 62 < current) × (f ≡ ViewTooHigh) × (effects.new ≡ effects.old)) }
    ensures added { current ≤ 2 ^ 62 → length (listed effects.old) + length (gaps_in nullifications.now term_length low current) ≤ places effects.old → Added (map (missing cause) (gaps_in nullifications.now term_length low current)) effects.old effects.new }
    ensures filled { current ≤ 2 ^ 62 → Filled (map (missing cause) (gaps_in nullifications.now term_length low current)) effects.old effects.new }
    ensures cursor_lands { (floor current cursor floor' current' cursor' : ℕ) → CursorLands (views_of term_length) floor current cursor floor' current' cursor' }
    ensures no_anchor_skipped { (floor current cursor floor' current' cursor' : ℕ) → NoAnchorSkipped (views_of term_length) floor current cursor floor' current' cursor' }
    ensures only_anchors { (floor current cursor floor' current' cursor' : ℕ) → OnlyAnchors (views_of term_length) floor current cursor floor' current' cursor' }
{
    for gap in Gaps::new(nullifications, term_length, low, current)? {
        effects.push(Effect::Fetch {
            view: gap,
            cause,
            reason: FetchReason::MissingNullification,
        });
    }
    landing(term_length, low, current)
}
