//! Which of a table's nullifications covers a view.
#![tactic(auto)]

ghost use Rattle.std.specs.Prelude.{◌≡◌, List, is_some};
ghost use Rattle.table.specs.Tables.{entries};
ghost use Rattle.terms.specs.Terms.{views as views_of};
ghost use Rattle.cover.specs.Covers.{cover, covered, HighestCover, BySomeRow};

use table::Table;
use terms::TermLength;
use views::{View, Viewable};

/// The highest nullification that covers `view`, if there is one.
#[inline(always)]
pub fn covering<R: Copy + Viewable>(
    nullifications: &Table<R>,
    length: TermLength,
    view: View,
) -> Option<R>
    ensures value { result ≡ cover R.Viewable.viewed (views_of length) view (entries nullifications.now) }
    ensures highest_cover { HighestCover R.Viewable.viewed (views_of length) view (entries nullifications.now) result }
    ensures covered { is_some result ≡ covered R.Viewable.viewed (views_of length) view (entries nullifications.now) }
    ensures by_some_row { (rs : List R) → BySomeRow R.Viewable.viewed (views_of length) view rs }
{
    nullifications
        .last_to(view)
        .filter(|row| length.covers(row.view(), view))
}
