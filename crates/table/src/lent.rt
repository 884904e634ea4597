ghost use Rattle.std.specs.Prelude.{◌≡◌, ◌<◌, ◌≤◌, [], length, take, if◌then◌else◌, Decides, MatchOption, MatchResult, slice_index_or};
ghost use Rattle.table.specs.Rows.{Ascending, Resumable, lookup, holds, highest, without, with_row, has_room, kept, Parts, Here, Gap};
ghost use Rattle.table.specs.Laws.{NothingFound, OfItsView, FoundItself, Nearest, OneMore, Counted, OneLess, OnlyKept, NoMore};

use crate::ascending::rises;
use crate::moves::{move_down, move_up};
use crate::searching::first_kept;
use crate::{From, Order, Past};
use views::{View, Viewable};

/// Rows in ascending order of their views, in a slice that the host lends. Places past the rows are free.
#[derive(Drop)]
pub struct Table<'a, R: Viewable> {
    rows: &'a mut [R],
    len: usize,
    ghost fits: { len ≤ length rows.now },
    ghost rises: { Ascending R.viewed (take len rows.now) },
}

impl<'a, R: Copy + Viewable> Table<'a, R> {
    ghost use Rattle.table.specs.Tables.{entries, capacity};

    /// The empty table.
    #[tactic(auto, using(crate::proofs::Laws::nothing_found))]
    pub fn new(rows: &'a mut [R]) -> Table<'a, R>
        ensures rows { entries result ≡ [] }
        ensures cap { capacity result ≡ length rows.old }
        ensures nothing_found { NothingFound R.Viewable.viewed (entries result) }
    {
        Table { rows, len: 0 }
    }

    /// The table of the first `len` rows of a slice, exactly if there are so many and their views rise.
    pub fn resume(rows: &'a mut [R], len: usize) -> Option<Table<'a, R>>
        ensures { MatchOption result (Resumable R.Viewable.viewed len rows.old → ⊥) (λ t. Resumable R.Viewable.viewed len rows.old × (entries t ≡ take len rows.old) × (capacity t ≡ length rows.old)) }
    {
        if !Table::resumes(rows, len) {
            return None;
        }
        Some(Table { rows, len })
    }

    /// Whether a slice has so many rows, and their views rise.
    pub fn resumes(rows: &[R], len: usize) -> bool
        ensures { Decides result (Resumable R.Viewable.viewed len rows.now) }
    {
        len <= rows.len() && rises(&rows[..len])
    }

    /// Takes all rows off the table.
    pub fn clear(&mut self)
        ensures rows { entries self.new ≡ [] }
        ensures cap { capacity self.new ≡ capacity self.old }
    {
        self.len = 0;
    }

    /// How many rows there are.
    #[inline(always)]
    pub fn len(&self) -> usize
        ensures value { result ≡ length (entries self.now) }
        ensures bound { result ≤ capacity self.now }
        ensures first { take result self.now.rows.now ≡ entries self.now }
    {
        self.as_slice().len()
    }

    /// How many rows there may be.
    pub fn capacity(&self) -> usize
        ensures { result ≡ capacity self.now }
    {
        self.rows.len()
    }

    /// The rows, in ascending order of their views.
    #[inline(always)]
    pub fn as_slice(&self) -> &[R]
        ensures rows { result.now ≡ entries self.now }
        ensures rises { Ascending R.Viewable.viewed result.now }
    {
        &self.rows[..self.len]
    }

    /// How many rows an order does not keep. They stand below those that it keeps.
    #[inline(always)]
    fn first_kept<O: Order>(&self, order: &O) -> usize
        ensures { Parts R.Viewable.viewed (O.Order.keeping order.now) (entries self.now) result }
    {
        first_kept(self.as_slice(), order)
    }

    /// Where the row of `view` stands, or else where it would.
    #[inline(always)]
    fn find(&self, view: View) -> Result<usize, usize>
        ensures { MatchResult result (Here R.Viewable.viewed view (entries self.now)) (Gap R.Viewable.viewed view (entries self.now)) }
    {
        let at = self.first_kept(&From(view));
        match self.as_slice().get(at) {
            Some(row) if row.view() == view => Ok(at),
            _ => Err(at),
        }
    }

    /// The row of `view`, if there is one.
    #[tactic(auto, using(crate::proofs::Placing::lookup_present, crate::proofs::Placing::lookup_absent, crate::proofs::Laws::of_its_view))]
    #[inline(always)]
    pub fn get(&self, view: View) -> Option<R>
        ensures value { result ≡ lookup R.Viewable.viewed view (entries self.now) }
        ensures of_its_view { OfItsView R.Viewable.viewed view result }
    {
        let at = self.find(view).ok()?;
        self.as_slice().get(at).copied()
    }

    /// Whether there is a row of `view`.
    #[inline(always)]
    pub fn contains(&self, view: View) -> bool
        ensures { result ≡ holds R.Viewable.viewed view (entries self.now) }
    {
        self.get(view).is_some()
    }

    /// The row at the place `i`, counted from 0, if there are so many.
    pub fn nth(&self, i: usize) -> Option<R>
        ensures value { MatchOption result (length (entries self.now) ≤ i) (λ x. (i < length (entries self.now)) × (x ≡ slice_index_or (entries self.now) i x)) }
        ensures found_itself { FoundItself R.Viewable.viewed (entries self.now) result }
    {
        self.as_slice().get(i).copied()
    }

    /// The highest row at or below `view`, if there is one.
    #[inline(always)]
    pub fn last_to(&self, view: View) -> Option<R>
        ensures value { result ≡ highest R.Viewable.viewed view (entries self.now) }
        ensures nearest { Nearest R.Viewable.viewed view (entries self.now) result }
    {
        let n = self.first_kept(&Past(view));
        self.as_slice()[..n].last().copied()
    }

    /// Puts a row into the table, in the place of one of its view if there is one; `false`, with no change, where
    /// no place is free.
    pub fn insert(&mut self, row: R) -> bool
        ensures room { result ≡ has_room R.Viewable.viewed (capacity self.old) row (entries self.old) }
        ensures rows { entries self.new ≡ (if result then with_row R.Viewable.viewed row (entries self.old) else entries self.old) }
        ensures one_more { OneMore R.Viewable.viewed result row (entries self.old) (entries self.new) }
        ensures counted { Counted R.Viewable.viewed result row (entries self.old) (entries self.new) }
        ensures cap { capacity self.new ≡ capacity self.old }
    {
        match self.find(row.view()) {
            Ok(at) => self.rows[at] = row,
            Err(at) => {
                let len = self.len;
                if len == self.rows.len() {
                    return false;
                }
                // Until the row stands, only those below it count.
                self.len = at;
                move_up(self.rows, at, len);
                self.rows[at] = row;
                self.len = len + 1;
            }
        }
        true
    }

    /// Removes the row of `view`, if there is one.
    pub fn remove(&mut self, view: View)
        ensures rows { entries self.new ≡ without R.Viewable.viewed view (entries self.old) }
        ensures one_less { OneLess R.Viewable.viewed view (entries self.old) (entries self.new) }
        ensures no_more { NoMore (entries self.old) (entries self.new) }
        ensures cap { capacity self.new ≡ capacity self.old }
    {
        let Ok(at) = self.find(view) else {
            return;
        };
        let len = self.len;
        self.len = len - 1;
        move_down(self.rows, at + 1, len, 1);
    }

    /// Removes the rows that an order does not keep.
    pub fn retire<O: Order>(&mut self, order: &O)
        ensures rows { entries self.new ≡ kept R.Viewable.viewed (O.Order.keeping order.now) (entries self.old) }
        ensures only_kept { OnlyKept R.Viewable.viewed (O.Order.keeping order.now) (entries self.old) (entries self.new) }
        ensures no_more { NoMore (entries self.old) (entries self.new) }
        ensures cap { capacity self.new ≡ capacity self.old }
    {
        let n = self.first_kept(order);
        let end = self.len;
        self.len = end - n;
        move_down(self.rows, n, end, n);
    }
}
