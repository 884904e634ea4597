ghost use Rattle.std.specs.Prelude.{◌≡◌, ◌+◌, ◌-◌, ◌/◌, ◌<◌, ◌≤◌, true, length, slice_index};
ghost use Rattle.table.specs.Rows.{views, Ascending, Parts};
ghost use Rattle.table.specs.Searching.{Between};

use crate::Order;
use views::Viewable;

/// Some rows: those before them an order does not keep, those behind them it keeps.
#[derive(Clone, Copy)]
struct Range {
    from: usize,
    size: usize,
}

impl Range {
    /// The half that is left, when the row in the middle is looked at.
    fn halved<R: Viewable, O: Order>(self, rows: &[R], order: &O) -> Range
        requires rises { Ascending R.viewed rows.now }
        requires between { Between R.viewed (O.keeping order.now) rows.now self.from self.size }
        ensures between { Between R.viewed (O.keeping order.now) rows.now result.from result.size }
        ensures size { result.size ≡ self.size - self.size / 2 }
    {
        let half = self.size / 2;
        let middle = self.from + half;
        let from = if order.keeps(rows[middle].view()) {
            self.from
        } else {
            middle
        };
        Range {
            from,
            size: self.size - half,
        }
    }

    /// What is left of at most 128 rows when four are looked at. The turns are written out: a loop of them is compiled into
    /// jumps, and no processor foresees where these go.
    fn halved_four_times<R: Viewable, O: Order>(self, rows: &[R], order: &O) -> Range
        requires rises { Ascending R.viewed rows.now }
        requires between { Between R.viewed (O.keeping order.now) rows.now self.from self.size }
        requires few { self.size ≤ 128 }
        ensures between { Between R.viewed (O.keeping order.now) rows.now result.from result.size }
        ensures fewer { result.size ≤ 8 }
    {
        let range = self.halved(rows, order).halved(rows, order);
        range.halved(rows, order).halved(rows, order)
    }

    /// The half that is left, where there are more than so many.
    fn halved_above<R: Viewable, O: Order>(self, most: usize, rows: &[R], order: &O) -> Range
        requires rises { Ascending R.viewed rows.now }
        requires between { Between R.viewed (O.keeping order.now) rows.now self.from self.size }
        requires few { self.size ≤ most + most }
        requires some { 0 < most }
        ensures between { Between R.viewed (O.keeping order.now) rows.now result.from result.size }
        ensures fewer { result.size ≤ most }
    {
        if self.size > most {
            self.halved(rows, order)
        } else {
            self
        }
    }

    /// Where the rows part, told by the one row that is left.
    fn parted<R: Viewable, O: Order>(self, rows: &[R], order: &O) -> usize
        requires rises { Ascending R.viewed rows.now }
        requires between { Between R.viewed (O.keeping order.now) rows.now self.from self.size }
        requires one { self.size ≡ 1 }
        ensures { Parts R.viewed (O.keeping order.now) rows.now result }
    {
        if order.keeps(rows[self.from].view()) {
            self.from
        } else {
            self.from + 1
        }
    }
}

/// How many rows an order does not keep, where it keeps the last one.
fn before_the_last<R: Viewable, O: Order>(rows: &[R], order: &O) -> usize
    requires rises { Ascending R.viewed rows.now }
    requires some { 0 < length rows.now }
    requires kept { O.keeping order.now (slice_index (views R.viewed rows.now) (length rows.now - 1)) ≡ true }
    ensures { Parts R.viewed (O.keeping order.now) rows.now result }
{
    let size = rows.len() - 1;
    if size == 0 {
        return 0;
    }
    let mut range = Range { from: 0, size };
    while range.size > 128 {
        range = range.halved(rows, order);
    }
    if range.size > 8 {
        range = range.halved_four_times(rows, order);
    }
    let range = range
        .halved_above(4, rows, order)
        .halved_above(2, rows, order);
    range.halved_above(1, rows, order).parted(rows, order)
}

/// How many rows an order does not keep. They stand below those that it keeps.
#[inline(always)]
pub(crate) fn first_kept<R: Viewable, O: Order>(rows: &[R], order: &O) -> usize
    requires { Ascending R.viewed rows.now }
    ensures { Parts R.viewed (O.keeping order.now) rows.now result }
{
    let Some(last) = rows.last() else {
        return 0;
    };
    // A live member mostly looks above all that it has.
    if !order.keeps(last.view()) {
        return rows.len();
    }
    before_the_last(rows, order)
}
