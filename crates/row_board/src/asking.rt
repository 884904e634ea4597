ghost use Rattle.std.specs.Prelude.{◌≡◌, ◌+◌, ◌<◌, ◌≤◌, true, false, [], ◌++◌, not, map, length, take, drop, filter, None, ◌==◌, slice_index_or, slice_set, nat_le};
ghost use Rattle.std.specs.List.{position};
ghost use Rattle.board.specs.Asks.{is_background, place, place_of};
ghost use Rattle.board.specs.Boards.{is_open, opened, backgrounds, ancestries};
ghost use Rattle.board.specs.Sorting.{placed};
ghost use Rattle.board.proofs.Laws.{in_order};
ghost use Rattle.row_board.specs.Boards.{rows_of, open_asks};
ghost use Rattle.row_board.specs.Entries.{asks_of, nearest, some_of};
ghost use Rattle.row_board.specs.Rows.{Fitting, fresh, has, is_bare, with_ask, closed, part, asks_in};

use crate::{Row, RowBoard};
use board::{ANCESTRY, Ask, BACKGROUND, Board, Counts, Fault, Lent, Open, Retire, lower};
use effects::Kind;
use views::View;

/// Opens an ask in a row.
fn open_at(rows: &mut [Row], at: usize, ask: Ask, target: Option<u32>)
    requires { at < length rows.old }
    ensures { rows.new ≡ slice_set rows.old at (with_ask ask target (slice_index_or rows.old at (fresh 0))) }
{
    rows[at].open(ask, target);
}

/// Ends asks in the first `len` rows.
fn close_all(rows: &mut [Row], len: usize, retire: &Retire)
    requires { len ≤ length rows.old }
    ensures { rows.new ≡ map (closed retire.now) (take len rows.old) ++ drop len rows.old }
{
    for i in 0..len {
        rows[i].close(retire);
    }
}

/// Moves the rows with an ask to the front of the first `len`, and returns how many these are.
fn drop_empty(rows: &mut [Row], len: usize) -> usize
    requires { len ≤ length rows.old }
    ensures kept { take result rows.new ≡ filter (λ r. not (is_bare r)) (take len rows.old) }
    ensures fewer { result ≤ len }
    ensures long { length rows.new ≡ length rows.old }
{
    let mut kept = 0;
    for i in 0..len {
        let row = rows[i];
        if !row.is_empty() {
            // Mostly none goes, and then none is moved.
            if kept != i {
                rows[kept] = row;
            }
            kept += 1;
        }
    }
    kept
}

/// The one that comes first of an ask, if it does not come before a place, and the best so far.
#[tactic(auto, unfolding(crate::specs::Entries::nearest))]
fn nearer(asked: Option<Open>, view: View, ask: Ask, best: Option<Open>) -> Option<Open>
    ensures { result ≡ nearest (λ o. nat_le (place view ask) (place_of o)) best (some_of asked) }
{
    match asked {
        Some(asked) if !asked.is_before(view, ask) => Some(lower(best, asked)),
        _ => best,
    }
}

impl Row {
    /// An ask of the row, if it is open.
    fn asked(&self, ask: Ask) -> Option<Open>
        ensures { some_of result ≡ part ask self.now }
    {
        let target = match ask {
            Ask::Background => self.background.then_some(None),
            Ask::Ancestry(Kind::Nullification) => self.nullification,
            Ask::Ancestry(Kind::Notarization) => self.notarization,
        }?;
        Some(Open::new(self.view, ask, target))
    }

    /// The one that comes first of the row's asks that do not come before a place, and the best so far.
    fn nearest(&self, view: View, ask: Ask, best: Option<Open>) -> Option<Open>
        ensures { result ≡ nearest (λ o. nat_le (place view ask) (place_of o)) best (asks_in self.now) }
    {
        let best = nearer(self.asked(Ask::Background), view, ask, best);
        let best = nearer(
            self.asked(Ask::Ancestry(Kind::Nullification)),
            view,
            ask,
            best,
        );
        nearer(
            self.asked(Ask::Ancestry(Kind::Notarization)),
            view,
            ask,
            best,
        )
    }
}

impl<'a> RowBoard<'a> {
    /// A board with no open ask.
    pub fn new(lent: Lent<'a, Row>) -> RowBoard<'a>
        ensures { rows_of result ≡ [] }
    {
        let Lent { places } = lent;
        RowBoard {
            rows: places,
            len: 0,
        }
    }

    /// How many asks are open.
    #[tactic(auto, using(crate::proofs::Counts::all_counted))]
    pub fn len(&self) -> usize
        ensures value { result ≡ length (open_asks self.now) }
        ensures bound { result ≤ 320 }
    {
        let counts = self.counts();
        counts.background + counts.ancestry
    }

    /// The rows.
    fn as_slice(&self) -> &[Row]
        ensures { result.now ≡ rows_of self.now }
    {
        &self.rows[..self.len]
    }

    /// Where the row of a view stands, if there is one.
    fn find(&self, view: View) -> Option<usize>
        ensures { result ≡ position (λ r. r.view == view) (rows_of self.now) }
    {
        self.as_slice().iter().position(|row| row.view == view)
    }

    /// How many rows have an ask open.
    fn count(&self, ask: Ask) -> usize
        ensures { result ≡ length (filter (has ask) (rows_of self.now)) }
    {
        self.as_slice().iter().filter(|row| row.has(ask)).count()
    }

    /// How many background asks are open.
    fn background(&self) -> usize
        ensures { result ≡ length (backgrounds (open_asks self.now)) }
    {
        self.count(Ask::Background)
    }

    /// Whether an ask is open.
    fn is_open(&self, view: View, ask: Ask) -> bool
        ensures { result ≡ is_open view ask (open_asks self.now) }
    {
        let Some(at) = self.find(view) else {
            return false;
        };
        let row = self.as_slice()[at];
        row.has(ask)
    }

    /// Opens an ask, in the place of one that is open.
    fn open(&mut self, view: View, ask: Ask, target: Option<u32>)
        requires fitting { Fitting ask target }
        requires background_room { is_background ask ≡ true → is_open view ask (open_asks self.old) ≡ false → length (backgrounds (open_asks self.old)) < 256 }
        requires ancestry_room { is_background ask ≡ false → is_open view ask (open_asks self.old) ≡ false → length (ancestries (open_asks self.old)) < 64 }
        ensures { open_asks self.new ≡ placed (opened view ask target) (open_asks self.old) }
    {
        if let Some(at) = self.find(view) {
            open_at(self.rows, at, ask, target);
            return;
        }
        let mut row = Row::new(view);
        row.open(ask, target);
        let len = self.len;
        self.rows[len] = row;
        self.len = len + 1;
    }
}

impl<'a> Board for RowBoard<'a> {
    ghost asks = { open_asks };

    fn fetch(&mut self, view: View) {
        if self.is_open(view, Ask::Background) || self.background() >= BACKGROUND {
            return;
        }
        self.open(view, Ask::Background, None);
    }

    fn request(&mut self, view: View, kind: Kind, target: Option<u32>) -> Result<(), Fault> {
        let ask = Ask::Ancestry(kind);
        if self.is_open(view, ask) {
            if target.is_none() {
                self.open(view, ask, None);
            }
            return Ok(());
        }
        if self.counts().ancestry >= ANCESTRY {
            return Err(Fault::TooManyAsks);
        }
        self.open(view, ask, target);
        Ok(())
    }

    fn retire(&mut self, retire: Retire) {
        let len = self.len;
        // Until they are moved, none counts.
        self.len = 0;
        close_all(self.rows, len, &retire);
        self.len = drop_empty(self.rows, len);
    }

    fn counts(&self) -> Counts {
        Counts {
            background: self.background(),
            ancestry: self.count(Ask::Ancestry(Kind::Nullification))
                + self.count(Ask::Ancestry(Kind::Notarization)),
        }
    }

    fn first_from(&self, view: View, ask: Ask) -> Option<Open> {
        let mut best = None;
        for row in self.as_slice() {
            best = row.nearest(view, ask, best);
        }
        best
    }

    ghost rises = { λ s. (in_order (asks_of (rows_of s))).0 };
}
