ghost use Rattle.std.specs.Prelude.{◌≡◌, ◌+◌, ◌<◌, ◌≤◌, [], not, length, take, filter, None, true, false, ◌==◌, slice_index_or};
ghost use Rattle.std.specs.List.{position};
ghost use Rattle.board.specs.Asks.{is_background, place, place_of, retires};
ghost use Rattle.board.specs.Boards.{is_open, backgrounds, ancestries};
ghost use Rattle.board.specs.Sorting.{lookup, placed};
ghost use Rattle.board.proofs.Laws.{in_order};
ghost use Rattle.list_board.specs.Lists.{entries, asks_of};

use crate::ListBoard;
use board::{ANCESTRY, Ask, BACKGROUND, Board, Counts, Fault, Lent, Open, Retire, lower};
use effects::Kind;
use views::View;

/// Moves the asks that stay to the front of the first `len`, and returns how many these are.
fn keep(list: &mut [Open], len: usize, retire: &Retire) -> usize
    requires { len ≤ length list.old }
    ensures kept { take result list.new ≡ filter (λ o. not (retires retire.now o)) (take len list.old) }
    ensures fewer { result ≤ len }
{
    let mut kept = 0;
    for i in 0..len {
        let open = list[i];
        if !retire.ends(&open) {
            list[kept] = open;
            kept += 1;
        }
    }
    kept
}

impl<'a> ListBoard<'a> {
    /// A board with no open ask.
    pub fn new(lent: Lent<'a, Open>) -> ListBoard<'a>
        ensures { entries result ≡ [] }
    {
        let Lent { places } = lent;
        ListBoard {
            list: places,
            len: 0,
        }
    }

    /// The open asks, in the order in which they came.
    fn as_slice(&self) -> &[Open]
        ensures { result.now ≡ entries self.now }
    {
        &self.list[..self.len]
    }

    /// Where an ask stands, if it is open.
    fn find(&self, view: View, ask: Ask) -> Option<usize>
        ensures { result ≡ position (λ o. place_of o == place view ask) (entries self.now) }
    {
        self.as_slice().iter().position(|open| open.is(view, ask))
    }

    /// Whether an ask is open.
    fn is_open(&self, view: View, ask: Ask) -> bool
        ensures { result ≡ is_open view ask (asks_of self.now) }
    {
        self.find(view, ask).is_some()
    }

    /// Puts an ask that is not open behind the others.
    fn push(&mut self, asked: Open)
        requires absent { lookup (place_of asked) (entries self.old) ≡ None }
        requires background_room { is_background asked.ask ≡ true → length (backgrounds (entries self.old)) < 256 }
        requires ancestry_room { is_background asked.ask ≡ false → length (ancestries (entries self.old)) < 64 }
        ensures { asks_of self.new ≡ placed asked (asks_of self.old) }
    {
        let len = self.len;
        self.list[len] = asked;
        self.len = len + 1;
    }
}

impl<'a> ListBoard<'a> {
    /// How many background asks are open.
    fn count_background(&self) -> usize
        ensures { result ≡ length (backgrounds (entries self.now)) }
    {
        self.as_slice()
            .iter()
            .filter(|asked| asked.ask.is_background())
            .count()
    }

    /// Writes an ask in the place of the same ask.
    fn replace(&mut self, at: usize, asked: Open)
        requires within { at < length (entries self.old) }
        requires same { place_of (slice_index_or (entries self.old) at asked) ≡ place_of asked }
        ensures { asks_of self.new ≡ placed asked (asks_of self.old) }
    {
        self.list[at] = asked;
    }
}

impl<'a> Board for ListBoard<'a> {
    ghost asks = { asks_of };

    fn fetch(&mut self, view: View) {
        if self.is_open(view, Ask::Background) || self.counts().background >= BACKGROUND {
            return;
        }
        self.push(Open::new(view, Ask::Background, None));
    }

    fn request(&mut self, view: View, kind: Kind, target: Option<u32>) -> Result<(), Fault> {
        let ask = Ask::Ancestry(kind);
        if let Some(at) = self.find(view, ask) {
            if target.is_none() {
                self.replace(at, Open::new(view, ask, None));
            }
            return Ok(());
        }
        if self.counts().ancestry >= ANCESTRY {
            return Err(Fault::TooManyAsks);
        }
        self.push(Open::new(view, ask, target));
        Ok(())
    }

    fn retire(&mut self, retire: Retire) {
        let len = self.len;
        // Until they are moved, none counts.
        self.len = 0;
        self.len = keep(self.list, len, &retire);
    }

    fn counts(&self) -> Counts {
        let background = self.count_background();
        Counts {
            background,
            ancestry: self.len - background,
        }
    }

    fn first_from(&self, view: View, ask: Ask) -> Option<Open> {
        let mut best = None;
        for asked in self.as_slice() {
            if !asked.is_before(view, ask) {
                best = Some(lower(best, *asked));
            }
        }
        best
    }

    ghost rises = { λ s. (in_order (entries s)).0 };
}
