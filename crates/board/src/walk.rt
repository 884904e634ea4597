ghost use Rattle.std.specs.Prelude.{◌≡◌, ◌+◌, ◌*◌, ◌^◌, ◌≤◌, MatchOption};
ghost use Rattle.std.specs.Iterator.{YieldsFirst, item_count};
ghost use Rattle.board.specs.Asks.{place};
ghost use Rattle.board.specs.Left.{shown, from_next};

use crate::{Ask, Board, Open};
use effects::Kind;
use views::View;

/// The open asks of a board in their order, found by its own question.
#[derive(Drop)]
pub struct Asks<'b, B: Board> {
    board: &'b B,
    next: Option<(View, Ask)>,
}

/// The place after an ask's, if there is one.
fn following(view: View, ask: Ask) -> Option<(View, Ask)>
    ensures { MatchOption result (3 * 2 ^ 64 ≤ place view ask + 1) (λ p. place p.0 p.1 ≡ place view ask + 1) }
{
    match ask {
        Ask::Background => Some((view, Ask::Ancestry(Kind::Nullification))),
        Ask::Ancestry(Kind::Nullification) => Some((view, Ask::Ancestry(Kind::Notarization))),
        Ask::Ancestry(Kind::Notarization) => Some((view.checked_add(1)?, Ask::Background)),
    }
}

impl<'b, B: Board> Asks<'b, B> {
    /// The asks that are open.
    pub fn new(board: &'b B) -> Asks<'b, B>
        ensures asks { from_next result.next (B.asks result.board.now) ≡ shown (B.asks board.now) }
        ensures board { result.board.now ≡ board.now }
    {
        Asks {
            board,
            next: Some((0, Ask::Background)),
        }
    }
}

impl<'b, B: Board> Iterator for Asks<'b, B> {
    type Item = Open;

    ghost next_gives = { YieldsFirst (λ s. from_next s.next (B.asks s.board.now)) };

    ghost remaining = { item_count (λ s. from_next s.next (B.asks s.board.now)) };

    fn next(&mut self) -> Option<Open> {
        let (view, ask) = self.next?;
        let Some(open) = self.board.first_from(view, ask) else {
            self.next = None;
            return None;
        };
        self.next = following(open.view, open.ask);
        Some(open)
    }
}
