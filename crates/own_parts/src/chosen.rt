ghost use Rattle.own_parts.specs.Asks.{asks_in, rises_in};

use board::{Ask, Board, Counts, Fault, Open, Retire};
use effects::Kind;
use views::View;

/// One of two boards, which one is known only when the program runs.
#[derive(Drop)]
pub enum Chosen<A, B> {
    One(A),
    Other(B),
}

impl<A: Board, B: Board> Board for Chosen<A, B> {
    ghost asks = { asks_in A.asks B.asks };

    ghost rises = { rises_in A.asks B.asks A.rises B.rises };

    fn fetch(&mut self, view: View) {
        match self {
            Chosen::One(board) => board.fetch(view),
            Chosen::Other(board) => board.fetch(view),
        }
    }

    fn request(&mut self, view: View, kind: Kind, target: Option<u32>) -> Result<(), Fault> {
        match self {
            Chosen::One(board) => board.request(view, kind, target),
            Chosen::Other(board) => board.request(view, kind, target),
        }
    }

    fn retire(&mut self, retire: Retire) {
        match self {
            Chosen::One(board) => board.retire(retire),
            Chosen::Other(board) => board.retire(retire),
        }
    }

    fn counts(&self) -> Counts {
        match self {
            Chosen::One(board) => board.counts(),
            Chosen::Other(board) => board.counts(),
        }
    }

    fn first_from(&self, view: View, ask: Ask) -> Option<Open> {
        match self {
            Chosen::One(board) => board.first_from(view, ask),
            Chosen::Other(board) => board.first_from(view, ask),
        }
    }
}
