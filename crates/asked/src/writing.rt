ghost use Rattle.std.specs.Prelude.{◌≡◌, ◌≤◌, map, length};
ghost use Rattle.board.specs.Left.{shown};
ghost use Rattle.asked.specs.Lists.{ReadsBack};
ghost use Rattle.asked.specs.Rows.{over, row_of};

use crate::Asked;
use board::{Asks, Board};

/// Writes the open asks of a board into rows, in order, and returns how many. Rows past them stay as they were.
#[tactic(auto, using(crate::proofs::Back::reads_back))]
pub fn write<B: Board>(board: &B, asks: &mut [Asked]) -> usize
    ensures rows { length (shown (B.asks board.now)) ≤ length asks.old → asks.new ≡ over (map row_of (shown (B.asks board.now))) asks.old }
    ensures count { length (shown (B.asks board.now)) ≤ length asks.old → result ≡ length (shown (B.asks board.now)) }
    ensures reads_back { ReadsBack }
{
    let mut n = 0;
    for asked in Asks::new(board) {
        if n < asks.len() {
            asks[n] = Asked::of(asked);
            n += 1;
        }
    }
    n
}
