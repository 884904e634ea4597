ghost use Rattle.std.specs.Prelude.{◌≡◌, true, false, [], ◌∷◌, ◌++◌, Some as Found, None, MatchBool};
ghost use Rattle.asked.specs.Rows.{Fitting};
ghost use Rattle.asked.specs.Lists.{comes_last, appended};

use crate::Asked;
use board::{ANCESTRY, Ask, BACKGROUND, Board, Open};

/// Whether an ask comes behind all that are open, and there are fewer of its sort than may be.
fn comes_last<B: Board>(board: &B, asked: Open) -> bool
    ensures { result ≡ comes_last asked (B.asks board.now) }
{
    let counts = board.counts();
    let few = if asked.ask.is_background() {
        counts.background < BACKGROUND
    } else {
        counts.ancestry < ANCESTRY
    };
    few && board.first_from(asked.view, asked.ask).is_none()
}

/// Opens an ask behind all that are open.

fn place<B: Board>(board: &mut B, asked: Open)
    requires last { comes_last asked (B.asks board.old) ≡ true }
    requires fitting { Fitting asked }
    ensures { B.asks board.new ≡ B.asks board.old ++ asked ∷ [] }
{
    match asked.ask {
        Ask::Background => board.fetch(asked.view),
        Ask::Ancestry(kind) => {
            board.request(asked.view, kind, asked.target).unwrap();
        }
    }
}

/// Opens the asks that rows say on a board with none, exactly if they are in order, each once, and not too many.
pub fn fill<B: Board>(asks: &[Asked], board: &mut B) -> bool
    ensures { MatchBool result (appended (B.asks board.old) asks.now ≡ Found (B.asks board.new)) (appended (B.asks board.old) asks.now ≡ None) }
{
    for asked in asks {
        let Some(open) = asked.read() else {
            return false;
        };
        if !comes_last(board, open) {
            return false;
        }
        place(board, open);
    }
    true
}
