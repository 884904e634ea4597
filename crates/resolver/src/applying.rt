ghost use Rattle.std.specs.Prelude.{◌≡◌};
ghost use Rattle.resolver.specs.Applied.{ended, begun, in_turn, applied};

use board::{Board, Retire};
use effects::Effect;

/// Ends the asks that an effect ends.
fn end<B: Board>(board: &mut B, effect: Effect)
    ensures { B.asks board.new ≡ ended effect (B.asks board.old) }
{
    let retire = match effect {
        Effect::Settled { kind, start, end } => Retire::Settled { kind, start, end },
        Effect::Finalized(view) => Retire::Finalized(view),
        Effect::Raised(view) => Retire::Raised(view),
        Effect::Fetch { .. } => return,
    };
    board.retire(retire);
}

/// Opens the ask that an effect fetches.
fn begin<B: Board>(board: &mut B, effect: Effect)
    ensures { B.asks board.new ≡ begun effect (B.asks board.old) }
{
    if let Effect::Fetch { view, .. } = effect {
        board.fetch(view);
    }
}

/// Ends the asks that effects end.
fn end_all<B: Board>(board: &mut B, effects: &[Effect])
    ensures { B.asks board.new ≡ in_turn ended effects.now (B.asks board.old) }
{
    for effect in effects {
        end(board, *effect);
    }
}

/// Opens the asks that effects fetch.
fn begin_all<B: Board>(board: &mut B, effects: &[Effect])
    ensures { B.asks board.new ≡ in_turn begun effects.now (B.asks board.old) }
{
    for effect in effects {
        begin(board, *effect);
    }
}

/// Does on the board what effects say: what ends goes first, so that no fetch of theirs is ended.
pub(crate) fn apply<B: Board>(board: &mut B, effects: &[Effect])
    ensures { B.asks board.new ≡ applied effects.now (B.asks board.old) }
{
    end_all(board, effects);
    begin_all(board, effects);
}
