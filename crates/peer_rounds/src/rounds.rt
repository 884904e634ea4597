ghost use Rattle.std.specs.Prelude.{◌≡◌, IfOk};
ghost use Rattle.peer_rounds.specs.Laws.{SettledIsClosed};
ghost use Rattle.peer_rounds.specs.Lives.{Lived};
ghost use Rattle.peer_rounds.specs.Rounds.{open_from, following, Wrote, Round};

use crate::{Tally, put};
use board::{Ask, Board};
use one_member::Member;
use std::alloc::Global;
use std::io;
use std::io::Write;
use views::View;

/// The lowest view with an open ask that is not below this one.
pub fn next_open<B: Board>(board: &B, from: Option<View>) -> Option<View>
    ensures { result ≡ open_from from (B.asks board.now) }
{
    let open = board.first_from(from?, Ask::Background)?;
    Some(open.view)
}

/// The view after one, if there is one.
fn following(view: View) -> Option<View>
    ensures { result ≡ following view }
{
    view.checked_add(1)
}

/// Puts each open ask to a peer, view by view, and writes a line for each view. What is opened above the view that was
/// put is put in the same round.
pub fn round<W: Write, B: Board, C>(
    out: &mut W,
    heap: Global,
    member: &mut Member<B>,
    peer: &Member<C>,
) -> io::Result<Tally>
    ensures round { IfOk result (λ t. Wrote (W.Write.contents out.old) (W.Write.contents out.new) (Round B.asks peer.now member.old member.new t)) }
    ensures settled_is_closed { IfOk result (λ _. Lived B.asks member.old → SettledIsClosed B.asks member.new) }
    ensures lives { Lived B.asks member.old → Lived B.asks member.new }
{
    let mut tally = Tally::default();
    let mut from = Some(0);
    while let Some(view) = next_open(&member.board, from) {
        let put = put(heap, member, peer, view)?;
        writeln!(out, "  {put}")?;
        tally = tally.with(put.tally());
        from = following(view);
    }
    Ok(tally)
}
