ghost use Rattle.std.specs.Prelude.{IfOk};
ghost use Rattle.catching_up.specs.Catching.{CaughtUp};
ghost use Rattle.peer_rounds.specs.Laws.{NothingMissed};
ghost use Rattle.peer_rounds.specs.Lives.{Lived};
ghost use Rattle.peer_rounds.specs.Rounds.{Wrote};

use crate::{Entry, close, rejoin};
use board::Board;
use one_member::Member;
use peer_rounds::{Summary, run_rounds};
use std::alloc::Global;
use std::io;
use std::io::Write;

/// A member rejoins: it replays its journal, learns of what the others have come to, and puts to a peer what it must ask.
pub fn catch_up<W: Write, B: Board, C>(
    out: &mut W,
    heap: Global,
    member: &mut Member<B>,
    peer: &Member<C>,
    journal: &[Entry],
    news: Entry,
) -> io::Result<Summary>
    ensures caught_up { IfOk result (λ s. Wrote (W.Write.contents out.old) (W.Write.contents out.new) (CaughtUp B.asks peer.now journal.now news member.old member.new s)) }
    ensures nothing_missed { IfOk result (λ s. NothingMissed B.asks member.old member.new s.end) }
    ensures lives { Lived B.asks member.old → Lived B.asks member.new }
{
    rejoin(out, member, journal, news)?;
    let summary = run_rounds(out, heap, member, peer)?;
    close(out, summary, member)?;
    Ok(summary)
}
