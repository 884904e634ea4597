ghost use Rattle.std.specs.Prelude.{◌≡◌, length, Ok as Fine, MatchResult};
ghost use Rattle.both_ways.specs.Running.{Ran, Stopped, FreshEndAlike};
ghost use Rattle.effects.specs.Lists.{places};
ghost use Rattle.queue.specs.Pendings.{queue_of};

use crate::Fault;
use crate::calling::call_all;
use crate::queueing::{empty_into, offer_all};
use board::Board;
use effects::Effects;
use history::Resolver;
use queue::{Message, Pending};
use record::{LENGTH, Record};

/// How many messages may wait in all: a finalization, and the others.
const WAITING: usize = 1 + queue::PLACES;

/// The calls, up to one that is refused.
fn run<R: Record, B: Board, D: Board>(
    direct: &mut Resolver<R>,
    board: &mut B,
    queued: &mut Resolver<R>,
    behind: &mut D,
    queue: &mut Pending<[u8; LENGTH]>,
    messages: &[Message<[u8; LENGTH]>],
    cuts: &[usize],
    list: &mut [Message<[u8; LENGTH]>],
    effects: &mut Effects,
) -> Result<(), Fault>
    ensures ran { MatchResult result (λ _. Ran R.Record.parsed R.Record.sort R.Record.era messages.now cuts.now (length list.old) direct.old.calls.state direct.new.calls.state (B.asks board.old) (B.asks board.new) queued.old.calls.state queued.new.calls.state (D.asks behind.old) (D.asks behind.new) (queue_of queue.old) (queue_of queue.new)) (λ f. Stopped R.Record.parsed R.Record.sort R.Record.era messages.now cuts.now (length list.old) f direct.old.calls.state direct.new.calls.state (B.asks board.old) (B.asks board.new) queued.old.calls.state queued.new.calls.state (D.asks behind.old) (D.asks behind.new) (queue_of queue.old) (queue_of queue.new)) }
    ensures list { length list.new ≡ length list.old }
    ensures places { places effects.new ≡ places effects.old }
{
    call_all(direct, board, messages, effects)?;
    offer_all(queued, behind, queue, messages, cuts, list, effects)?;
    let mut rest = [Message::Replayed; WAITING];
    empty_into(queued, behind, queue, &mut rest, effects)?;
    Ok(())
}

/// Calls one resolver directly with messages, and another with what comes out of a queue to which they are offered: after
/// each message the queue is emptied into as many places of the list as `cuts` says, and at the end until none waits.
/// Where both began fresh, both end alike.
pub fn both_ways<R: Record, B: Board, D: Board>(
    direct: &mut Resolver<R>,
    board: &mut B,
    queued: &mut Resolver<R>,
    behind: &mut D,
    queue: &mut Pending<[u8; LENGTH]>,
    messages: &[Message<[u8; LENGTH]>],
    cuts: &[usize],
    list: &mut [Message<[u8; LENGTH]>],
    effects: &mut Effects,
) -> Result<(), Fault>
    ensures ran { MatchResult result (λ _. Ran R.Record.parsed R.Record.sort R.Record.era messages.now cuts.now (length list.old) direct.old.calls.state direct.new.calls.state (B.asks board.old) (B.asks board.new) queued.old.calls.state queued.new.calls.state (D.asks behind.old) (D.asks behind.new) (queue_of queue.old) (queue_of queue.new)) (λ f. Stopped R.Record.parsed R.Record.sort R.Record.era messages.now cuts.now (length list.old) f direct.old.calls.state direct.new.calls.state (B.asks board.old) (B.asks board.new) queued.old.calls.state queued.new.calls.state (D.asks behind.old) (D.asks behind.new) (queue_of queue.old) (queue_of queue.new)) }
    ensures list { length list.new ≡ length list.old }
    ensures places { places effects.new ≡ places effects.old }
    ensures end_alike { result ≡ Fine tt → FreshEndAlike R.Record.parsed R.Record.sort R.Record.era messages.now cuts.now (length list.old) direct.old.calls.state direct.new.calls.state (B.asks board.old) (B.asks board.new) queued.old.calls.state queued.new.calls.state (D.asks behind.old) (D.asks behind.new) (queue_of queue.old) }
{
    run(
        direct, board, queued, behind, queue, messages, cuts, list, effects,
    )
}
