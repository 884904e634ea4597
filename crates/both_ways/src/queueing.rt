ghost use Rattle.std.specs.Prelude.{◌≡◌, [], ◌∷◌, ◌++◌, drop, min, length, IfOk, MatchResult, slice_index_or};
ghost use Rattle.both_ways.specs.Calling.{AllCalled, StopsAt};
ghost use Rattle.both_ways.specs.Queueing.{so_far, AllThrough, Stops};
ghost use Rattle.effects.specs.Lists.{places};
ghost use Rattle.queue.specs.Pendings.{queue_of};
ghost use Rattle.queue.specs.Queues.{offered, drained};

use crate::Fault;
use crate::calling::call_all;
use board::Board;
use effects::Effects;
use history::Resolver;
use queue::{Message, Pending};
use record::{LENGTH, Record};

/// Empties a queue into a list, and calls what comes out, one after the other, up to a message that is refused.
pub fn empty_into<R: Record, B: Board>(
    resolver: &mut Resolver<R>,
    board: &mut B,
    queue: &mut Pending<[u8; LENGTH]>,
    list: &mut [Message<[u8; LENGTH]>],
    effects: &mut Effects,
) -> Result<(), resolver::Fault>
    ensures called { MatchResult result (λ _. AllCalled R.Record.parsed R.Record.sort R.Record.era (drained (length list.old) (queue_of queue.old)).0 resolver.old.calls.state resolver.new.calls.state (B.asks board.old) (B.asks board.new)) (λ f. StopsAt R.Record.parsed R.Record.sort R.Record.era (drained (length list.old) (queue_of queue.old)).0 f resolver.old.calls.state resolver.new.calls.state (B.asks board.old) (B.asks board.new)) }
    ensures queue { queue_of queue.new ≡ (drained (length list.old) (queue_of queue.old)).1 }
    ensures list { list.new ≡ (drained (length list.old) (queue_of queue.old)).0 ++ drop (length (drained (length list.old) (queue_of queue.old)).0) list.old }
    ensures places { places effects.new ≡ places effects.old }
{
    let count = queue.drain(list);
    call_all(resolver, board, &list[..count], effects)
}

/// Offers one message to a queue, and empties it into a list.
pub fn offer_one<R: Record, B: Board>(
    resolver: &mut Resolver<R>,
    board: &mut B,
    queue: &mut Pending<[u8; LENGTH]>,
    message: Message<[u8; LENGTH]>,
    list: &mut [Message<[u8; LENGTH]>],
    effects: &mut Effects,
) -> Result<(), Fault>
    ensures offered { MatchResult result (λ _. AllThrough R.Record.parsed R.Record.sort R.Record.era (message ∷ []) (drained (length list.old) (offered message (queue_of queue.old))).0 (queue_of queue.old) (queue_of queue.new) resolver.old.calls.state resolver.new.calls.state (B.asks board.old) (B.asks board.new)) (λ f. Stops R.Record.parsed R.Record.sort R.Record.era (message ∷ []) f (queue_of queue.old) (queue_of queue.new) resolver.old.calls.state resolver.new.calls.state (B.asks board.old) (B.asks board.new)) }
    ensures queue { IfOk result (λ _. queue_of queue.new ≡ (drained (length list.old) (offered message (queue_of queue.old))).1) }
    ensures list { length list.new ≡ length list.old }
    ensures places { places effects.new ≡ places effects.old }
{
    queue.handle(message)?;
    empty_into(resolver, board, queue, list, effects)?;
    Ok(())
}

/// Into how many of so many places the queue is emptied after the message `i`.
fn cut(cuts: &[usize], i: usize, places: usize) -> usize
    ensures { result ≡ min (slice_index_or cuts.now i 0) places }
{
    cuts.get(i).copied().unwrap_or(0).min(places)
}

/// Offers messages to a queue one after the other, and empties it after each into as many places of the list as `cuts`
/// says, none where it says nothing.
pub fn offer_all<R: Record, B: Board>(
    resolver: &mut Resolver<R>,
    board: &mut B,
    queue: &mut Pending<[u8; LENGTH]>,
    messages: &[Message<[u8; LENGTH]>],
    cuts: &[usize],
    list: &mut [Message<[u8; LENGTH]>],
    effects: &mut Effects,
) -> Result<(), Fault>
    ensures offered { MatchResult result (λ _. AllThrough R.Record.parsed R.Record.sort R.Record.era messages.now (so_far messages.now cuts.now (length list.old) (queue_of queue.old) (length messages.now)).0 (queue_of queue.old) (queue_of queue.new) resolver.old.calls.state resolver.new.calls.state (B.asks board.old) (B.asks board.new)) (λ f. Stops R.Record.parsed R.Record.sort R.Record.era messages.now f (queue_of queue.old) (queue_of queue.new) resolver.old.calls.state resolver.new.calls.state (B.asks board.old) (B.asks board.new)) }
    ensures queue { IfOk result (λ _. queue_of queue.new ≡ (so_far messages.now cuts.now (length list.old) (queue_of queue.old) (length messages.now)).1) }
    ensures list { length list.new ≡ length list.old }
    ensures places { places effects.new ≡ places effects.old }
{
    for i in 0..messages.len() {
        let places = cut(cuts, i, list.len());
        offer_one(
            resolver,
            board,
            queue,
            messages[i],
            &mut list[..places],
            effects,
        )?;
    }
    Ok(())
}
