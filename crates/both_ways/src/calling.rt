ghost use Rattle.std.specs.Prelude.{◌≡◌, Bool, MatchResult};
ghost use Rattle.both_ways.specs.Calling.{event_of, Says, Lists, AllCalled, StopsAt};
ghost use Rattle.effects.specs.Lists.{places};
ghost use Rattle.history.specs.Uses.{Step, use_of};

use board::Board;
use effects::Effects;
use history::Resolver;
use queue::Message;
use record::{LENGTH, Record};
use resolver::Fault;

/// Calls what a message asks for, and returns whether the resolver did something: a request may be needless.
pub fn call<R: Record, B: Board>(
    resolver: &mut Resolver<R>,
    board: &mut B,
    message: &Message<[u8; LENGTH]>,
    effects: &mut Effects,
) -> Result<bool, Fault>
    ensures step { (approved : R → Bool) → Step R.Record.sort R.Record.era (use_of resolver.old.calls.state approved) (event_of R.Record.parsed message.now (places effects.old) result) resolver.old.calls.state resolver.new.calls.state (B.asks board.old) (B.asks board.new) }
    ensures places { places effects.new ≡ places effects.old }
    ensures effects { MatchResult result (λ b. Says message.now b × Lists R.Record.parsed R.Record.sort message.now resolver.old.calls.state effects.old effects.new) (λ _. effects.new ≡ effects.old) }
{
    match message {
        Message::Updated { payload, .. } => resolver.updated(board, payload, effects)?,
        Message::Certified {
            success,
            payload,
            ..
        } => resolver.certified(board, payload, *success, effects)?,
        Message::Resolve {
            proposal,
            view,
            kind,
            target,
        } => return resolver.resolve(board, *proposal, *view, *kind, *target),
        Message::Replayed => resolver.replayed(board, effects)?,
    }
    Ok(true)
}

/// Calls what messages ask for, one after the other, up to one that is refused.
pub fn call_all<R: Record, B: Board>(
    resolver: &mut Resolver<R>,
    board: &mut B,
    messages: &[Message<[u8; LENGTH]>],
    effects: &mut Effects,
) -> Result<(), Fault>
    ensures called { MatchResult result (λ _. AllCalled R.Record.parsed R.Record.sort R.Record.era messages.now resolver.old.calls.state resolver.new.calls.state (B.asks board.old) (B.asks board.new)) (λ f. StopsAt R.Record.parsed R.Record.sort R.Record.era messages.now f resolver.old.calls.state resolver.new.calls.state (B.asks board.old) (B.asks board.new)) }
    ensures places { places effects.new ≡ places effects.old }
{
    for message in messages {
        call(resolver, board, message, effects)?;
    }
    Ok(())
}
