ghost use Rattle.std.specs.Prelude.{◌≡◌, [], None, Bool, Result as Outcome};
ghost use Rattle.both_ways.specs.Ends.{EndAlike};
ghost use Rattle.history.specs.Promises.{Point, Law};
ghost use Rattle.history.specs.Uses.{use_of};
ghost use Rattle.queue.specs.Pendings.{queue_of};
ghost use Rattle.record.specs.declared.fault.Fault.{Fault as Misread};
ghost use Rattle.state.specs.States.{held, term, epoch_of, fits as suits, enough};
ghost use Rattle.store.specs.Fresh.{fresh};
ghost use Rattle.terms.specs.Terms.{views as views_of};

use history::Resolver;
use queue::{Lent, Pending};
use record::Record;
use store::Memory;
use terms::TermLength;
use views::Viewable;

/// A resolver with nothing recorded, and the queue in front of it, where nothing waits.
#[derive(Drop)]
pub struct Begun<'a, R: Viewable, P> {
    pub resolver: Resolver<'a, R>,
    pub queue: Pending<'a, P>,
}

/// Makes a resolver and its queue. What every history of its calls keeps, and that calls through the queue end as direct
/// ones do, is all promised here.
pub fn begin<'a, R: Record, P: Drop>(
    term_length: TermLength,
    epoch: u64,
    memory: Memory<'a, R>,
    lent: Lent<'a, P>,
) -> Begun<'a, R, P>
    ensures values { held result.resolver.calls.state ≡ fresh }
    ensures fixed { (term result.resolver.calls.state ≡ views_of term_length) × (epoch_of result.resolver.calls.state ≡ epoch) }
    ensures fits { suits result.resolver.calls.state ≡ enough memory.entry }
    ensures nothing_waits { queue_of result.queue ≡ record { finalization = None; messages = [] } }
    ensures every_history_begins { (approved : R → Bool) → Point R.Record.sort R.Record.era (use_of result.resolver.calls.state approved) [] result.resolver.calls.state [] }
    ensures every_history_keeps_its_promises { Law R.Viewable R.Record.sort R.Record.era }
    ensures direct_and_queued_end_alike { (read : P → Outcome R Misread) → EndAlike P R.Viewable read R.Record.sort R.Record.era }
{
    Begun {
        resolver: Resolver::new(term_length, epoch, memory),
        queue: Pending::new(lent),
    }
}
