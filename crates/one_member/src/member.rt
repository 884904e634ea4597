ghost use Rattle.std.specs.Prelude.{◌≡◌, [], None};
ghost use Rattle.effects.specs.Lists.{entries};
ghost use Rattle.queue.specs.Pendings.{queue_of};
ghost use Rattle.store.specs.Fresh.{fresh};
ghost use Rattle.state.specs.States.{held, term, epoch_of, fits, enough};
ghost use Rattle.terms.specs.Terms.{views as views_of};

use crate::Admitted;
use both_ways::{Begun, begin};
use effects::Effects;
use history::Resolver;
use places::Loan;
use queue::Pending;
use record::{Certificate, LENGTH};
use record_text::Defaults;
use verifier::SeatVerifier;

/// One member as a script runs it: its resolver, with its board and its verifier, the list that it lends to each call,
/// and the messages that are to be called later.
#[derive(Drop)]
pub struct Member<'a, B> {
    pub resolver: Resolver<'a, Certificate>,
    pub board: B,
    pub verifier: SeatVerifier,
    pub effects: Effects<'a>,
    /// Each certificate with all of its bytes.
    pub(crate) queue: Pending<'a, [u8; LENGTH]>,
    /// The seats that stand behind a record that does not say.
    pub(crate) seats: u64,
}

impl<'a, B> Member<'a, B> {
    /// A fresh member, at the start of a replay.
    pub fn new(admitted: Admitted, loan: Loan<'a>, board: B) -> Member<'a, B>
        ensures values { held result.resolver.calls.state ≡ fresh }
        ensures fixed { (term result.resolver.calls.state ≡ views_of admitted.term_length) × (epoch_of result.resolver.calls.state ≡ admitted.epoch) × (result.verifier ≡ admitted.verifier) × (result.seats ≡ admitted.seats) }
        ensures board { result.board ≡ board }
        ensures fits { fits result.resolver.calls.state ≡ enough loan.entry.memory }
        ensures empty { entries result.effects ≡ [] }
        ensures list { result.effects.list.now ≡ loan.entry.effects.now }
        ensures queue { queue_of result.queue ≡ record { finalization = None; messages = [] } }
    {
        let Begun { resolver, queue } = begin(
            admitted.term_length,
            admitted.epoch,
            loan.memory,
            loan.queue,
        );
        Member {
            resolver,
            board,
            verifier: admitted.verifier,
            effects: Effects::new(loan.effects),
            queue,
            seats: admitted.seats,
        }
    }

    /// What a record has where a script does not say.
    pub fn defaults(&self) -> Defaults
        ensures { result ≡ record { epoch = epoch_of self.now.resolver.calls.state; seats = self.now.seats } }
    {
        Defaults {
            epoch: self.resolver.state().epoch(),
            seats: self.seats,
        }
    }
}
