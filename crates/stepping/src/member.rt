ghost use Rattle.std.specs.Prelude.{◌≡◌, ◌%◌, ◌^◌, [], None, length};
ghost use Rattle.effects.specs.Lists.{entries};
ghost use Rattle.queue.specs.Pendings.{queue_of};
ghost use Rattle.store.specs.Fresh.{fresh};
ghost use Rattle.state.specs.States.{held, term, epoch_of, fits, enough};
ghost use Rattle.terms.specs.Terms.{views as views_of};

use board::{Board, Counts};
use both_ways::{Begun, begin};
use effects::Effects;
use history::Resolver;
use places::Loan;
use queue::Pending;
use record::{Certificate, LENGTH};
use steps::Header;
use verifier::SeatVerifier;

/// One member as a stream runs it: its resolver, with its board and its verifier, the list that it lends to each call,
/// and the messages that are to be called later.
#[derive(Drop)]
pub struct Member<'a, B> {
    pub(crate) resolver: Resolver<'a, Certificate>,
    pub(crate) board: B,
    pub(crate) verifier: SeatVerifier,
    pub(crate) effects: Effects<'a>,
    pub(crate) queue: Pending<'a, [u8; LENGTH]>,
}

/// A verifier of four seats, of which three are a quorum.
fn verifier() -> SeatVerifier
    ensures seats { result.seats ≡ 4 }
    ensures quorum { result.quorum ≡ 3 }
{
    SeatVerifier::new(4, 3).unwrap()
}

impl<'a, B> Member<'a, B> {
    /// A fresh member, at the start of a replay.
    pub fn new(header: &Header, loan: Loan<'a>, board: B) -> Member<'a, B>
        ensures values { held result.resolver.calls.state ≡ fresh }
        ensures fixed { (term result.resolver.calls.state ≡ views_of header.now.term_length) × (epoch_of result.resolver.calls.state ≡ header.now.epoch) × (result.verifier.seats ≡ 4) × (result.verifier.quorum ≡ 3) }
        ensures board { result.board ≡ board }
        ensures fits { fits result.resolver.calls.state ≡ enough loan.entry.memory }
        ensures empty { entries result.effects ≡ [] }
        ensures list { result.effects.list.now ≡ loan.entry.effects.now }
        ensures queue { queue_of result.queue ≡ record { finalization = None; messages = [] } }
    {
        let Begun { resolver, queue } = begin(
            header.term_length,
            header.epoch,
            loan.memory,
            loan.queue,
        );
        Member {
            resolver,
            board,
            verifier: verifier(),
            effects: Effects::new(loan.effects),
            queue,
        }
    }
}

impl<'a, B: Board> Member<'a, B> {
    /// How many asks are open.
    pub fn open_asks(&self) -> usize
        ensures { result ≡ length (B.asks self.now.board) % 2 ^ 64 }
    {
        let Counts {
            background,
            ancestry,
        } = self.board.counts();
        background.wrapping_add(ancestry)
    }
}
