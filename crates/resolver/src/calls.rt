ghost use Rattle.std.specs.Prelude.{◌≡◌, ◌<◌, ◌⊎◌, ◌≢◌, true, false, [], length, Ok as Fine, is_some, MatchResult};
ghost use Rattle.board.specs.Boards.{requested};
ghost use Rattle.effects.specs.Lists.{places};
ghost use Rattle.resolver.specs.Calls.{answer_of, Taken, Judged, Ended, request_answer, If};
ghost use Rattle.resolver.specs.declared.fault.Fault.TheVariants.{State as OfState, BoardNotEmpty as NotEmpty};
ghost use Rattle.state.specs.Answers.{refused_if, too_few, if_read, evidence_answer, verdict_answer, marker_answer};
ghost use Rattle.state.specs.Calls.{Unchanged};
ghost use Rattle.state.specs.Serving.{served, copied};
ghost use Rattle.state.specs.Settled.{settled as settles};
ghost use Rattle.state.specs.States.{held, term, epoch_of, fits as suits, enough};
ghost use Rattle.state.specs.declared.fault.Fault.TheVariants.{Terms, TooFewPlaces as Cramped};
ghost use Rattle.store.specs.Fresh.{fresh};
ghost use Rattle.terms.specs.Terms.{views as views_of};
ghost use Rattle.terms.specs.declared.fault.Fault.TheVariants.{ZeroLength};

use crate::applying::apply;
use crate::{Fault, Resolver};
use board::Board;
use effects::{Effects, Kind};
use record::Record;
use state::State;
use store::Memory;
use terms::TermLength;
use views::{View, Viewable};

impl<'a, R: Copy + Viewable> Resolver<'a, R> {
    /// Tests what a resolver is to be made over: a term length, the places that the host would lend, and a board.
    #[tactic(auto, using(crate::proofs::Boards::none_open))]
    pub fn fits<B: Board>(
        term_length: u32,
        memory: &Memory<R>,
        board: &B,
    ) -> Result<TermLength, Fault>
        ensures { MatchResult result (λ l. (0 < term_length) × (views_of l ≡ term_length) × (enough memory.now ≡ true) × (B.asks board.now ≡ [])) (λ f. ((term_length ≡ 0) × (f ≡ OfState (Terms ZeroLength))) ⊎ (((0 < term_length) × (enough memory.now ≡ false) × (f ≡ OfState Cramped)) ⊎ ((0 < term_length) × (enough memory.now ≡ true) × (B.asks board.now ≢ []) × (f ≡ NotEmpty)))) }
    {
        let length = State::fits(term_length, memory)?;
        let counts = board.counts();
        if counts.background == 0 && counts.ancestry == 0 {
            Ok(length)
        } else {
            Err(Fault::BoardNotEmpty)
        }
    }

    /// A resolver with nothing recorded, at the start of a replay.
    pub fn new(term_length: TermLength, epoch: u64, memory: Memory<'a, R>) -> Resolver<'a, R>
        ensures values { held result.state ≡ fresh }
        ensures fixed { (term result.state ≡ views_of term_length) × (epoch_of result.state ≡ epoch) }
        ensures fits { suits result.state ≡ enough memory.entry }
    {
        Resolver {
            state: State::new(term_length, epoch, memory),
        }
    }

    /// A resolver that goes on with a state. Its board is to be the one that went with it.
    pub fn over(state: State<'a, R>) -> Resolver<'a, R>
        ensures { result.state ≡ state.entry }
    {
        Resolver { state }
    }

    /// The state, to be read.
    pub fn state(&self) -> &State<'a, R>
        ensures { result.now ≡ self.now.state }
    {
        &self.state
    }

    /// Whether an ask for `kind` at `view` is settled.
    pub fn settled(&self, view: View, kind: Kind) -> bool
        ensures { result ≡ settles (term self.now.state) kind view (held self.now.state) }
    {
        self.state.settled(view, kind)
    }

    /// Copies the record that is served for `view` into `place`. Where none is, the place stays as it was.
    pub fn produce(&self, view: View, place: &mut R) -> bool
        ensures found { result ≡ is_some (served (term self.now.state) view (held self.now.state)) }
        ensures copied { place.new ≡ copied (served (term self.now.state) view (held self.now.state)) place.old }
    {
        self.state.produce(view, place)
    }

    /// Records the end of replay.
    pub fn replayed<B: Board>(&mut self, board: &mut B, effects: &mut Effects) -> Result<(), Fault>
        ensures answer { result ≡ answer_of (refused_if (too_few (suits self.old.state) (places effects.old)) Cramped (marker_answer (term self.old.state) (held self.old.state))) }
        ensures outcome { MatchResult result (λ _. Ended self.old.state self.new.state effects.old effects.new (B.asks board.old) (B.asks board.new)) (λ _. Unchanged self.old.state self.new.state effects.old effects.new × (board.new ≡ board.old)) }
    {
        self.state.replayed(effects)?;
        apply(board, effects.as_slice());
        Ok(())
    }

    /// Asks for what a proposal names below it, unless it is settled, and returns whether it did. With a target only
    /// that seat is asked.
    pub fn resolve<B: Board>(
        &self,
        board: &mut B,
        proposal: View,
        view: View,
        kind: Kind,
        target: Option<u32>,
    ) -> Result<bool, Fault>
        ensures answer { result ≡ request_answer (term self.now.state) proposal view kind (B.asks board.old) (held self.now.state) }
        ensures outcome { MatchResult result (λ asked. If asked (B.asks board.new ≡ requested view kind target (B.asks board.old)) (board.new ≡ board.old)) (λ _. board.new ≡ board.old) }
    {
        if view >= proposal || self.state.settled(view, kind) {
            return Ok(false);
        }
        board.request(view, kind, target)?;
        Ok(true)
    }
}

impl<'a, R: Record> Resolver<'a, R> {
    /// Records evidence.
    pub fn updated<B: Board>(
        &mut self,
        board: &mut B,
        bytes: &[u8],
        effects: &mut Effects,
    ) -> Result<(), Fault>
        ensures answer { result ≡ answer_of (refused_if (too_few (suits self.old.state) (places effects.old)) Cramped (if_read (R.Record.parsed bytes.now) (λ x. evidence_answer (term self.old.state) (R.Record.sort x) x (held self.old.state)))) }
        ensures outcome { MatchResult result (λ _. (x : R) × (R.Record.parsed bytes.now ≡ Fine x) × Taken self.old.state self.new.state effects.old effects.new (B.asks board.old) (B.asks board.new) (R.Record.sort x) x) (λ _. Unchanged self.old.state self.new.state effects.old effects.new × (board.new ≡ board.old)) }
    {
        self.state.updated(bytes, effects)?;
        apply(board, effects.as_slice());
        Ok(())
    }

    /// Records a verdict on a notarization.
    pub fn certified<B: Board>(
        &mut self,
        board: &mut B,
        bytes: &[u8],
        success: bool,
        effects: &mut Effects,
    ) -> Result<(), Fault>
        ensures answer { result ≡ answer_of (refused_if (too_few (suits self.old.state) (places effects.old)) Cramped (if_read (R.Record.parsed bytes.now) (λ x. verdict_answer (term self.old.state) success (R.Record.sort x) (R.Viewable.viewed x) (held self.old.state)))) }
        ensures outcome { MatchResult result (λ _. (x : R) × (R.Record.parsed bytes.now ≡ Fine x) × Judged self.old.state self.new.state effects.old effects.new (B.asks board.old) (B.asks board.new) success x) (λ _. Unchanged self.old.state self.new.state effects.old effects.new × (board.new ≡ board.old)) }
    {
        self.state.certified(bytes, success, effects)?;
        apply(board, effects.as_slice());
        Ok(())
    }
}
