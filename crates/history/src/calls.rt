ghost use Rattle.std.specs.Prelude.{◌≡◌, ◌<◌, [], ◌∷◌, List, Bool, Ok as Fine, MatchResult};
ghost use Rattle.board.specs.Boards.{requested};
ghost use Rattle.effects.specs.Lists.{places};
ghost use Rattle.history.specs.Events.{Event, updated as updates, certified as certifies, replayed as replays, resolved as resolves, Use};
ghost use Rattle.history.specs.Promises.{Point, Law};
ghost use Rattle.history.specs.Uses.{Reached, use_of};
ghost use Rattle.resolver.specs.Calls.{answer_of, Taken, Judged, Ended, request_answer, If};
ghost use Rattle.state.specs.Answers.{refused_if, too_few, if_read, evidence_answer, verdict_answer, marker_answer};
ghost use Rattle.state.specs.Calls.{Unchanged};
ghost use Rattle.state.specs.States.{held, term, epoch_of, fits as suits, enough};
ghost use Rattle.state.specs.declared.fault.Fault.TheVariants.{TooFewPlaces as Cramped};
ghost use Rattle.store.specs.Fresh.{fresh};
ghost use Rattle.terms.specs.Terms.{views as views_of};

use crate::Resolver;
use board::Board;
use effects::{Effects, Kind};
use record::Record;
use resolver::Fault;
use store::Memory;
use terms::TermLength;
use views::View;

impl<'a, R: Record> Resolver<'a, R> {
    /// A resolver with nothing recorded, at the start of a replay. Every history of its calls begins here.
    pub fn new(term_length: TermLength, epoch: u64, memory: Memory<'a, R>) -> Resolver<'a, R>
        ensures values { held result.calls.state ≡ fresh }
        ensures fixed { (term result.calls.state ≡ views_of term_length) × (epoch_of result.calls.state ≡ epoch) }
        ensures fits { suits result.calls.state ≡ enough memory.entry }
        ensures every_history_begins { (approved : R → Bool) → Point R.Record.sort R.Record.era (use_of result.calls.state approved) [] result.calls.state [] }
        ensures every_history_keeps_its_promises { Law R.Viewable R.Record.sort R.Record.era }
    {
        Resolver {
            calls: resolver::Resolver::new(term_length, epoch, memory),
        }
    }

    /// Records evidence.
    pub fn updated<B: Board>(
        &mut self,
        board: &mut B,
        bytes: &[u8],
        effects: &mut Effects,
    ) -> Result<(), Fault>
        ensures answer { result ≡ answer_of (refused_if (too_few (suits self.old.calls.state) (places effects.old)) Cramped (if_read (R.Record.parsed bytes.now) (λ x. evidence_answer (term self.old.calls.state) (R.Record.sort x) x (held self.old.calls.state)))) }
        ensures outcome { MatchResult result (λ _. (x : R) × (R.Record.parsed bytes.now ≡ Fine x) × Taken self.old.calls.state self.new.calls.state effects.old effects.new (B.asks board.old) (B.asks board.new) (R.Record.sort x) x) (λ _. Unchanged self.old.calls.state self.new.calls.state effects.old effects.new × (board.new ≡ board.old)) }
        ensures every_history_goes_on { (u : Use R) → (h : List (Event R)) → Reached R.Record.sort R.Record.era u h self.old.calls.state (B.asks board.old) → Point R.Record.sort R.Record.era u (updates (R.Record.parsed bytes.now) (places effects.old) result ∷ h) self.new.calls.state (B.asks board.new) }
    {
        self.calls.updated(board, bytes, effects)
    }

    /// Records a verdict on a notarization.
    pub fn certified<B: Board>(
        &mut self,
        board: &mut B,
        bytes: &[u8],
        success: bool,
        effects: &mut Effects,
    ) -> Result<(), Fault>
        ensures answer { result ≡ answer_of (refused_if (too_few (suits self.old.calls.state) (places effects.old)) Cramped (if_read (R.Record.parsed bytes.now) (λ x. verdict_answer (term self.old.calls.state) success (R.Record.sort x) (R.Viewable.viewed x) (held self.old.calls.state)))) }
        ensures outcome { MatchResult result (λ _. (x : R) × (R.Record.parsed bytes.now ≡ Fine x) × Judged self.old.calls.state self.new.calls.state effects.old effects.new (B.asks board.old) (B.asks board.new) success x) (λ _. Unchanged self.old.calls.state self.new.calls.state effects.old effects.new × (board.new ≡ board.old)) }
        ensures every_history_goes_on { (u : Use R) → (h : List (Event R)) → Reached R.Record.sort R.Record.era u h self.old.calls.state (B.asks board.old) → Point R.Record.sort R.Record.era u (certifies success (R.Record.parsed bytes.now) (places effects.old) result ∷ h) self.new.calls.state (B.asks board.new) }
    {
        self.calls.certified(board, bytes, success, effects)
    }

    /// Records the end of replay.
    pub fn replayed<B: Board>(&mut self, board: &mut B, effects: &mut Effects) -> Result<(), Fault>
        ensures answer { result ≡ answer_of (refused_if (too_few (suits self.old.calls.state) (places effects.old)) Cramped (marker_answer (term self.old.calls.state) (held self.old.calls.state))) }
        ensures outcome { MatchResult result (λ _. Ended self.old.calls.state self.new.calls.state effects.old effects.new (B.asks board.old) (B.asks board.new)) (λ _. Unchanged self.old.calls.state self.new.calls.state effects.old effects.new × (board.new ≡ board.old)) }
        ensures every_history_goes_on { (u : Use R) → (h : List (Event R)) → Reached R.Record.sort R.Record.era u h self.old.calls.state (B.asks board.old) → Point R.Record.sort R.Record.era u (replays (places effects.old) result ∷ h) self.new.calls.state (B.asks board.new) }
    {
        self.calls.replayed(board, effects)
    }

    /// Asks for what a proposal names below it, unless it is settled, and returns whether it did. With a target only
    /// that seat is asked.
    pub fn resolve<B: Board>(
        &self,
        board: &mut B,
        proposal: View,
        view: View,
        kind: Kind,
        target: Option<u32>,
    ) -> Result<bool, Fault>
        ensures answer { result ≡ request_answer (term self.now.calls.state) proposal view kind (B.asks board.old) (held self.now.calls.state) }
        ensures outcome { MatchResult result (λ asked. If asked (B.asks board.new ≡ requested view kind target (B.asks board.old)) (board.new ≡ board.old)) (λ _. board.new ≡ board.old) }
        ensures every_history_goes_on { (u : Use R) → (h : List (Event R)) → Reached R.Record.sort R.Record.era u h self.now.calls.state (B.asks board.old) → Point R.Record.sort R.Record.era u (resolves proposal view kind target result ∷ h) self.now.calls.state (B.asks board.new) }
    {
        self.calls.resolve(board, proposal, view, kind, target)
    }
}
