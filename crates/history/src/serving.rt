ghost use Rattle.std.specs.Prelude.{◌≡◌, ◌∷◌, List, if◌then◌else◌, is_some, Some as Found, None, MatchResult};
ghost use Rattle.board.specs.declared.open.Open.{Open as Asked};
ghost use Rattle.effects.specs.Lists.{places};
ghost use Rattle.history.specs.Events.{Event, delivered, settled as settles_asked, produced, Use};
ghost use Rattle.history.specs.Promises.{Point};
ghost use Rattle.history.specs.Uses.{Reached};
ghost use Rattle.resolver.specs.Calls.{Taken, If};
ghost use Rattle.resolver.specs.Deliveries.{if_valid, is_valid, delivery_test, tested, delivery_answer, Nothing};
ghost use Rattle.state.specs.Calls.{Unchanged};
ghost use Rattle.state.specs.Serving.{served, copied};
ghost use Rattle.state.specs.Settled.{settled as settles};
ghost use Rattle.state.specs.States.{held, term, epoch_of, fits as suits};

use crate::Resolver;
use board::{Ask, Board};
use effects::{Effects, Kind};
use record::Record;
use resolver::{Delivered, Fault};
use state::State;
use verifier::Verifier;
use views::View;

impl<'a, R: Record> Resolver<'a, R> {
    /// The state, to be read.
    pub fn state(&self) -> &State<'a, R>
        ensures { result.now ≡ self.now.calls.state }
    {
        self.calls.state()
    }

    /// Whether an ask for `kind` at `view` is settled.
    pub fn settled(&self, view: View, kind: Kind) -> bool
        ensures answer { result ≡ settles (term self.now.calls.state) kind view (held self.now.calls.state) }
        ensures every_history_goes_on { (u : Use R) → (h : List (Event R)) → (os : List Asked) → Reached R.Record.sort R.Record.era u h self.now.calls.state os → Point R.Record.sort R.Record.era u (settles_asked view kind result ∷ h) self.now.calls.state os }
    {
        self.calls.settled(view, kind)
    }

    /// Copies the record that is served for `view` into `place`. Where none is, the place stays as it was.
    pub fn produce(&self, view: View, place: &mut R) -> bool
        ensures found { result ≡ is_some (served (term self.now.calls.state) view (held self.now.calls.state)) }
        ensures copied { place.new ≡ copied (served (term self.now.calls.state) view (held self.now.calls.state)) place.old }
        ensures every_history_goes_on { (u : Use R) → (h : List (Event R)) → (os : List Asked) → Reached R.Record.sort R.Record.era u h self.now.calls.state os → Point R.Record.sort R.Record.era u (produced view (if result then Found place.new else None) ∷ h) self.now.calls.state os }
    {
        self.calls.produce(view, place)
    }

    /// Judges what a peer delivered for a view and the asks that it may settle, and records what is new.
    pub fn deliver<B: Board, V: Verifier<R>>(
        &mut self,
        board: &mut B,
        verifier: &V,
        view: View,
        bytes: &[u8],
        asks: &[Ask],
        effects: &mut Effects,
    ) -> Result<Delivered, Fault>
        ensures answer { result ≡ tested (delivery_test (suits self.old.calls.state) (places effects.old) asks.now) (delivery_answer (term self.old.calls.state) R.Record.sort asks.now view (is_valid (term self.old.calls.state) R.Record.sort R.Viewable.viewed R.Record.era (V.accepted verifier.now) (epoch_of self.old.calls.state) view) (R.Record.parsed bytes.now) (held self.old.calls.state)) }
        ensures outcome { MatchResult result (λ d. If d.taken ((x : R) × (if_valid (is_valid (term self.old.calls.state) R.Record.sort R.Viewable.viewed R.Record.era (V.accepted verifier.now) (epoch_of self.old.calls.state) view) (R.Record.parsed bytes.now) ≡ Found x) × Taken self.old.calls.state self.new.calls.state effects.old effects.new (B.asks board.old) (B.asks board.new) (R.Record.sort x) x) (Nothing self.old.calls.state self.new.calls.state effects.old effects.new × (board.new ≡ board.old))) (λ _. Unchanged self.old.calls.state self.new.calls.state effects.old effects.new × (board.new ≡ board.old)) }
        ensures every_history_goes_on { (u : Use R) → u.approved ≡ V.accepted verifier.now → (h : List (Event R)) → Reached R.Record.sort R.Record.era u h self.old.calls.state (B.asks board.old) → Point R.Record.sort R.Record.era u (delivered view (R.Record.parsed bytes.now) asks.now (places effects.old) result ∷ h) self.new.calls.state (B.asks board.new) }
    {
        self.calls
            .deliver(board, verifier, view, bytes, asks, effects)
    }
}
