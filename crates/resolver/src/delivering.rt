ghost use Rattle.std.specs.Prelude.{◌≡◌, ◌≤◌, true, false, cond, Some as Found, Ok as Fine, MatchResult};
ghost use Rattle.effects.specs.Lists.{places};
ghost use Rattle.resolver.specs.Calls.{Taken, If};
ghost use Rattle.resolver.specs.Deliveries.{outcome_of, settled_asks, is_obsolete, if_valid, is_valid, judged, taken_answer, delivery_test, tested, delivery_answer, Nothing};
ghost use Rattle.state.specs.Answers.{evidence_answer};
ghost use Rattle.state.specs.Calls.{Unchanged};
ghost use Rattle.state.specs.States.{held, term, epoch_of, fits as suits};

use crate::applying::apply;
use crate::validating::Parsed;
use crate::{ASKS, Delivered, Fault, Outcome, Resolver};
use board::{Ask, Board};
use effects::Effects;
use record::{Kind, Record};
use state::EFFECTS;
use verifier::Verifier;
use views::View;

/// The outcome, by how many of so many asks were settled before and are after.
fn outcome(asks: usize, before: usize, after: usize) -> Outcome
    ensures { result ≡ outcome_of asks before after }
{
    if before == asks {
        Outcome::LetGo
    } else if after == asks {
        Outcome::Complete
    } else if after > before {
        Outcome::Partial
    } else {
        Outcome::Unresolved
    }
}

impl<'a, R: Record> Resolver<'a, R> {
    /// How many of the asks are settled at a view.
    fn settled_asks(&self, view: View, asks: &[Ask]) -> usize
        ensures { result ≡ settled_asks (term self.now.state) view asks.now (held self.now.state) }
    {
        let mut settled = 0;
        for ask in asks {
            if self.state.settled(view, ask.kind()) {
                settled += 1;
            }
        }
        settled
    }

    /// The tests of a delivery that come before its bytes are looked at.
    fn test_delivery(&self, asks: &[Ask], effects: &Effects) -> Result<(), Fault>
        ensures { result ≡ delivery_test (suits self.now.state) (places effects.now) asks.now }
    {
        if !self.state.is_fit() || effects.places() < EFFECTS {
            return Err(Fault::State(state::Fault::TooFewPlaces));
        }
        if asks.is_empty() || asks.len() > ASKS {
            return Err(Fault::WrongAsks);
        }
        Ok(())
    }

    /// Records what was delivered, unless it is a notarization that failed, and returns whether it did.
    fn take<B: Board>(
        &mut self,
        board: &mut B,
        parsed: Parsed<R>,
        effects: &mut Effects,
    ) -> Result<bool, Fault>
        requires kind { parsed.kind ≡ R.Record.sort parsed.record }
        requires view { parsed.view ≡ R.Viewable.viewed parsed.record }
        requires fit { suits self.old.state ≡ true }
        requires room { 256 ≤ places effects.old }
        ensures answer { result ≡ cond (is_obsolete (R.Record.sort parsed.record) (R.Viewable.viewed parsed.record) (held self.old.state)) (Fine false) (taken_answer (evidence_answer (term self.old.state) (R.Record.sort parsed.record) parsed.record (held self.old.state))) }
        ensures outcome { MatchResult result (λ taken. If taken (Taken self.old.state self.new.state effects.old effects.new (B.asks board.old) (B.asks board.new) (R.Record.sort parsed.record) parsed.record) (Nothing self.old.state self.new.state effects.old effects.new × (board.new ≡ board.old))) (λ _. Unchanged self.old.state self.new.state effects.old effects.new × (board.new ≡ board.old)) }
    {
        if parsed.kind == Kind::Notarization && self.state.uncertifiable(parsed.view) {
            effects.clear();
            return Ok(false);
        }
        self.state.update(parsed.record, effects)?;
        apply(board, effects.as_slice());
        Ok(true)
    }

    /// Judges what was delivered: it is recorded before the asks are counted again.
    fn judge<B: Board>(
        &mut self,
        board: &mut B,
        parsed: Parsed<R>,
        view: View,
        asks: &[Ask],
        effects: &mut Effects,
    ) -> Result<Delivered, Fault>
        requires kind { parsed.kind ≡ R.Record.sort parsed.record }
        requires view { parsed.view ≡ R.Viewable.viewed parsed.record }
        requires fit { suits self.old.state ≡ true }
        requires room { 256 ≤ places effects.old }
        ensures answer { result ≡ judged (term self.old.state) R.Record.sort asks.now view parsed.record (held self.old.state) }
        ensures outcome { MatchResult result (λ d. If d.taken (Taken self.old.state self.new.state effects.old effects.new (B.asks board.old) (B.asks board.new) (R.Record.sort parsed.record) parsed.record) (Nothing self.old.state self.new.state effects.old effects.new × (board.new ≡ board.old))) (λ _. Unchanged self.old.state self.new.state effects.old effects.new × (board.new ≡ board.old)) }
    {
        let before = self.settled_asks(view, asks);
        let taken = self.take(board, parsed, effects)?;
        let after = self.settled_asks(view, asks);
        Ok(Delivered {
            outcome: outcome(asks.len(), before, after),
            taken,
        })
    }

    /// Judges what a peer delivered for a view and the asks that it may settle, and records what is new.
    pub fn deliver<B: Board, V: Verifier<R>>(
        &mut self,
        board: &mut B,
        verifier: &V,
        view: View,
        bytes: &[u8],
        asks: &[Ask],
        effects: &mut Effects,
    ) -> Result<Delivered, Fault>
        ensures answer { result ≡ tested (delivery_test (suits self.old.state) (places effects.old) asks.now) (delivery_answer (term self.old.state) R.Record.sort asks.now view (is_valid (term self.old.state) R.Record.sort R.Viewable.viewed R.Record.era (V.accepted verifier.now) (epoch_of self.old.state) view) (R.Record.parsed bytes.now) (held self.old.state)) }
        ensures outcome { MatchResult result (λ d. If d.taken ((x : R) × (if_valid (is_valid (term self.old.state) R.Record.sort R.Viewable.viewed R.Record.era (V.accepted verifier.now) (epoch_of self.old.state) view) (R.Record.parsed bytes.now) ≡ Found x) × Taken self.old.state self.new.state effects.old effects.new (B.asks board.old) (B.asks board.new) (R.Record.sort x) x) (Nothing self.old.state self.new.state effects.old effects.new × (board.new ≡ board.old))) (λ _. Unchanged self.old.state self.new.state effects.old effects.new × (board.new ≡ board.old)) }
    {
        self.test_delivery(asks, effects)?;
        if self.state.key_settled(view) {
            effects.clear();
            return Ok(Delivered {
                outcome: Outcome::Ignored,
                taken: false,
            });
        }
        let Some(parsed) = self.validate(verifier, view, bytes) else {
            effects.clear();
            return Ok(Delivered {
                outcome: Outcome::Invalid,
                taken: false,
            });
        };
        self.judge(board, parsed, view, asks, effects)
    }
}
