ghost use Rattle.std.specs.Prelude.{◌≡◌, None, Some as Found, MatchOption};
ghost use Rattle.resolver.specs.Deliveries.{serves, if_valid, is_valid};
ghost use Rattle.state.specs.States.{term, epoch_of};

use crate::Resolver;
use record::{Kind, Record};
use verifier::Verifier;
use views::View;

/// What a delivered record says, and the record.
#[derive(Clone, Copy)]
pub(crate) struct Parsed<R> {
    pub(crate) kind: Kind,
    pub(crate) epoch: u64,
    pub(crate) view: View,
    pub(crate) record: R,
}

impl<'a, R: Record> Resolver<'a, R> {
    /// Whether a record of this kind and view answers for the view that was asked.
    fn serves(&self, kind: Kind, view: View, asked: View) -> bool
        ensures { result ≡ serves (term self.now.state) kind view asked }
    {
        match kind {
            Kind::Nullification => self.state.term_length().covers(view, asked),
            Kind::Notarization | Kind::Finalization => view >= asked,
        }
    }

    /// The record in the bytes, if they are one that a peer may answer with. What it answers is not judged here.
    pub(crate) fn validate<V: Verifier<R>>(
        &self,
        verifier: &V,
        view: View,
        bytes: &[u8],
    ) -> Option<Parsed<R>>
        ensures { MatchOption result (if_valid (is_valid (term self.now.state) R.Record.sort R.Viewable.viewed R.Record.era (V.accepted verifier.now) (epoch_of self.now.state) view) (R.Record.parsed bytes.now) ≡ None) (λ p. (if_valid (is_valid (term self.now.state) R.Record.sort R.Viewable.viewed R.Record.era (V.accepted verifier.now) (epoch_of self.now.state) view) (R.Record.parsed bytes.now) ≡ Found p.record) × (p.kind ≡ R.Record.sort p.record) × (p.view ≡ R.Viewable.viewed p.record)) }
    {
        let record = R::read(bytes).ok()?;
        let parsed = Parsed {
            kind: record.kind(),
            epoch: record.epoch(),
            view: record.view(),
            record,
        };
        if !self.serves(parsed.kind, parsed.view, view) {
            return None;
        }
        if parsed.epoch != self.state.epoch() {
            return None;
        }
        if !verifier.accepts(&record) {
            return None;
        }
        Some(parsed)
    }
}
