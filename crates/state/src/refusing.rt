ghost use Rattle.std.specs.Prelude.{◌≡◌, ◌^◌, ◌≤◌, false, not, ◌&&◌, length, Ok as Fine, nat_le, nat_lt};
ghost use Rattle.effects.specs.Lists.{places};
ghost use Rattle.planning.specs.Gaps.{gaps};
ghost use Rattle.record.specs.declared.kind.Kind.TheVariants.{Nullification as Nulled, Notarization as Noted};
ghost use Rattle.table.specs.Rows.{holds};
ghost use Rattle.table.specs.Tables.{entries};
ghost use Rattle.store.specs.Values.{is_covered};
ghost use Rattle.store.specs.Room.{row_due, rows_held, verdict_due, verdict_rows};
ghost use Rattle.state.specs.Answers.{refused_if, too_few, floor_after, gaps_over, evidence_answer, verdict_answer, marker_answer};
ghost use Rattle.state.specs.States.{held as values, term, fits};
ghost use Rattle.state.specs.declared.fault.Fault.TheVariants.{TooFewPlaces as Cramped};

use crate::{EFFECTS, Fault, GAPS, ROWS, State};
use effects::Effects;
use planning::exceeds;
use record::Kind;
use table::Table;
use terms::LAST_VIEW;
use views::{View, Viewable};

/// Whether a table has no row of `view`, and as many rows as it may.
fn has_no_room<X: Copy + Viewable>(table: &Table<X>, view: View) -> bool
    ensures { result ≡ (not (holds X.Viewable.viewed view (entries table.now)) && nat_le 128 (length (entries table.now))) }
{
    !table.contains(view) && table.len() >= ROWS
}

impl<'a, R: Copy + Viewable> State<'a, R> {
    /// Refuses where the host lent too few places, for effects or for the state.
    pub(crate) fn test_places(&self, effects: &Effects) -> Result<(), Fault>
        ensures { result ≡ refused_if (too_few (fits self.now) (places effects.now)) Cramped (Fine tt) }
    {
        if !self.fit || effects.places() < EFFECTS {
            return Err(Fault::TooFewPlaces);
        }
        Ok(())
    }

    /// Whether a nullification needs a row and finds no room.
    fn nullification_full(&self, view: View) -> bool
        requires { view ≤ 2 ^ 62 }
        ensures { result ≡ (row_due (term self.now) Nulled view (values self.now) && nat_le 128 (rows_held (term self.now) Nulled (values self.now))) }
    {
        let end = self.store.term_length.term_end(view).unwrap();
        end > self.store.last_finalized() && has_no_room(&self.store.nullifications, view)
    }

    /// Whether a notarization needs a row and finds no room.
    fn notarization_full(&self, view: View) -> bool
        ensures { result ≡ (row_due (term self.now) Noted view (values self.now) && nat_le 128 (rows_held (term self.now) Noted (values self.now))) }
    {
        if view <= self.store.last_finalized() {
            return false;
        }
        if self.store.uncertifiable_notarizations.contains(view) {
            return false;
        }
        !self.store.certified_notarizations.contains(view)
            && has_no_room(&self.store.pending_notarizations, view)
    }

    /// Whether evidence needs a row and finds no room.
    fn is_full(&self, kind: Kind, view: View) -> bool
        requires { view ≤ 2 ^ 62 }
        ensures { result ≡ (row_due (term self.now) kind view (values self.now) && nat_le 128 (rows_held (term self.now) kind (values self.now))) }
    {
        match kind {
            Kind::Nullification => self.nullification_full(view),
            Kind::Notarization => self.notarization_full(view),
            Kind::Finalization => false,
        }
    }

    /// The floor after evidence: only a finalization raises it.
    fn floor_after(&self, kind: Kind, view: View) -> View
        ensures { result ≡ floor_after (term self.now) kind view (values self.now) }
    {
        match kind {
            Kind::Finalization => self.store.floor.max(view),
            Kind::Notarization | Kind::Nullification => self.store.floor,
        }
    }

    /// Whether more gaps stand from `low` up to `current` than may.
    fn exceeds(&self, low: View, current: View) -> bool
        requires { current ≤ 2 ^ 62 }
        ensures { result ≡ nat_lt 128 (length (gaps (term self.now) (is_covered (term self.now) (values self.now)) low current)) }
    {
        exceeds(
            &self.store.nullifications,
            self.store.term_length,
            low,
            current,
            GAPS,
        )
        .unwrap()
    }

    /// Whether more gaps would stand after evidence than may.
    #[tactic(auto, using(crate::proofs::Counting::gaps_after))]
    fn too_many_gaps(&self, kind: Kind, held: R) -> bool
        requires { R.Viewable.viewed held ≤ 2 ^ 62 }
        ensures { result ≡ gaps_over (term self.now) kind held (values self.now) }
    {
        if self.store.replaying {
            return false;
        }
        let view = held.view();
        if view <= self.store.current_view {
            return false;
        }
        let low = self.floor_after(kind, view) + 1;
        self.exceeds(low, view)
    }

    /// The tests of evidence, in their order.
    #[tactic(auto, unfolding(crate::specs::Answers::evidence_answer))]
    pub(crate) fn test_evidence(&self, kind: Kind, held: R) -> Result<(), Fault>
        ensures { result ≡ evidence_answer (term self.now) kind held (values self.now) }
    {
        let view = held.view();
        if view > LAST_VIEW {
            return Err(Fault::ViewTooHigh);
        }
        if self.is_full(kind, view) {
            return Err(Fault::TableFull);
        }
        if self.too_many_gaps(kind, held) {
            return Err(Fault::TooManyGaps);
        }
        Ok(())
    }

    /// Whether a verdict needs a row and finds no room.
    fn verdict_full(&self, success: bool, view: View) -> bool
        ensures { result ≡ (verdict_due (term self.now) success view (values self.now) && nat_le 128 (verdict_rows (term self.now) success (values self.now))) }
    {
        if view <= self.store.last_finalized() {
            return false;
        }
        if success {
            has_no_room(&self.store.certified_notarizations, view)
        } else {
            has_no_room(&self.store.uncertifiable_notarizations, view)
        }
    }

    /// The tests of a verdict, in their order.
    #[tactic(auto, unfolding(crate::specs::Answers::verdict_answer))]
    pub(crate) fn test_verdict(&self, kind: Kind, view: View, success: bool) -> Result<(), Fault>
        ensures { result ≡ verdict_answer (term self.now) success kind view (values self.now) }
    {
        let Kind::Notarization = kind else {
            return Err(Fault::NotANotarization);
        };
        if view > LAST_VIEW {
            return Err(Fault::ViewTooHigh);
        }
        if self.verdict_full(success, view) {
            return Err(Fault::TableFull);
        }
        Ok(())
    }

    /// The test of the end of replay.
    #[tactic(auto, unfolding(crate::specs::Answers::marker_answer))]
    pub(crate) fn test_marker(&self) -> Result<(), Fault>
        ensures { result ≡ marker_answer (term self.now) (values self.now) }
    {
        if self.exceeds(self.store.floor + 1, self.store.current_view) {
            return Err(Fault::TooManyGaps);
        }
        Ok(())
    }
}
