ghost use Rattle.std.specs.Prelude.{◌≡◌, ◌^◌, ◌<◌, ◌≤◌, true, false};
ghost use Rattle.effects.specs.Lists.{Added};
ghost use Rattle.planning.specs.Gaps.{pulled};
ghost use Rattle.slot.specs.Slots.{places as lent};
ghost use Rattle.table.specs.Tables.{entries, capacity};
ghost use Rattle.store.specs.Values.{values, with_pending, finalized, is_certified};
ghost use Rattle.store.specs.Ready.{length_of, RoomFor, Turned, HasRoom};
ghost use Rattle.store.specs.Steps.{first_kept, nullification_counts, nullified, nullified_effects, awaiting, notarization_counts, notarized, notarized_effects, finalized_at, pruned, raised, raised_effects, certified_at, failed_at};

use crate::Store;
use effects::{Effect, Effects, Kind};
use table::{From, Mark, Past, Table};
use views::{View, Viewable};

/// Keeps a record, unless one of its view is kept.
fn or_insert<R: Copy + Viewable>(rows: &mut Table<R>, held: R)
    ensures rows { RoomFor (R.Viewable.viewed held) rows.old → entries rows.new ≡ first_kept R.Viewable.viewed held (entries rows.old) }
    ensures cap { capacity rows.new ≡ capacity rows.old }
{
    if rows.contains(held.view()) {
        return;
    }
    rows.insert(held);
}

impl<'a, R: Copy + Viewable> Store<'a, R> {
    /// Records a nullification, unless its term is finalized.
    #[tactic(auto, unfolding(crate::specs::Steps::nullified, crate::specs::Steps::nullified_effects))]
    pub(crate) fn nullify(&mut self, held: R, effects: &mut Effects)
        ensures turned { R.Viewable.viewed held ≤ 2 ^ 62 → (nullification_counts (length_of self.old) (R.Viewable.viewed held) (values self.old) ≡ true → RoomFor (R.Viewable.viewed held) self.old.nullifications) → Turned self.old self.new (nullified (length_of self.old) held (values self.old)) }
        ensures added { R.Viewable.viewed held ≤ 2 ^ 62 → HasRoom 1 effects.old → Added (nullified_effects (length_of self.old) (R.Viewable.viewed held) (values self.old)) effects.old effects.new }
    {
        let start = held.view();
        let Ok(end) = self.term_length.term_end(start) else {
            return;
        };
        if end <= self.last_finalized() {
            return;
        }
        or_insert(&mut self.nullifications, held);
        effects.push(Effect::Settled {
            kind: Kind::Nullification,
            start,
            end,
        });
    }

    /// Lets a notarization wait for its verdict, unless it passed.
    fn await_verdict(&mut self, view: View)
        ensures { (is_certified view (values self.old) ≡ false → RoomFor view self.old.pending_notarizations) → Turned self.old self.new (with_pending (awaiting (length_of self.old) view (values self.old)) (values self.old)) }
    {
        if self.certified_notarizations.contains(view) {
            return;
        }
        self.pending_notarizations.insert(Mark { view });
    }

    /// Records a notarization above the finalized view, unless it failed.
    #[tactic(auto, unfolding(crate::specs::Steps::notarized, crate::specs::Steps::notarized_effects))]
    pub(crate) fn notarize(&mut self, view: View, effects: &mut Effects)
        ensures turned { (notarization_counts (length_of self.old) view (values self.old) ≡ true → is_certified view (values self.old) ≡ false → RoomFor view self.old.pending_notarizations) → Turned self.old self.new (notarized (length_of self.old) view (values self.old)) }
        ensures added { HasRoom 1 effects.old → Added (notarized_effects (length_of self.old) view (values self.old)) effects.old effects.new }
    {
        if view <= self.last_finalized() {
            return;
        }
        if self.uncertifiable_notarizations.contains(view) {
            return;
        }
        self.await_verdict(view);
        effects.push(Effect::Settled {
            kind: Kind::Notarization,
            start: view,
            end: view,
        });
    }

    /// Keeps a finalization that is higher than the one kept.
    #[tactic(auto, unfolding(crate::specs::Steps::finalized_at))]
    pub(crate) fn keep_finalization(&mut self, held: R)
        ensures { 0 < lent self.old.finalization → Turned self.old self.new (finalized_at (length_of self.old) held (values self.old)) }
    {
        if held.view() <= self.last_finalized() {
            return;
        }
        self.finalization.put(held);
    }

    /// Drops what finalization has ruled out. A term ends above the finalized view exactly if it is not below the
    /// term of the view after that.
    #[tactic(auto, unfolding(crate::specs::Steps::pruned))]
    pub(crate) fn retire(&mut self)
        ensures { finalized (values self.old) ≤ 2 ^ 62 → Turned self.old self.new (pruned (length_of self.old) (values self.old)) }
    {
        let finalized = self.last_finalized();
        let first = self.term_length.term_start(finalized.saturating_add(1));
        self.nullifications.retire(&From(first));
        self.pending_notarizations.retire(&Past(finalized));
        self.certified_notarizations.retire(&Past(finalized));
        self.uncertifiable_notarizations.retire(&Past(finalized));
    }

    /// The cursor after a raise: one that lands mid-term pulls it back to the view after the floor.
    #[tactic(auto, unfolding(planning::specs::Gaps::pulled))]
    fn pulled_back(&self, floor: View) -> View
        ensures { floor ≤ 2 ^ 62 → result ≡ pulled (length_of self.now) self.now.cursor floor }
    {
        let next = floor.saturating_add(1);
        if self.term_length.is_term_start(next) {
            self.cursor
        } else {
            self.cursor.min(next)
        }
    }

    /// Raises the floor to a view above it.
    #[tactic(auto, unfolding(crate::specs::Steps::raised, crate::specs::Steps::raised_effects))]
    pub(crate) fn raise(&mut self, floor: View, effects: &mut Effects)
        ensures turned { floor ≤ 2 ^ 62 → Turned self.old self.new (raised (length_of self.old) floor (values self.old)) }
        ensures added { HasRoom 1 effects.old → Added (raised_effects (length_of self.old) floor (values self.old)) effects.old effects.new }
    {
        if floor <= self.floor {
            return;
        }
        self.cursor = self.pulled_back(floor);
        self.floor = floor;
        effects.push(Effect::Raised(floor));
    }

    /// Keeps a notarization that passed, above the finalized view.
    #[tactic(auto, unfolding(crate::specs::Steps::certified_at))]
    pub(crate) fn keep_certified(&mut self, held: R)
        ensures { (finalized (values self.old) < R.Viewable.viewed held → RoomFor (R.Viewable.viewed held) self.old.certified_notarizations) → Turned self.old self.new (certified_at (length_of self.old) held (values self.old)) }
    {
        if held.view() <= self.last_finalized() {
            return;
        }
        self.certified_notarizations.insert(held);
    }

    /// Marks a view above the finalized one as failed.
    #[tactic(auto, unfolding(crate::specs::Steps::failed_at))]
    pub(crate) fn mark_failed(&mut self, view: View)
        ensures { (finalized (values self.old) < view → RoomFor view self.old.uncertifiable_notarizations) → Turned self.old self.new (failed_at (length_of self.old) view (values self.old)) }
    {
        if view <= self.last_finalized() {
            return;
        }
        self.uncertifiable_notarizations.insert(Mark { view });
    }
}
