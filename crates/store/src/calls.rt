ghost use Rattle.std.specs.Prelude.{◌+◌, ◌^◌, ◌≤◌, true, false, ◌++◌, map, length};
ghost use Rattle.effects.specs.Lists.{Added};
ghost use Rattle.store.specs.Values.{values, finalized};
ghost use Rattle.store.specs.Ready.{length_of, Roomy, Low, Turned, HasRoom};
ghost use Rattle.store.specs.Room.{Room, VerdictRoom};
ghost use Rattle.store.specs.Steps.{finalization_taken, finalization_effects, taken, taken_effects, planned, planned_effects, before_planning, updated, updated_effects, raised_effects, passing, passed, failing, failing_effects, bare_effects, failed_bare, failed_fetch, certified, certified_effects, replayed, replayed_effects};

use crate::Store;
use effects::{Effect, Effects, FetchReason, Kind};
use record::Kind as Certificate;
use views::{View, Viewable};

impl<'a, R: Copy + Viewable> Store<'a, R> {
    /// Records a finalization.
    #[tactic(auto, unfolding(crate::specs::Steps::finalization_taken, crate::specs::Steps::finalization_effects, crate::specs::Steps::raised_effects, crate::specs::Steps::pruned, crate::specs::Steps::finalized_at))]
    fn finalize(&mut self, held: R, effects: &mut Effects)
        ensures turned { Roomy self.old → finalized (values self.old) ≤ 2 ^ 62 → R.Viewable.viewed held ≤ 2 ^ 62 → Turned self.old self.new (finalization_taken (length_of self.old) held (values self.old)) }
        ensures added { Roomy self.old → finalized (values self.old) ≤ 2 ^ 62 → R.Viewable.viewed held ≤ 2 ^ 62 → HasRoom 2 effects.old → Added (finalization_effects (length_of self.old) held (values self.old)) effects.old effects.new }
    {
        let view = held.view();
        self.keep_finalization(held);
        self.retire();
        effects.push(Effect::Finalized(self.last_finalized()));
        self.raise(view, effects);
    }

    /// Records a certificate of any kind.
    fn take(&mut self, kind: Certificate, held: R, effects: &mut Effects)
        ensures turned { Roomy self.old → finalized (values self.old) ≤ 2 ^ 62 → R.Viewable.viewed held ≤ 2 ^ 62 → Room (length_of self.old) kind (R.Viewable.viewed held) (values self.old) → Turned self.old self.new (taken (length_of self.old) kind held (values self.old)) }
        ensures added { Roomy self.old → finalized (values self.old) ≤ 2 ^ 62 → R.Viewable.viewed held ≤ 2 ^ 62 → HasRoom 2 effects.old → Added (taken_effects (length_of self.old) kind held (values self.old)) effects.old effects.new }
    {
        match kind {
            Certificate::Nullification => self.nullify(held, effects),
            Certificate::Notarization => self.notarize(held.view(), effects),
            Certificate::Finalization => self.finalize(held, effects),
        }
    }

    /// Fetches the gaps that no plan has come to yet, and moves the cursor past them. Nothing is planned in replay.
    #[tactic(auto, unfolding(crate::specs::Steps::planned, crate::specs::Steps::planned_effects))]
    fn fetch_missing(&mut self, cause: View, effects: &mut Effects)
        ensures turned { Low (values self.old) → Turned self.old self.new (planned (length_of self.old) (values self.old)) }
        ensures added { Low (values self.old) → HasRoom (length (planned_effects (length_of self.old) cause (values self.old))) effects.old → Added (planned_effects (length_of self.old) cause (values self.old)) effects.old effects.new }
    {
        if self.replaying {
            return;
        }
        let low = self.cursor.max(self.floor.saturating_add(1));
        let Ok(anchor) = planning::fetch_missing(
            &self.nullifications,
            self.term_length,
            low,
            self.current_view,
            cause,
            effects,
        ) else {
            return;
        };
        self.cursor = anchor;
    }

    /// Records evidence: a certificate that a peer sent or that this member made.
    pub fn updated(&mut self, kind: Certificate, held: R, effects: &mut Effects)
        ensures turned { Roomy self.old → finalized (values self.old) ≤ 2 ^ 62 → Low (values self.old) → R.Viewable.viewed held ≤ 2 ^ 62 → Room (length_of self.old) kind (R.Viewable.viewed held) (values self.old) → Turned self.old self.new (updated (length_of self.old) kind held (values self.old)) }
        ensures added { Roomy self.old → finalized (values self.old) ≤ 2 ^ 62 → Low (values self.old) → R.Viewable.viewed held ≤ 2 ^ 62 → Room (length_of self.old) kind (R.Viewable.viewed held) (values self.old) → HasRoom (2 + length (planned_effects (length_of self.old) (R.Viewable.viewed held) (before_planning (length_of self.old) kind held (values self.old)))) effects.old → Added (updated_effects (length_of self.old) kind held (values self.old)) effects.old effects.new }
    {
        let view = held.view();
        self.current_view = self.current_view.max(view);
        self.take(kind, held, effects);
        self.fetch_missing(view, effects);
    }
}

impl<'a, R: Copy + Viewable> Store<'a, R> {
    /// Records a pass: the notarization can be built on, so the floor rises to it.
    fn pass(&mut self, held: R, effects: &mut Effects)
        ensures turned { Roomy self.old → Low (values self.old) → R.Viewable.viewed held ≤ 2 ^ 62 → VerdictRoom (length_of self.old) true (R.Viewable.viewed held) (values self.old) → Turned self.old self.new (planned (length_of self.old) (passing (length_of self.old) held (values self.old))) }
        ensures added { Roomy self.old → Low (values self.old) → R.Viewable.viewed held ≤ 2 ^ 62 → VerdictRoom (length_of self.old) true (R.Viewable.viewed held) (values self.old) → HasRoom (1 + length (planned_effects (length_of self.old) (R.Viewable.viewed held) (passing (length_of self.old) held (values self.old)))) effects.old → Added (raised_effects (length_of self.old) (R.Viewable.viewed held) (values self.old) ++ planned_effects (length_of self.old) (R.Viewable.viewed held) (passing (length_of self.old) held (values self.old))) effects.old effects.new }
    {
        let view = held.view();
        self.keep_certified(held);
        self.raise(view, effects);
        self.fetch_missing(view, effects);
    }

    /// Fetches a failed view, if it still needs a nullification.
    fn fetch_bare(&self, view: View, effects: &mut Effects)
        ensures { HasRoom (length (bare_effects (length_of self.now) view (values self.now))) effects.old → Added (bare_effects (length_of self.now) view (values self.now)) effects.old effects.new }
    {
        if self.needs_nullification(view) {
            effects.push(Effect::Fetch {
                view,
                cause: view,
                reason: FetchReason::CertificationFailed,
            });
        }
    }

    /// Records a failure: no copy of the notarization can pass anywhere, so none is served or asked for again.
    #[tactic(auto, unfolding(crate::specs::Steps::failing, crate::specs::Steps::failing_effects, crate::specs::Steps::failed_at))]
    fn fail(&mut self, view: View, effects: &mut Effects)
        ensures turned { Roomy self.old → VerdictRoom (length_of self.old) false view (values self.old) → Turned self.old self.new (failing (length_of self.old) view (values self.old)) }
        ensures added { Roomy self.old → VerdictRoom (length_of self.old) false view (values self.old) → HasRoom 1 effects.old → Added (failing_effects (length_of self.old) view (values self.old)) effects.old effects.new }
    {
        self.certified_notarizations.remove(view);
        self.mark_failed(view);
        if self.replaying {
            return;
        }
        self.fetch_bare(view, effects);
    }

    /// Records a verdict on a notarization, which may come before or after the notarization itself.
    pub fn certified(&mut self, held: R, success: bool, effects: &mut Effects)
        ensures turned { Roomy self.old → Low (values self.old) → R.Viewable.viewed held ≤ 2 ^ 62 → VerdictRoom (length_of self.old) success (R.Viewable.viewed held) (values self.old) → Turned self.old self.new (certified (length_of self.old) success held (values self.old)) }
        ensures added { Roomy self.old → Low (values self.old) → R.Viewable.viewed held ≤ 2 ^ 62 → VerdictRoom (length_of self.old) success (R.Viewable.viewed held) (values self.old) → HasRoom (2 + length (planned_effects (length_of self.old) (R.Viewable.viewed held) (passed (length_of self.old) held (values self.old)))) effects.old → Added (certified_effects (length_of self.old) success held (values self.old)) effects.old effects.new }
    {
        let view = held.view();
        self.pending_notarizations.remove(view);
        effects.push(Effect::Settled {
            kind: Kind::Notarization,
            start: view,
            end: view,
        });
        if success {
            self.pass(held, effects);
        } else {
            self.fail(view, effects);
        }
    }

    /// Fetches each failed view that still needs a nullification, in ascending order.
    #[tactic(auto, unfolding(crate::specs::Steps::failed_bare))]
    fn fetch_failed(&self, effects: &mut Effects)
        ensures { HasRoom (length (failed_bare (length_of self.now) (values self.now))) effects.old → Added (map failed_fetch (failed_bare (length_of self.now) (values self.now))) effects.old effects.new }
    {
        for mark in self.uncertifiable_notarizations.as_slice() {
            self.fetch_bare(mark.view, effects);
        }
    }

    /// Ends the replay, and plans what was put off until now.
    #[tactic(auto, unfolding(crate::specs::Steps::planned))]
    pub fn replayed(&mut self, effects: &mut Effects)
        ensures turned { Low (values self.old) → Turned self.old self.new (replayed (length_of self.old) (values self.old)) }
        ensures added { Low (values self.old) → HasRoom (length (replayed_effects (length_of self.old) (values self.old))) effects.old → Added (replayed_effects (length_of self.old) (values self.old)) effects.old effects.new }
    {
        self.replaying = false;
        self.fetch_missing(self.current_view, effects);
        self.fetch_failed(effects);
    }
}
