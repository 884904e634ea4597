ghost use Rattle.std.specs.Prelude.{◌≡◌, ◌||◌};
ghost use Rattle.effects.specs.declared.effect.Kind.TheVariants.{Notarization as Wanted};
ghost use Rattle.store.specs.Values.{has_failed};
ghost use Rattle.state.specs.Settled.{answered as answers, settled as settles, key_settled};
ghost use Rattle.state.specs.States.{held, term};

use crate::State;
use cover::covering;
use effects::Kind;
use views::{View, Viewable};

impl<'a, R: Copy + Viewable> State<'a, R> {
    /// Whether a notarization at `view` was recorded, or a verdict on it.
    fn notarized(&self, view: View) -> bool
        ensures { result ≡ answers (term self.now) Wanted view (held self.now) }
    {
        self.store.pending_notarizations.contains(view)
            || self.store.certified_notarizations.contains(view)
            || self.store.uncertifiable_notarizations.contains(view)
    }

    /// Whether what is asked for was recorded above the finalized view.
    fn answered(&self, view: View, kind: Kind) -> bool
        ensures { result ≡ answers (term self.now) kind view (held self.now) }
    {
        match kind {
            Kind::Nullification => {
                covering(&self.store.nullifications, self.store.term_length, view).is_some()
            }
            Kind::Notarization => self.notarized(view),
        }
    }

    /// Whether an ask for `kind` at `view` is settled: nothing is left to fetch.
    #[tactic(auto, unfolding(crate::specs::Settled::settled))]
    pub fn settled(&self, view: View, kind: Kind) -> bool
        ensures { result ≡ settles (term self.now) kind view (held self.now) }
    {
        view <= self.store.last_finalized() || self.answered(view, kind)
    }

    /// Whether every ask at `view` is settled.
    pub fn key_settled(&self, view: View) -> bool
        ensures { result ≡ key_settled (term self.now) view (held self.now) }
    {
        self.settled(view, Kind::Nullification) && self.settled(view, Kind::Notarization)
    }

    /// Whether the notarization at `view` failed.
    pub fn uncertifiable(&self, view: View) -> bool
        ensures { result ≡ has_failed view (held self.now) }
    {
        self.store.uncertifiable_notarizations.contains(view)
    }
}
