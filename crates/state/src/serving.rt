ghost use Rattle.std.specs.Prelude.{◌≡◌, is_some};
ghost use Rattle.state.specs.Serving.{finalization_for, floor_for, served as serves, copied};
ghost use Rattle.state.specs.States.{held, term};

use crate::State;
use cover::covering;
use views::{View, Viewable};

impl<'a, R: Copy + Viewable> State<'a, R> {
    /// The kept finalization, for a view that it settles.
    fn finalization_for(&self, view: View) -> Option<R>
        ensures { result ≡ finalization_for (term self.now) view (held self.now) }
    {
        self.store
            .finalization
            .peek()
            .filter(|finalization| view <= finalization.view())
            .copied()
    }

    /// What passed at the floor, for a view that is not above it.
    fn floor_for(&self, view: View) -> Option<R>
        ensures { result ≡ floor_for (term self.now) view (held self.now) }
    {
        if view <= self.store.floor {
            self.store.certified_notarizations.get(self.store.floor)
        } else {
            None
        }
    }

    /// The best record for a view: finality first, then a certified notarization, as whoever proposes would choose.
    #[tactic(auto, unfolding(crate::specs::Serving::served))]
    fn served(&self, view: View) -> Option<R>
        ensures { result ≡ serves (term self.now) view (held self.now) }
    {
        if let Some(finalization) = self.finalization_for(view) {
            return Some(finalization);
        }
        if let Some(notarization) = self.store.certified_notarizations.get(view) {
            return Some(notarization);
        }
        if let Some(nullification) = covering(
            &self.store.nullifications,
            self.store.term_length,
            view,
        ) {
            return Some(nullification);
        }
        self.floor_for(view)
    }

    /// Copies the record that is served for `view` into `place`. Where none is, the place stays as it was.
    pub fn produce(&self, view: View, place: &mut R) -> bool
        ensures found { result ≡ is_some (serves (term self.now) view (held self.now)) }
        ensures copied { place.new ≡ copied (serves (term self.now) view (held self.now)) place.old }
    {
        let Some(record) = self.served(view) else {
            return false;
        };
        *place = record;
        true
    }
}
