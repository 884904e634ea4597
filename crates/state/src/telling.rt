ghost use Rattle.std.specs.Prelude.{◌≡◌};
ghost use Rattle.store.specs.Values.{mark_view, finalized};
ghost use Rattle.table.specs.Rows.{Ascending};
ghost use Rattle.terms.specs.Terms.{views as views_of};
ghost use Rattle.state.specs.States.{held, term, epoch_of, fits as suits};

use crate::State;
use table::Mark;
use terms::TermLength;
use views::{View, Viewable};

impl<'a, R: Copy + Viewable> State<'a, R> {
    /// How many views a term has.
    pub fn term_length(&self) -> TermLength
        ensures { views_of result ≡ term self.now }
    {
        self.store.term_length
    }

    /// The epoch of the certificates.
    pub fn epoch(&self) -> u64
        ensures { result ≡ epoch_of self.now }
    {
        self.store.epoch
    }

    /// Whether the host lent enough places.
    pub fn is_fit(&self) -> bool
        ensures { result ≡ suits self.now }
    {
        self.fit
    }

    /// The view of the highest finalization or passed notarization.
    pub fn floor(&self) -> View
        ensures { result ≡ (held self.now).floor }
    {
        self.store.floor
    }

    /// The highest view of any evidence.
    pub fn current_view(&self) -> View
        ensures { result ≡ (held self.now).current }
    {
        self.store.current_view
    }

    /// The lowest anchor that planning has still to look at.
    pub fn cursor(&self) -> View
        ensures { result ≡ (held self.now).cursor }
    {
        self.store.cursor
    }

    /// The highest finalization, if one is known.
    pub fn finalization(&self) -> Option<R>
        ensures { result ≡ (held self.now).finalization }
    {
        self.store.finalization.get()
    }

    /// The highest finalized view, or 0 if none is known.
    pub fn last_finalized(&self) -> View
        ensures { result ≡ finalized (held self.now) }
    {
        self.store.last_finalized()
    }

    /// Whether the journal is still being replayed.
    pub fn is_replaying(&self) -> bool
        ensures { result ≡ (held self.now).replaying }
    {
        self.store.replaying
    }

    /// The nullifications, in ascending order of their views.
    pub fn nullifications(&self) -> &[R]
        ensures rows { result.now ≡ (held self.now).nullifications }
        ensures rises { Ascending R.Viewable.viewed result.now }
    {
        self.store.nullifications.as_slice()
    }

    /// The views whose notarization waits for a verdict, in ascending order.
    pub fn pending_notarizations(&self) -> &[Mark]
        ensures rows { result.now ≡ (held self.now).pending }
        ensures rises { Ascending mark_view result.now }
    {
        self.store.pending_notarizations.as_slice()
    }

    /// The notarizations that passed, in ascending order of their views.
    pub fn certified_notarizations(&self) -> &[R]
        ensures rows { result.now ≡ (held self.now).certified }
        ensures rises { Ascending R.Viewable.viewed result.now }
    {
        self.store.certified_notarizations.as_slice()
    }

    /// The views whose notarization failed, in ascending order.
    pub fn uncertifiable_notarizations(&self) -> &[Mark]
        ensures rows { result.now ≡ (held self.now).failed }
        ensures rises { Ascending mark_view result.now }
    {
        self.store.uncertifiable_notarizations.as_slice()
    }
}
