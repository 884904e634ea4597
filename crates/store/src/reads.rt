ghost use Rattle.std.specs.Prelude.{◌≡◌, length};
ghost use Rattle.slot.specs.Slots.{places};
ghost use Rattle.table.specs.Tables.{capacity};
ghost use Rattle.terms.specs.Terms.{views as views_of};
ghost use Rattle.store.specs.Values.{values, finalized};
ghost use Rattle.store.specs.Ready.{Turned};
ghost use Rattle.store.specs.Steps.{is_bare};
ghost use Rattle.store.specs.Fresh.{fresh};

use crate::{Memory, Store};
use cover::covering;
use slot::Slot;
use table::Table;
use terms::TermLength;
use views::{View, Viewable};

impl<'a, R: Copy + Viewable> Store<'a, R> {
    /// Nothing recorded, at the start of a replay.
    #[tactic(auto, unfolding(crate::specs::Fresh::fresh))]
    pub fn new(term_length: TermLength, epoch: u64, memory: Memory<'a, R>) -> Store<'a, R>
        ensures values { values result ≡ fresh }
        ensures fixed { (result.term_length ≡ term_length) × (result.epoch ≡ epoch) }
        ensures finalization { places result.finalization ≡ length memory.entry.finalization.now }
        ensures nullifications { capacity result.nullifications ≡ length memory.entry.nullifications.now }
        ensures pending { capacity result.pending_notarizations ≡ length memory.entry.pending_notarizations.now }
        ensures certified { capacity result.certified_notarizations ≡ length memory.entry.certified_notarizations.now }
        ensures failed { capacity result.uncertifiable_notarizations ≡ length memory.entry.uncertifiable_notarizations.now }
    {
        let Memory {
            finalization,
            nullifications,
            pending_notarizations,
            certified_notarizations,
            uncertifiable_notarizations,
        } = memory;
        Store {
            term_length,
            epoch,
            current_view: 0,
            floor: 0,
            cursor: 0,
            replaying: true,
            finalization: Slot::new(finalization),
            nullifications: Table::new(nullifications),
            pending_notarizations: Table::new(pending_notarizations),
            certified_notarizations: Table::new(certified_notarizations),
            uncertifiable_notarizations: Table::new(uncertifiable_notarizations),
        }
    }

    /// Takes off all that was recorded: it is at the start of a replay again.
    #[tactic(auto, unfolding(crate::specs::Fresh::fresh))]
    pub fn clear(&mut self)
        ensures { Turned self.old self.new fresh }
    {
        self.current_view = 0;
        self.floor = 0;
        self.cursor = 0;
        self.replaying = true;
        self.finalization.clear();
        self.nullifications.clear();
        self.pending_notarizations.clear();
        self.certified_notarizations.clear();
        self.uncertifiable_notarizations.clear();
    }

    /// The highest finalized view, or 0 if none is known.
    pub fn last_finalized(&self) -> View
        ensures { result ≡ finalized (values self.now) }
    {
        self.finalization.peek().map_or(0, |held| held.view())
    }

    /// Whether `view` still needs a nullification: it is above the floor, and none covers it.
    pub fn needs_nullification(&self, view: View) -> bool
        ensures { result ≡ is_bare (views_of self.now.term_length) (values self.now) view }
    {
        view > self.floor && covering(&self.nullifications, self.term_length, view).is_none()
    }
}
