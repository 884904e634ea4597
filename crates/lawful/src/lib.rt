//! Whether a store has places enough, and holds what calls of a member may leave.
#![tactic(auto)]

ghost use Rattle.std.specs.Prelude.{◌≡◌, ℕ, ◌^◌, ◌<◌, ◌≤◌, true, Decides};
ghost use Rattle.store.specs.Ready.{length_of, Roomy};
ghost use Rattle.store.specs.Values.{values, finalized, is_nullified};
ghost use Rattle.table.specs.Rows.{holds};
ghost use Rattle.table.specs.Tables.{entries};
ghost use Rattle.terms.specs.Terms.{end};
ghost use Rattle.lawful.specs.Lawful.{Few, Lawful, Planned, Sound};

use planning::{exceeds, landing};
use store::Store;
use table::Table;
use terms::LAST_VIEW;
use views::{View, Viewable};

/// How many rows a table may hold, and how many places it must have.
pub const ROWS: usize = 128;

/// How many gaps may stand after replay.
pub const GAPS: usize = 128;

/// Whether each table has places enough, and there is one for a finalization.
pub fn is_roomy<R: Copy + Viewable>(store: &Store<R>) -> bool
    ensures { Decides result (Roomy store.now) }
{
    store.finalization.places() > 0
        && store.nullifications.capacity() >= ROWS
        && store.pending_notarizations.capacity() >= ROWS
        && store.certified_notarizations.capacity() >= ROWS
        && store.uncertifiable_notarizations.capacity() >= ROWS
}

/// Whether no table has more rows than it may.
fn are_few<R: Copy + Viewable>(store: &Store<R>) -> bool
    ensures { Decides result (Few (values store.now)) }
{
    store.nullifications.len() <= ROWS
        && store.pending_notarizations.len() <= ROWS
        && store.certified_notarizations.len() <= ROWS
        && store.uncertifiable_notarizations.len() <= ROWS
}

/// Whether every row of a table is above `view`.
fn are_above<X: Copy + Viewable>(table: &Table<X>, view: View) -> bool
    ensures { Decides result ((u : ℕ) → holds X.Viewable.viewed u (entries table.now) ≡ true → view < u) }
{
    table.last_to(view).is_none()
}

/// Whether the term of every nullification ends above the finalized view. A term ends there exactly if it is not below
/// the term of the view after that.
fn are_open<R: Copy + Viewable>(store: &Store<R>) -> bool
    requires { finalized (values store.now) ≤ 2 ^ 62 }
    ensures { Decides result ((u : ℕ) → is_nullified u (values store.now) ≡ true → finalized (values store.now) < end (length_of store.now) u) }
{
    let first = store.term_length.term_start(store.last_finalized() + 1);
    are_above(&store.nullifications, first - 1)
}

/// Whether nothing is kept that finalization has ruled out, and nothing is too long or too high.
fn is_sound<R: Copy + Viewable>(store: &Store<R>) -> bool
    ensures { Decides result (Sound (length_of store.now) (values store.now)) }
{
    let finalized = store.last_finalized();
    finalized <= store.floor
        && store.floor <= LAST_VIEW
        && store.current_view <= LAST_VIEW
        && are_few(store)
        && are_open(store)
        && are_above(&store.pending_notarizations, finalized)
        && are_above(&store.certified_notarizations, finalized)
        && are_above(&store.uncertifiable_notarizations, finalized)
}

/// Whether planning has come to each gap, and there are no more than may be.
fn is_planned<R: Copy + Viewable>(store: &Store<R>) -> bool
    requires floor { store.now.floor ≤ 2 ^ 62 }
    requires current { store.now.current_view ≤ 2 ^ 62 }
    ensures { Decides result (Planned (length_of store.now) (values store.now)) }
{
    if store.replaying {
        return store.cursor == 0;
    }
    let low = store.floor + 1;
    let current = store.current_view;
    let lands = landing(store.term_length, low, current).unwrap();
    store.cursor == lands
        && !exceeds(&store.nullifications, store.term_length, low, current, GAPS).unwrap()
}

/// Whether a store holds what calls of a member may leave.
pub fn is_lawful<R: Copy + Viewable>(store: &Store<R>) -> bool
    ensures { Decides result (Lawful (length_of store.now) (values store.now)) }
{
    is_sound(store) && is_planned(store)
}
