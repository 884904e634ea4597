ghost use Rattle.std.specs.Prelude.{◌≡◌, ◌≤◌, length};
ghost use Rattle.state.specs.States.{held, term};
ghost use Rattle.hosted.specs.Keeping.{head_of, if_some, over, rows_of};
ghost use Rattle.hosted.specs.Members.{Sound, values_in};

use crate::{Head, Rows};
use kept::Kept;
use state::{ROWS, State};
use table::Mark;

/// Copies records to the front of their places.
fn put_records(rows: &[Kept], places: &mut [Kept; ROWS])
    requires { length rows.now ≤ 128 }
    ensures { places.new ≡ over rows.now places.old }
{
    places[..rows.len()].copy_from_slice(rows);
}

/// Copies marks to the front of their places.
fn put_marks(rows: &[Mark], places: &mut [Mark; ROWS])
    requires { length rows.now ≤ 128 }
    ensures { places.new ≡ over rows.now places.old }
{
    places[..rows.len()].copy_from_slice(rows);
}

/// Copies the finalization into its place.
fn put_finalization(finalization: Option<Kept>, place: &mut [Kept; 1])
    ensures { place.new ≡ if_some finalization place.old }
{
    if let Some(finalization) = finalization {
        *place = [finalization];
    }
}

/// Writes what a state holds into the numbers of a member.
fn keep_head(state: &State<Kept>, head: &mut Head)
    ensures { head.new ≡ head_of (held state.now) head.old }
{
    head.replaying = u32::from(state.is_replaying());
    head.current_view = state.current_view();
    head.floor = state.floor();
    head.cursor = state.cursor();
    head.finalization_count = u32::from(state.finalization().is_some());
    head.nullification_count = state.nullifications().len() as u32;
    head.pending_count = state.pending_notarizations().len() as u32;
    head.certified_count = state.certified_notarizations().len() as u32;
    head.failed_count = state.uncertifiable_notarizations().len() as u32;
}

/// Writes what a state holds into the rows of a member. Places past them stay as they were.
fn keep_rows(state: &State<Kept>, rows: &mut Rows)
    ensures { rows.new ≡ rows_of (held state.now) rows.old }
{
    put_finalization(state.finalization(), &mut rows.finalization);
    put_records(state.nullifications(), &mut rows.nullifications);
    put_records(state.certified_notarizations(), &mut rows.certified);
    put_marks(state.pending_notarizations(), &mut rows.pending);
    put_marks(state.uncertifiable_notarizations(), &mut rows.failed);
}

/// Writes what a state holds into a member. It says the same then, and is sound.
pub fn keep(state: &State<Kept>, head: &mut Head, rows: &mut Rows)
    ensures head { head.new ≡ head_of (held state.now) head.old }
    ensures rows { rows.new ≡ rows_of (held state.now) rows.old }
    ensures values { values_in head.new rows.new ≡ held state.now }
    ensures sound { term state.now ≡ head.old.term_length → Sound head.new rows.new }
{
    keep_head(state, head);
    keep_rows(state, rows);
}
