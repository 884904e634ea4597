ghost use Rattle.std.specs.Prelude.{◌≡◌, false, take, Decides, MatchBool};
ghost use Rattle.kept.specs.Keeping.{view_in};
ghost use Rattle.state.specs.States.{held, term, epoch_of, fits as suits};
ghost use Rattle.store.specs.Ready.{length_of, Roomy};
ghost use Rattle.store.specs.Values.{mark_view, values};
ghost use Rattle.table.specs.Rows.{Resumable};
ghost use Rattle.table.specs.Tables.{entries, capacity};
ghost use Rattle.hosted.specs.Members.{Rowed, Sound, values_in};

use crate::{Head, Rows};
use kept::Kept;
use slot::Slot;
use state::{ROWS, State};
use store::{Memory, Store};
use table::{Mark, Table};
use terms::TermLength;

/// Whether the numbers of a member are not too high for what they count, and the views of its rows rise.
fn is_rowed(head: &Head, rows: &Rows) -> bool
    ensures { Decides result (Rowed head.now rows.now) }
{
    head.term_length > 0
        && head.replaying <= 1
        && head.finalization_count <= 1
        && Table::resumes(&rows.nullifications, head.nullification_count as usize)
        && Table::resumes(&rows.certified, head.certified_count as usize)
        && Table::resumes(&rows.pending, head.pending_count as usize)
        && Table::resumes(&rows.failed, head.failed_count as usize)
}

/// The table of the first records.
fn records(rows: &mut [Kept; ROWS], len: u32) -> Table<'_, Kept>
    requires { Resumable view_in len rows.old }
    ensures rows { entries result ≡ take len rows.old }
    ensures cap { capacity result ≡ 128 }
{
    Table::resume(rows.as_mut_slice(), len as usize).unwrap()
}

/// The table of the first marks.
fn marks(rows: &mut [Mark; ROWS], len: u32) -> Table<'_, Mark>
    requires { Resumable mark_view len rows.old }
    ensures rows { entries result ≡ take len rows.old }
    ensures cap { capacity result ≡ 128 }
{
    Table::resume(rows.as_mut_slice(), len as usize).unwrap()
}

/// The store that numbers and rows hold.
fn store<'a>(head: &Head, rows: &'a mut Rows) -> Store<'a, Kept>
    requires { Rowed head.now rows.old }
    ensures values { values result ≡ values_in head.now rows.old }
    ensures fixed { (length_of result ≡ head.now.term_length) × (result.epoch ≡ head.now.epoch) }
    ensures roomy { Roomy result }
{
    Store {
        term_length: TermLength::new(head.term_length).unwrap(),
        epoch: head.epoch,
        current_view: head.current_view,
        floor: head.floor,
        cursor: head.cursor,
        replaying: head.replaying == 1,
        finalization: Slot::resume(
            rows.finalization.as_mut_slice(),
            head.finalization_count == 1,
        ),
        nullifications: records(&mut rows.nullifications, head.nullification_count),
        pending_notarizations: marks(&mut rows.pending, head.pending_count),
        certified_notarizations: records(&mut rows.certified, head.certified_count),
        uncertifiable_notarizations: marks(&mut rows.failed, head.failed_count),
    }
}

/// A state with no places, which refuses every change.
fn unfit(rows: &mut Rows) -> State<'_, Kept>
    ensures { suits result ≡ false }
{
    let finalization = rows.finalization.as_mut_slice();
    let nullifications = rows.nullifications.as_mut_slice();
    let pending = rows.pending.as_mut_slice();
    let certified = rows.certified.as_mut_slice();
    let failed = rows.failed.as_mut_slice();
    let memory = Memory {
        finalization: &mut finalization[..0],
        nullifications: &mut nullifications[..0],
        pending_notarizations: &mut pending[..0],
        certified_notarizations: &mut certified[..0],
        uncertifiable_notarizations: &mut failed[..0],
    };
    State::new(TermLength::new(1).unwrap(), 0, memory)
}

/// The state that numbers and rows hold, exactly if they are what calls leave. Else it refuses every change.
pub fn open<'a>(head: &Head, rows: &'a mut Rows) -> State<'a, Kept>
    ensures { MatchBool (suits result) (Sound head.now rows.old × (held result ≡ values_in head.now rows.old) × (term result ≡ head.now.term_length) × (epoch_of result ≡ head.now.epoch)) (Sound head.now rows.old → ⊥) }
{
    if is_rowed(head, rows) {
        State::resume(store(head, rows))
    } else {
        unfit(rows)
    }
}
