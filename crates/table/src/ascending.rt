ghost use Rattle.std.specs.Prelude.{Decides};
ghost use Rattle.table.specs.Rows.{Ascending};

use views::Viewable;

/// Whether the views of rows rise.
pub(crate) fn rises<R: Copy + Viewable>(rows: &[R]) -> bool
    ensures { Decides result (Ascending R.Viewable.viewed rows.now) }
{
    for i in 1..rows.len() {
        if rows[i - 1].view() >= rows[i].view() {
            return false;
        }
    }
    true
}
