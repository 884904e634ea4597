ghost use Rattle.std.specs.Prelude.{◌≡◌, ◌+◌, ◌-◌, ◌<◌, ◌≤◌, length};
ghost use Rattle.std.specs.List.{copy_within};

/// Moves the rows from `from` up to `to` up by one place. (One assignment a row: the library's copy goes by way of a
/// local.)
#[inline(always)]
pub(crate) fn move_up<R: Copy>(rows: &mut [R], from: usize, to: usize)
    requires order { from ≤ to }
    requires high { to < length rows.old }
    ensures after { rows.new ≡ copy_within rows.old from to (from + 1) }
    ensures len { length rows.new ≡ length rows.old }
{
    for i in (from..to).rev() {
        rows[i + 1] = rows[i];
    }
}

/// Moves the rows from `from` up to `to` down by `by` places.
#[inline(always)]
pub(crate) fn move_down<R: Copy>(rows: &mut [R], from: usize, to: usize, by: usize)
    requires low { by ≤ from }
    requires order { from ≤ to }
    requires high { to ≤ length rows.old }
    ensures after { rows.new ≡ copy_within rows.old from to (from - by) }
    ensures len { length rows.new ≡ length rows.old }
{
    if by != 0 {
        for i in from..to {
            rows[i - by] = rows[i];
        }
    }
}
