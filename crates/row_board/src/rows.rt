ghost use Rattle.std.specs.Prelude.{◌≡◌, ◌≤◌, true, length, take};
ghost use Rattle.board.specs.Boards.{backgrounds, ancestries};
ghost use Rattle.row_board.specs.Entries.{views_apart, none_bare, asks_of};

use crate::Row;

/// The open asks, a row for each view, in memory that the host lends.
#[derive(Drop)]
pub struct RowBoard<'a> {
    pub(crate) rows: &'a mut [Row],
    pub(crate) len: usize,
    ghost fits: { len ≤ length rows.now },
    ghost enough: { 320 ≤ length rows.now },
    ghost apart: { views_apart (take len rows.now) ≡ true },
    ghost filled: { none_bare (take len rows.now) ≡ true },
    ghost background_few: { length (backgrounds (asks_of (take len rows.now))) ≤ 256 },
    ghost ancestry_few: { length (ancestries (asks_of (take len rows.now))) ≤ 64 },
}
