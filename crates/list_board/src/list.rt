ghost use Rattle.std.specs.Prelude.{◌≡◌, ◌≤◌, true, length, take};
ghost use Rattle.board.specs.Boards.{backgrounds, ancestries};
ghost use Rattle.board.specs.Sorting.{distinct};

use board::Open;

/// The open asks, one after the other, in a list that the host lends.
#[derive(Drop)]
pub struct ListBoard<'a> {
    pub(crate) list: &'a mut [Open],
    pub(crate) len: usize,
    ghost fits: { len ≤ length list.now },
    ghost enough: { 320 ≤ length list.now },
    ghost apart: { distinct (take len list.now) ≡ true },
    ghost background_few: { length (backgrounds (take len list.now)) ≤ 256 },
    ghost ancestry_few: { length (ancestries (take len list.now)) ≤ 64 },
}
