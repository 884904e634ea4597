ghost use Rattle.std.specs.Prelude.{◌≡◌};
ghost use Rattle.board.specs.Left.{shown};
ghost use Rattle.row_board.specs.Boards.{open_asks};
ghost use Rattle.state.specs.States.{held, term};
ghost use Rattle.driven.specs.Members.{Sound, asks_of, kept_as, values_of};

use crate::Member;
use asked::write;
use hosted::keep as keep_state;
use kept::Kept;
use row_board::RowBoard;
use state::State;

/// Writes what a state and a board hold into the memory of a member. It says the same then, and is sound.
pub fn keep(state: &State<Kept>, board: &RowBoard, member: &mut Member)
    ensures value { member.new ≡ kept_as (held state.now) (shown (open_asks board.now)) member.old }
    ensures values { values_of member.new ≡ held state.now }
    ensures asks { asks_of member.new ≡ shown (open_asks board.now) }
    ensures sound { Sound member.old → term state.now ≡ member.old.head.term_length → Sound member.new }
{
    keep_state(state, &mut member.head, &mut member.rows);
    let count = board.len();
    let written = write(board, member.asks.as_mut_slice());
    member.head.ask_count = written.min(count) as u32;
}
