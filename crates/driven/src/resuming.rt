ghost use Rattle.std.specs.Prelude.{◌≡◌, ◌≤◌, true, is_some, [], take, MatchBool};
ghost use Rattle.asked.specs.Lists.{asks_in};
ghost use Rattle.row_board.specs.Boards.{open_asks};
ghost use Rattle.verifier.specs.Seats.{allowed};
ghost use Rattle.driven.specs.Members.{Sound, asks_of};
ghost use Rattle.driven.specs.Resuming.{ResumedAs};

use crate::Member;
use asked::fill;
use board::{Lent, PLACES};
use hosted::{Head, open};
use kept::Kept;
use resolver::Resolver;
use row_board::{Row, RowBoard};
use verifier::SeatVerifier;

/// A member in the making of a call.
#[derive(Drop)]
pub struct Driven<'a> {
    pub resolver: Resolver<'a, Kept>,
    pub board: RowBoard<'a>,
    /// Whether the memory was sound. Else the rest means nothing.
    pub sound: bool,
}

/// Whether so many seats have such a quorum.
fn seats_allowed(seats: u32, quorum: u32) -> bool
    ensures { result ≡ allowed seats quorum }
{
    SeatVerifier::new(u64::from(seats), u64::from(quorum)).is_ok()
}

/// Opens the asks of a member, exactly if there can be such.
fn fill_asks(member: &Member, board: &mut RowBoard) -> bool
    requires { open_asks board.old ≡ [] }
    ensures { MatchBool result ((member.now.head.ask_count ≤ 320) × (is_some (asks_in (take member.now.head.ask_count member.now.asks)) ≡ true) × (open_asks board.new ≡ asks_of member.now)) ((member.now.head.ask_count ≤ 320) → is_some (asks_in (take member.now.head.ask_count member.now.asks)) ≡ true → ⊥) }
{
    let count = member.head.ask_count as usize;
    count <= member.asks.len() && fill(&member.asks[..count], board)
}

/// The member that memory holds, in places that are free; it is sound exactly if the memory is what calls leave.
#[tactic(auto, unfolding(board::specs::Sorting::sorted))]
pub fn resume<'a>(member: &'a mut Member, places: &'a mut [Row; PLACES]) -> Driven<'a>
    ensures { MatchBool result.sound (ResumedAs member.entry.now result) (Sound member.entry.now → ⊥) }
{
    let mut board = RowBoard::new(Lent::test(places.as_mut_slice()).unwrap());
    let filled = fill_asks(member, &mut board);
    let Head { seats, quorum, .. } = member.head;
    let allowed = seats_allowed(seats, quorum);
    let state = open(&member.head, &mut member.rows);
    let sound = filled && allowed && state.is_fit();
    Driven {
        resolver: Resolver::over(state),
        board,
        sound,
    }
}
