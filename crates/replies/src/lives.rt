ghost use Rattle.std.specs.Prelude.{◌<◌, ◌≤◌, None, IsSome, IfOk, OnOk};
ghost use Rattle.list_board.specs.Lists.{asks_of};
ghost use Rattle.replies.specs.Lives.{Life, LifeOn, Lived};
ghost use Rattle.row_board.specs.Boards.{open_asks};

use crate::Asker;
use crate::talking::talk;
use board::{Ask, Lent, Open, PLACES};
use list_board::ListBoard;
use one_member::{Admitted, Member};
use orders::BoardKind;
use places::Places;
use row_board::{Row, RowBoard};
use std::alloc::Global;
use std::io;

/// Makes a member with a board of rows, and has it answer the lines up to one that makes another.
fn on_rows<'a, A: Asker<'a>>(
    heap: Global,
    asker: &mut A,
    admitted: Admitted,
) -> io::Result<Option<Admitted>>
    ensures life { IfOk result (λ next. Life A.given A.taken open_asks admitted asker.old next asker.new) }
    ensures left { IfOk result (λ _. A.left asker.new ≤ A.left asker.old) }
    ensures fewer { IfOk result (λ next. IsSome next → A.left asker.new < A.left asker.old) }
{
    let mut places = Places::new();
    let mut rows = [Row::new(0); PLACES];
    let lent = Lent::test(&mut rows).unwrap();
    let mut member = Member::new(admitted, places.lend(), RowBoard::new(lent));
    talk(heap, asker, &mut member)
}

/// Makes a member with a board in order of arrival, and has it answer the lines up to one that makes another.
fn on_list<'a, A: Asker<'a>>(
    heap: Global,
    asker: &mut A,
    admitted: Admitted,
) -> io::Result<Option<Admitted>>
    ensures life { IfOk result (λ next. Life A.given A.taken asks_of admitted asker.old next asker.new) }
    ensures left { IfOk result (λ _. A.left asker.new ≤ A.left asker.old) }
    ensures fewer { IfOk result (λ next. IsSome next → A.left asker.new < A.left asker.old) }
{
    let mut places = Places::new();
    let mut list = [Open::new(0, Ask::Background, None); PLACES];
    let lent = Lent::test(&mut list).unwrap();
    let mut member = Member::new(admitted, places.lend(), ListBoard::new(lent));
    talk(heap, asker, &mut member)
}

/// Makes a member with the board that was asked for, and has it answer the lines up to one that makes another.
fn one_life<'a, A: Asker<'a>>(
    heap: Global,
    asker: &mut A,
    admitted: Admitted,
) -> io::Result<Option<Admitted>>
    ensures life { IfOk result (λ next. LifeOn A.given A.taken admitted.board admitted asker.old next asker.new) }
    ensures left { IfOk result (λ _. A.left asker.new ≤ A.left asker.old) }
    ensures fewer { IfOk result (λ next. IsSome next → A.left asker.new < A.left asker.old) }
{
    match admitted.board {
        BoardKind::Rows => on_rows(heap, asker, admitted),
        BoardKind::List => on_list(heap, asker, admitted),
    }
}

/// Answers every line.
pub fn answer_all<'a, A: Asker<'a>>(heap: Global, asker: &mut A) -> io::Result<()>
    ensures { OnOk result (Lived A.given A.taken asker.old None asker.new) }
{
    let mut next = talk(heap, asker, &mut ())?;
    while let Some(admitted) = next {
        next = one_life(heap, asker, admitted)?;
    }
    Ok(())
}
