ghost use Rattle.std.specs.Prelude.{◌<◌, ◌≤◌, IsSome, IfOk};
ghost use Rattle.replies.specs.Talks.{Talk};

use crate::{Answerer, Asker, Turn};
use one_member::Admitted;
use std::alloc::Global;
use std::io;

/// Has the lines answered up to one that makes a member, or another one.
pub(crate) fn talk<'a, A: Asker<'a>, T: Answerer>(
    heap: Global,
    asker: &mut A,
    answerer: &mut T,
) -> io::Result<Option<Admitted>>
    ensures talk { IfOk result (λ next. Talk A.given A.taken T.answers asker.old answerer.old next asker.new answerer.new) }
    ensures left { IfOk result (λ _. A.left asker.new ≤ A.left asker.old) }
    ensures fewer { IfOk result (λ next. IsSome next → A.left asker.new < A.left asker.old) }
{
    while let Some((line, text)) = asker.next() {
        let turn = asker.take(heap, line, text, answerer)?;
        if let Turn::Member(admitted) = turn {
            return Ok(Some(admitted));
        }
    }
    Ok(None)
}
