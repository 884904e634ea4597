ghost use Rattle.std.specs.Prelude.{ℕ, List, IfOk};
ghost use Rattle.replies.specs.Lives.{alone};
ghost use Rattle.replies.specs.Replies.{AnsweredBy, Wrote};
ghost use Rattle.replies.specs.declared.turn.Turn.{Turn as Came};

use crate::{Turn, answer, answer_alone};
use board::Board;
use one_member::Member;
use std::alloc::Global;
use std::io;
use std::io::Write;

/// Who answers the lines of a script.
pub trait Answerer {
    /// What a line is answered, by its number and text, what came of it, and what that makes of the one who answers.
    ghost answers: { ℕ → List ℕ → Came → Self → Self → List ℕ → Type 0 };

    /// Answers a line, straight to where its answer goes.
    fn answer<W: Write>(
        &mut self,
        out: &mut W,
        heap: Global,
        line: u64,
        text: &[u8],
    ) -> io::Result<Turn>
        ensures { IfOk result (λ t. Wrote (W.Write.contents out.old) (W.Write.contents out.new) (answers line text.now t self.old self.new)) };
}

/// Where there is no member yet.
impl Answerer for () {
    ghost answers = { alone };

    fn answer<W: Write>(
        &mut self,
        out: &mut W,
        heap: Global,
        line: u64,
        text: &[u8],
    ) -> io::Result<Turn> {
        answer_alone(out, heap, line, text)
    }
}

impl<B: Board> Answerer for Member<'_, B> {
    ghost answers = { AnsweredBy B.asks };

    fn answer<W: Write>(
        &mut self,
        out: &mut W,
        heap: Global,
        line: u64,
        text: &[u8],
    ) -> io::Result<Turn> {
        answer(out, heap, line, text, self)
    }
}
