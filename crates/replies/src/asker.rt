ghost use Rattle.std.specs.Prelude.{◌≡◌, ℕ, ◌<◌, ◌≤◌, Bool, List, Option, IfOk, MatchOption};
ghost use Rattle.std.specs.Borrow.{Bor};
ghost use Rattle.replies.specs.Talks.{Took};

use crate::{Answerer, Turn};
use std::alloc::Global;
use std::io;

/// What gives the lines of a script, and takes the answer to each.
pub trait Asker<'a> {
    /// What is given, and what is left then.
    ghost given: { Self → Option (ℕ × Bor (List ℕ)) → Self → Type 0 };

    /// What comes of an answer.
    ghost taken: { Self → ℕ → List ℕ → Bool → Self → Type 0 };

    /// At least as much as there are lines left.
    ghost left: { Self → ℕ };

    /// The next line with its number, if one is left.
    fn next(&mut self) -> Option<(u64, &'a [u8])>
        ensures given { given self.old result self.new }
        ensures left { MatchOption result (left self.new ≤ left self.old) (λ _. left self.new < left self.old) };

    /// Has the line of this number answered, to where its answer goes, and takes the answer.
    fn take<T: Answerer>(
        &mut self,
        heap: Global,
        line: u64,
        text: &[u8],
        answerer: &mut T,
    ) -> io::Result<Turn>
        ensures taken { IfOk result (λ turn. Took taken T.answers self.old line text.now answerer.old turn self.new answerer.new) }
        ensures left { IfOk result (λ _. left self.new ≡ left self.old) };
}
