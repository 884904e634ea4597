ghost use Rattle.std.specs.Prelude.{Some};
ghost use Rattle.script.specs.Mistakes.{mistake_text};

use std::fmt;
use words::Problem;

/// What is wrong with the line of a number.
#[derive(Clone, Copy, Debug)]
pub struct Mistake {
    pub line: u64,
    pub problem: Problem,
}

impl fmt::Display for Mistake {
    ghost output = { λ m. Some (mistake_text m) };

    fn fmt<W: fmt::Write>(&self, f: &mut fmt::Formatter<W>) -> fmt::Result {
        let Mistake { line, problem } = *self;
        write!(f, "line {line}: error: {problem}")
    }
}
