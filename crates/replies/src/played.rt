ghost use Rattle.std.specs.Prelude.{◌≡◌, true, ◌&&◌, length};
ghost use Rattle.std.specs.Io.KnownBytes.{Appends};
ghost use Rattle.script.specs.Steps.{Counted};

use crate::{Answerer, Asker, Turn};
use script::Numbered;
use std::alloc::Global;
use std::io;
use std::io::Write;

/// A script that is answered line by line: where the answers go, and whether each line so far was a command.
#[derive(Drop)]
pub struct Played<'a, W: Drop> {
    pub lines: Numbered<'a>,
    pub out: W,
    pub clean: bool,
}

impl<'a, W: Drop> Played<'a, W> {
    /// The whole script, with no line answered.
    pub fn new(text: &'a [u8], out: W) -> Played<'a, W>
        ensures lines { (result.lines.rest.now ≡ text.now) × (result.lines.number ≡ 0) }
        ensures out { result.out ≡ out }
        ensures clean { result.clean ≡ true }
    {
        Played {
            lines: Numbered::new(text),
            out,
            clean: true,
        }
    }
}

impl<'a, W: Write + Drop> Asker<'a> for Played<'a, W> {
    ghost given = { λ s r t. Counted s.lines r t.lines × (t.out ≡ s.out) × (t.clean ≡ s.clean) };

    ghost taken = { λ s _ answer command t. (t.lines ≡ s.lines) × Appends (W.Write.contents s.out) (W.Write.contents t.out) answer × (t.clean ≡ (s.clean && command)) };

    ghost left = { λ s. length s.lines.rest.now };

    fn next(&mut self) -> Option<(u64, &'a [u8])> {
        self.lines.next()
    }

    fn take<T: Answerer>(
        &mut self,
        heap: Global,
        line: u64,
        text: &[u8],
        answerer: &mut T,
    ) -> io::Result<Turn> {
        let turn = answerer.answer(&mut self.out, heap, line, text)?;
        let command = turn.is_command();
        self.clean = self.clean && command;
        Ok(turn)
    }
}
