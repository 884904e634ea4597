ghost use Rattle.std.specs.Prelude.{length};
ghost use Rattle.std.specs.Iterator.{at_most};
ghost use Rattle.recordings.specs.Entries.{Begun, Gives};

use crate::cutting::{MARK, before_command};
use crate::recording::{Entry, Recording};
use words::{split_line, strip};

impl<'a> Recording<'a> {
    /// A whole file, from its first command on.
    pub fn new(file: &'a [u8]) -> Recording<'a>
        ensures { Begun file.now result }
    {
        let (bytes, lines) = before_command(file);
        Recording {
            rest: &file[bytes..],
            number: lines,
        }
    }
}

impl<'a> Iterator for Recording<'a> {
    type Item = Entry<'a>;

    ghost next_gives = { Gives };

    ghost remaining = { λ s. at_most (length s.rest.now) };

    /// The next command, if one is left. Lines are counted from 1.
    fn next(&mut self) -> Option<Entry<'a>> {
        let text = strip(self.rest, MARK)?;
        let (command, after) = split_line(text);
        let (bytes, lines) = before_command(after);
        let (answer, rest) = after.split_at(bytes);
        let line = self.number + 1;
        self.rest = rest;
        self.number = line + lines;
        Some(Entry {
            line,
            command,
            answer,
        })
    }
}
