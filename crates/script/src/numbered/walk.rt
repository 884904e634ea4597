ghost use Rattle.std.specs.Prelude.{◌≡◌, length};
ghost use Rattle.std.specs.Iterator.{at_most};
ghost use Rattle.script.specs.Steps.{Counted};

use crate::numbered::Numbered;
use words::split_line;

impl<'a> Numbered<'a> {
    /// All lines of a text.
    pub fn new(text: &'a [u8]) -> Numbered<'a>
        ensures rest { result.rest.now ≡ text.now }
        ensures number { result.number ≡ 0 }
    {
        Numbered {
            rest: text,
            number: 0,
        }
    }
}

impl<'a> Iterator for Numbered<'a> {
    type Item = (u64, &'a [u8]);

    ghost next_gives = { Counted };

    ghost remaining = { λ s. at_most (length s.rest.now) };

    /// The next line with its number, if one is left. Lines are counted from 1.
    fn next(&mut self) -> Option<(u64, &'a [u8])> {
        let text = self.rest;
        if text.is_empty() {
            return None;
        }
        let (line, rest) = split_line(text);
        let number = self.number + 1;
        self.rest = rest;
        self.number = number;
        Some((number, line))
    }
}
