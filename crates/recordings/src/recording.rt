ghost use Rattle.std.specs.Prelude.{◌+◌, ◌^◌, ◌<◌, length};

mod walk;

/// A command of a file, with the number of its line and the answer that was recorded.
#[derive(Clone, Copy)]
pub struct Entry<'a> {
    pub line: u64,
    pub command: &'a [u8],
    pub answer: &'a [u8],
}

/// What is left of a file: its commands with their answers, and how many lines are behind.
#[derive(Drop)]
pub struct Recording<'a> {
    rest: &'a [u8],
    number: u64,
    ghost countable: { number + length rest.now < 2 ^ 64 },
}
