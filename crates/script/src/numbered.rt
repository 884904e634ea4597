ghost use Rattle.std.specs.Prelude.{◌+◌, ◌^◌, ◌<◌, length};

mod walk;

/// The lines of a script that are left, by their numbers, and how many are behind.
#[derive(Drop)]
pub struct Numbered<'a> {
    rest: &'a [u8],
    number: u64,
    ghost countable: { number + length rest.now < 2 ^ 64 },
}
