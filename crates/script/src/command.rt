ghost use Rattle.std.specs.Prelude.{◌≡◌};
ghost use Rattle.script.specs.Commands.{command_of};

/// What a line's first word asks for.
#[derive(Clone, Copy, Debug)]
pub enum Command {
    /// There is no word.
    Nothing,
    Term,
    Covers,
    Read,
    Member,
    Drain,
    /// What only a member can answer: the word is none of the others.
    Order,
}

impl From<&[u8]> for Command {
    ghost from_gives = { λ w c. c ≡ command_of w.now };

    fn from(word: &[u8]) -> Command {
        match word {
            b"" => Command::Nothing,
            b"term" => Command::Term,
            b"covers" => Command::Covers,
            b"read" => Command::Read,
            b"member" => Command::Member,
            b"drain" => Command::Drain,
            _ => Command::Order,
        }
    }
}
