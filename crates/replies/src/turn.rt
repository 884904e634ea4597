ghost use Rattle.std.specs.Prelude.{◌≡◌};
ghost use Rattle.replies.specs.Turns.{commands};

use one_member::Admitted;

/// What came of a line.
#[derive(Clone, Copy)]
pub enum Turn {
    /// It was answered, or it has no word.
    Answered,
    /// It is no command, and that was answered.
    NoCommand,
    /// It makes this member.
    Member(Admitted),
}

impl Turn {
    /// Whether the line was a command, or had no word.
    pub fn is_command(self) -> bool
        ensures { result ≡ commands self }
    {
        !matches!(self, Turn::NoCommand)
    }
}
