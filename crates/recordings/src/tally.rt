ghost use Rattle.std.specs.Prelude.{◌≡◌, true, Some};
ghost use Rattle.recordings.specs.Tallies.{counted, agreed, tally_text};

use std::fmt;

/// What was compared so far.
#[derive(Clone, Copy)]
pub struct Tally {
    pub commands: u64,
    /// How many of them were answered otherwise than recorded.
    pub different: u64,
    /// Whether each was a command.
    pub clean: bool,
}

impl Tally {
    /// Nothing was compared yet.
    pub fn new() -> Tally
        ensures { result ≡ record { commands = 0; different = 0; clean = true } }
    {
        Tally {
            commands: 0,
            different: 0,
            clean: true,
        }
    }

    /// With one more, which was answered as recorded or not, and was a command or not. Counts stop at the largest number.
    pub fn with(self, same: bool, command: bool) -> Tally
        ensures { result ≡ counted same command self }
    {
        Tally {
            commands: self.commands.saturating_add(1),
            different: self.different.saturating_add(u64::from(!same)),
            clean: self.clean && command,
        }
    }

    /// Whether there were commands, each was one, and each was answered as recorded.
    pub fn agrees(self) -> bool
        ensures { result ≡ agreed self }
    {
        self.commands > 0 && self.different == 0 && self.clean
    }
}

impl fmt::Display for Tally {
    ghost output = { λ t. Some (tally_text t) };

    fn fmt<W: fmt::Write>(&self, f: &mut fmt::Formatter<W>) -> fmt::Result {
        let Tally {
            commands,
            different,
            ..
        } = *self;
        write!(f, "commands {commands} different {different}")
    }
}
