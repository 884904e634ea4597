ghost use Rattle.std.specs.Prelude.{◌≡◌, ◌≤◌, length};
ghost use Rattle.recordings.specs.Cuts.{is_plain, Passed};

use words::{strip, up_to};

/// What a line with a command begins with.
pub const MARK: &str = "> ";

/// Whether a line begins at this place that is no command.
fn goes_on(text: &[u8], at: usize) -> bool
    requires { at ≤ length text.now }
    ensures { result ≡ is_plain text.now at }
{
    at < text.len() && strip(&text[at..], MARK).is_none()
}

/// How many bytes, and how many lines, stand before the first line that is a command.
pub(crate) fn before_command(text: &[u8]) -> (usize, u64)
    ensures passed { Passed text.now result.0 result.1 }
    ensures lines { result.1 ≤ result.0 }
{
    let mut at = 0;
    let mut lines = 0;
    while goes_on(text, at) {
        at = text.len().min(at + up_to(&text[at..], b'\n') + 1);
        lines += 1;
    }
    (at, lines)
}
