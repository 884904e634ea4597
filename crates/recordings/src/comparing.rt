ghost use Rattle.std.specs.Prelude.{OnOk};
ghost use Rattle.std.specs.Io.KnownBytes.{Appends};
ghost use Rattle.recordings.specs.Tallies.{difference_text};

use std::io;
use std::io::Write;
use words::split_line;

/// Tells that the line of this number was answered otherwise than recorded, by the first line of the answer.
pub(crate) fn tell<W: Write>(out: &mut W, line: u64, answer: &[u8]) -> io::Result<()>
    ensures { OnOk result (Appends (W.Write.contents out.old) (W.Write.contents out.new) (difference_text line answer.now)) }
{
    let (first, _) = split_line(answer);
    write!(out, "line {line}: here ")?;
    out.write_all(first)?;
    out.write_all(b"\n")
}
