ghost use Rattle.std.specs.Prelude.{◌≡◌, true, [], ◌∷◌, ◌++◌, length, IfOk};
ghost use Rattle.std.specs.Io.KnownBytes.{Appends};
ghost use Rattle.std.specs.Str.{bytes_eq};
ghost use Rattle.recordings.specs.Entries.{Begun};
ghost use Rattle.recordings.specs.Replays.{Given, Compared};
ghost use Rattle.recordings.specs.Tallies.{agreed, tally_text};

use crate::comparing::tell;
use crate::{Entry, Recording, Tally};
use replies::{Answerer, Asker, Turn};
use std::alloc::Global;
use std::io;
use std::io::Write;

/// A file whose commands are answered again: what is left of it, the answer that was recorded to the command given last,
/// where differences are told, and how many there were.
#[derive(Drop)]
pub struct Replay<'a, W: Drop> {
    recording: Recording<'a>,
    recorded: &'a [u8],
    out: W,
    tally: Tally,
}

/// Whether an answer is the recorded one.
fn is_same(answer: &[u8], recorded: &[u8]) -> bool
    ensures { result ≡ bytes_eq answer.now recorded.now }
{
    answer == recorded
}

impl<'a, W: Write + Drop> Replay<'a, W> {
    /// A whole file, with nothing compared.
    pub fn new(file: &'a [u8], out: W) -> Replay<'a, W>
        ensures recording { Begun file.now result.recording }
        ensures recorded { result.recorded.now ≡ [] }
        ensures out { result.out ≡ out }
        ensures tally { result.tally ≡ record { commands = 0; different = 0; clean = true } }
    {
        Replay {
            recording: Recording::new(file),
            recorded: b"",
            out,
            tally: Tally::new(),
        }
    }

    /// Tells what was counted, and answers whether all was as recorded.
    pub fn finish(&mut self) -> io::Result<bool>
        ensures others { (self.new.recording ≡ self.old.recording) × (self.new.recorded ≡ self.old.recorded) × (self.new.tally ≡ self.old.tally) }
        ensures told { IfOk result (λ same. (same ≡ agreed self.old.tally) × Appends (W.Write.contents self.old.out) (W.Write.contents self.new.out) (tally_text self.old.tally ++ 10 ∷ [])) }
    {
        let tally = self.tally;
        writeln!(self.out, "{tally}")?;
        self.out.flush()?;
        Ok(tally.agrees())
    }
}

impl<'a, W: Write + Drop> Asker<'a> for Replay<'a, W> {
    ghost given = { λ s r t. Given s r t };

    ghost taken = { λ s line answer command t. Compared W.Write.contents s line answer command t };

    ghost left = { λ s. length s.recording.rest.now };

    fn next(&mut self) -> Option<(u64, &'a [u8])> {
        let Entry {
            line,
            command,
            answer,
        } = self.recording.next()?;
        self.recorded = answer;
        Some((line, command))
    }

    fn take<T: Answerer>(
        &mut self,
        heap: Global,
        line: u64,
        text: &[u8],
        answerer: &mut T,
    ) -> io::Result<Turn> {
        let mut answered = Vec::new(heap);
        let turn = answerer.answer(&mut answered, heap, line, text)?;
        let command = turn.is_command();
        let same = is_same(answered.as_slice(), self.recorded);
        self.tally = self.tally.with(same, command);
        if same {
            return Ok(turn);
        }
        tell(&mut self.out, line, answered.as_slice())?;
        Ok(turn)
    }
}
