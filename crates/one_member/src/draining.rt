ghost use Rattle.std.specs.Prelude.{◌≡◌, min, OnOk};
ghost use Rattle.one_member.specs.Drained.{Made, Drained};
ghost use Rattle.queue.specs.Pendings.{queue_of};
ghost use Rattle.queue.specs.Queues.{drained};

use crate::Member;
use board::Board;
use message_text::Named;
use queue::{Message, PLACES};
use record::LENGTH;
use std::io;
use std::io::Write;

/// The most messages that can wait: a finalization, and the others.
const MOST: usize = PLACES + 1;

impl<'a, B: Board> Member<'a, B> {
    /// Calls the resolver with each of these messages in turn, and writes a line for each: its words, and the answer.
    fn call_with_each<W: Write>(
        &mut self,
        out: &mut W,
        messages: &[Message<[u8; LENGTH]>],
    ) -> io::Result<()>
        ensures queue { self.new.queue ≡ self.old.queue }
        ensures calls { OnOk result (Made B.asks messages.now self.old self.new (W.Write.contents out.old) (W.Write.contents out.new)) }
    {
        for message in messages {
            let answered = self.call_with(message);
            writeln!(out, "  {}: {}", Named(message), self.shows(answered))?;
        }
        Ok(())
    }

    /// Empties the queue into a list of `count` places, or of as many as can be filled, and writes how many messages came
    /// out; then calls the resolver with each.
    pub fn drain<W: Write>(&mut self, out: &mut W, count: u64) -> io::Result<()>
        ensures queue { queue_of self.new.queue ≡ (drained (min count 65) (queue_of self.old.queue)).1 }
        ensures calls { OnOk result (Drained B.asks (drained (min count 65) (queue_of self.old.queue)).0 self.old self.new (W.Write.contents out.old) (W.Write.contents out.new)) }
    {
        let mut list = [Message::Replayed; MOST];
        let places = count.min(MOST as u64) as usize;
        let drained = self.queue.drain(&mut list[..places]);
        writeln!(out, "drained {drained}")?;
        self.call_with_each(out, &list[..drained])
    }
}
