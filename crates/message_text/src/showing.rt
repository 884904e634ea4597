ghost use Rattle.std.specs.Prelude.{Some};
ghost use Rattle.message_text.specs.Texts.{verdict_text, seat_text, message_text, waiting_text};
ghost use Rattle.queue.specs.Pendings.{queue_of};

use queue::{Message, Pending};
use record::LENGTH;
use std::fmt;

/// What a verdict says.
#[derive(Clone, Copy)]
struct Verdict(bool);

impl fmt::Display for Verdict {
    ghost output = { λ v. Some (verdict_text v.0) };

    fn fmt<W: fmt::Write>(&self, f: &mut fmt::Formatter<W>) -> fmt::Result {
        f.write_str(if self.0 { "pass" } else { "fail" })
    }
}

/// The seat that alone is asked, behind a space: nothing where there is none.
#[derive(Clone, Copy)]
struct Seat(Option<u32>);

impl fmt::Display for Seat {
    ghost output = { λ s. Some (seat_text s.0) };

    fn fmt<W: fmt::Write>(&self, f: &mut fmt::Formatter<W>) -> fmt::Result {
        match self.0 {
            Some(seat) => write!(f, " {seat}"),
            None => Ok(()),
        }
    }
}

/// A message, by the words that it would be offered in, with a record as its kind and its view.
#[derive(Drop)]
pub struct Named<'m>(pub &'m Message<[u8; LENGTH]>);

impl fmt::Display for Named<'_> {
    ghost output = { λ n. Some (message_text n.0.now) };

    fn fmt<W: fmt::Write>(&self, f: &mut fmt::Formatter<W>) -> fmt::Result {
        match self.0 {
            Message::Updated { kind, view, .. } => write!(f, "updated {kind} {view}"),
            Message::Certified {
                kind,
                view,
                success,
                ..
            } => write!(f, "certified {} {kind} {view}", Verdict(*success)),
            Message::Resolve {
                proposal,
                view,
                kind,
                target,
            } => write!(f, "resolve {proposal} {view} {kind}{}", Seat(*target)),
            Message::Replayed => f.write_str("replayed"),
        }
    }
}

/// How much waits in a queue: 1 for a held finalization, else 0, and the number of the other messages.
#[derive(Drop)]
pub struct Waiting<'q, 'a>(pub &'q Pending<'a, [u8; LENGTH]>);

impl fmt::Display for Waiting<'_, '_> {
    ghost output = { λ w. Some (waiting_text (queue_of w.0.now)) };

    fn fmt<W: fmt::Write>(&self, f: &mut fmt::Formatter<W>) -> fmt::Result {
        let held = u8::from(self.0.holds_finalization());
        let others = self.0.waiting();
        write!(f, "waiting {held} {others}")
    }
}
