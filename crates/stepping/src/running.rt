ghost use Rattle.std.specs.Prelude.{◌≡◌, ◌/◌, length};
ghost use Rattle.stepping.specs.Runs.{AllCalled, Stepped, Passed, Ran, Whole};
ghost use Rattle.stepping.specs.Tallies.{none_yet};

use crate::{Answer, Line, Member, Tally};
use board::Board;
use places::Places;
use queue::{Message, PLACES};
use record::LENGTH;
use steps::{Step, Stream};

/// The most messages that can wait: a finalization, and the others.
const MOST: usize = PLACES + 1;

impl<'a, B: Board> Member<'a, B> {
    /// Calls the resolver with each of these messages in turn, and counts its answers.
    fn call_with_each(&mut self, messages: &[Message<[u8; LENGTH]>], tally: &mut Tally)
        ensures called { AllCalled B.asks messages.now (length messages.now) self.old self.new tally.old tally.new }
        ensures queue { self.new.queue ≡ self.old.queue }
    {
        for message in messages {
            tally.add(self.call(message));
        }
    }

    /// Empties the queue into the front of a list, of at most `count` messages, and calls the resolver with each.
    fn drain(&mut self, count: u64, list: &mut [Message<[u8; LENGTH]>], tally: &mut Tally)
        ensures { Stepped B.asks (length list.old) (Step.Drain count) self.old self.new tally.old tally.new }
    {
        let places = count.min(list.len() as u64) as usize;
        let drained = self.queue.drain(&mut list[..places]);
        tally.add(Answer::Nothing);
        self.call_with_each(&list[..drained], tally);
    }

    /// Carries one step out, and counts its answers. A drain goes through the list; what that holds afterwards is open.
    pub fn step(&mut self, step: &Step, list: &mut [Message<[u8; LENGTH]>], tally: &mut Tally)
        ensures { Stepped B.asks (length list.old) step.now self.old self.new tally.old tally.new }
    {
        match step {
            Step::Order(order) => tally.add(self.carry_out(order)),
            Step::Drain(count) => self.drain(*count, list, tally),
        }
    }

    /// Carries all steps of a stream out, so many views later.
    fn pass(
        &mut self,
        stream: &Stream,
        by: u64,
        list: &mut [Message<[u8; LENGTH]>],
        tally: &mut Tally,
    )
        ensures { Passed B.asks (length list.old) by stream.now.steps.now (length stream.now.steps.now / 24) self.old self.new tally.old tally.new }
    {
        for i in 0..stream.len() {
            let step = stream.step(i).unwrap().later(by);
            self.step(&step, list, tally);
        }
    }

    /// Carries all steps of a stream out, as many times as it says, and counts the answers.
    pub fn run(&mut self, stream: &Stream) -> Tally
        ensures { Ran B.asks 65 stream.now.header.span stream.now.steps.now stream.now.header.passes self.old self.new none_yet result }
    {
        let mut list = [Message::Replayed; MOST];
        let mut tally = Tally::default();
        for i in 0..stream.header.passes {
            let by = i.wrapping_mul(stream.header.span);
            self.pass(stream, by, &mut list, &mut tally);
        }
        tally
    }
}

/// Runs a stream on a fresh member with this board.
pub fn run<B: Board + Drop>(stream: &Stream, board: B) -> Line
    ensures { Whole B.asks stream.now.header stream.now.steps.now board result }
{
    let mut places = Places::new();
    let mut member = Member::new(&stream.header, places.lend(), board);
    let tally = member.run(stream);
    Line {
        tally,
        open_asks: member.open_asks(),
    }
}
